//! The outbox of `serve`.
//! A mark says that a notice is on the disk, so an outbox beside a journal is a file that can be
//! synced. A sync of a pipe is an error, so standard output is only flushed.
use std::fs::File;
use std::io;
use std::io::Write;
use std::rt::Stdout;

/// The destination of notices.
#[derive(Drop)]
pub(crate) enum OutboxWriter {
    /// Standard output. A flush passes on what was written, and doesn't wait for a disk.
    Standard(Stdout),
    /// A file. A flush waits until what was written is on the disk.
    Synced(File),
}

impl Write for OutboxWriter {
    fn write(&mut self, text: &[u8]) -> io::Result<usize> {
        match self {
            OutboxWriter::Standard(stdout) => stdout.write(text),
            OutboxWriter::Synced(file) => file.write(text),
        }
    }

    fn flush(&mut self) -> io::Result<()> {
        match self {
            OutboxWriter::Standard(stdout) => stdout.flush(),
            OutboxWriter::Synced(file) => file.sync_data(),
        }
    }
}
