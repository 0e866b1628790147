//! Readers and writers that take and return bytes in pieces, and fail once. No contract exposes
//! their bytes: tests compare these.
use dsn_device::OpaqueStream;
use std::io;
use std::io::{ErrorKind, Read, Write};

/// A reader over bytes in memory. A call returns at most `most` bytes; 0 counts as 1. The call
/// after the first `good` calls is interrupted, and from then on the reader works again.
#[derive(Drop)]
pub struct PieceReader<'a> {
    pub rest: &'a [u8],
    pub most: usize,
    pub good: usize,
}

impl Read for PieceReader<'_> {
    fn read(&mut self, buffer: &mut [u8]) -> io::Result<usize> {
        if self.good == 0 {
            self.good = usize::MAX;
            return Err(io::Error::from(ErrorKind::Interrupted));
        }
        self.good -= 1;
        let room = buffer.len().min(self.most.max(1));
        self.rest.read(&mut buffer[..room])
    }
}

/// A writer into memory. A call takes at most `most` bytes; if `most` is 0, it takes nothing and
/// returns 0. Once it has taken `room` bytes, the next write or flush is interrupted, and from then
/// on the writer works again.
#[derive(Drop)]
pub struct PieceWriter {
    pub held: Vec<u8>,
    pub most: usize,
    pub room: usize,
}

impl Write for PieceWriter {
    fn write(&mut self, text: &[u8]) -> io::Result<usize> {
        if self.room == 0 {
            self.room = usize::MAX;
            return Err(io::Error::from(ErrorKind::Interrupted));
        }
        let taken = text.len().min(self.most).min(self.room);
        self.held.extend_from_slice(&text[..taken])?;
        self.room -= taken;
        Ok(taken)
    }

    fn flush(&mut self) -> io::Result<()> {
        if self.room == 0 {
            self.room = usize::MAX;
            return Err(io::Error::from(ErrorKind::Interrupted));
        }
        Ok(())
    }
}

/// A connection in memory: what its peer sent, and what its peer gets.
#[derive(Drop)]
pub struct PieceConnection<'a> {
    pub input: PieceReader<'a>,
    pub output: PieceWriter,
}

impl Read for PieceConnection<'_> {
    fn read(&mut self, buffer: &mut [u8]) -> io::Result<usize> {
        self.input.read(buffer)
    }
}

impl Write for PieceConnection<'_> {
    fn write(&mut self, text: &[u8]) -> io::Result<usize> {
        self.output.write(text)
    }

    fn flush(&mut self) -> io::Result<()> {
        self.output.flush()
    }
}

impl OpaqueStream for PieceConnection<'_> {
    ghost use Rattle.std.specs.Prelude.{refl};

    ghost untold_input = { λ _. refl };

    ghost untold_output = { λ _. refl };
}
