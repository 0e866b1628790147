//! A connection that retries interrupted calls. Without that, a process that was stopped for a
//! while, as by a debugger, would postpone a notice that the mail server already has. Its recipient
//! would get it twice.
ghost use Rattle.std.specs.Prelude.{refl};

use crate::opaque_stream::OpaqueStream;
use std::io;
use std::io::{Error, ErrorKind, Read, Write};

/// How often an interrupted call is tried.
const TRIES: u32 = 1_000;

/// A connection over a socket that retries interrupted calls. A call with a time limit is
/// interrupted if the process is stopped for a while.
#[derive(Drop)]
pub struct Connection<T> {
    stream: T,
}

impl<T> Connection<T> {
    /// The connection over this socket.
    pub fn new(stream: T) -> Connection<T> {
        Connection { stream }
    }
}

impl<T: Read> Read for Connection<T> {
    fn read(&mut self, buffer: &mut [u8]) -> io::Result<usize> {
        for _ in 0..TRIES {
            match self.stream.read(buffer) {
                Err(error) if error.kind() == ErrorKind::Interrupted => {}
                read => return read,
            }
        }
        Err(Error::from(ErrorKind::Interrupted))
    }
}

impl<T: Write> Write for Connection<T> {
    fn write(&mut self, text: &[u8]) -> io::Result<usize> {
        for _ in 0..TRIES {
            match self.stream.write(text) {
                Err(error) if error.kind() == ErrorKind::Interrupted => {}
                written => return written,
            }
        }
        Err(Error::from(ErrorKind::Interrupted))
    }

    fn flush(&mut self) -> io::Result<()> {
        self.stream.flush()
    }
}

impl<T: Read + Write> OpaqueStream for Connection<T> {
    ghost untold_input = { λ _. refl };

    ghost untold_output = { λ _. refl };
}
