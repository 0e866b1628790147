//! Connections whose bytes are given, and a port that gives them one after another.
ghost use Rattle.std.specs.Prelude.{None, refl};

use crate::crew::failing::{Call, Failing};
use dsn_crew::{Next, Port};
use dsn_device::{OpaqueStream, Plain};
use std::io;
use std::io::{Read, Write};

/// A connection whose peer sends the given bytes, and hears its answers on standard output.
#[derive(Drop)]
pub(crate) struct Given<'a, R> {
    rt: &'a R,
    bytes: &'a [u8],
    /// How many bytes a read gives at most.
    most: usize,
    failing: &'a Failing,
}

impl<R: Print> Read for Given<'_, R> {
    fn read(&mut self, buffer: &mut [u8]) -> io::Result<usize> {
        if let Some(failure) = self.failing.at(Call::Read) {
            return failure.given();
        }
        let room = buffer.len().min(self.most);
        self.bytes.read(&mut buffer[..room])
    }
}

impl<R: Print> Write for Given<'_, R> {
    fn write(&mut self, text: &[u8]) -> io::Result<usize> {
        if let Some(failure) = self.failing.at(Call::Write) {
            return failure.given();
        }
        io::writer(self.rt).write(text)
    }

    fn flush(&mut self) -> io::Result<()> {
        Ok(())
    }
}

impl<R: Print> OpaqueStream for Given<'_, R> {
    ghost untold_input = { λ _. refl };

    ghost untold_output = { λ _. refl };
}

/// A port that gives connections, each announced on standard output by four bytes, `conn`. One text
/// holds what each peer sends, with a length in four bytes before each.
#[derive(Drop)]
pub(crate) struct GivenPort<'a, R> {
    pub(crate) rt: &'a R,
    pub(crate) rest: &'a [u8],
    pub(crate) most: usize,
    pub(crate) failing: &'a Failing,
}

impl<'a, R: Print> GivenPort<'a, R> {
    /// What the next peer sends, if there is one.
    fn next_bytes(&mut self) -> Option<&'a [u8]> {
        let rest = self.rest;
        if rest.len() < 4 {
            return None;
        }
        let (length, rest) = rest.split_at(4);
        let length = u32::from_be_bytes([length[0], length[1], length[2], length[3]]) as usize;
        let (bytes, rest) = rest.split_at(length.min(rest.len()));
        self.rest = rest;
        Some(bytes)
    }
}

impl<'a, R: Print + Sync> Port for GivenPort<'a, R> {
    type Stream = Plain<Given<'a, R>>;

    ghost conns = { λ _. None };

    ghost may_give = { λ _ _. Unit {0} };

    fn next(&mut self) -> Next<Plain<Given<'a, R>>> {
        let Some(bytes) = self.next_bytes() else {
            return Next::Done;
        };
        if io::writer(self.rt).write_all(b"conn").is_err() {
            return Next::Failed;
        }
        Next::Conn(Plain::new(Given {
            rt: self.rt,
            bytes,
            most: self.most,
            failing: self.failing,
        }))
    }
}
