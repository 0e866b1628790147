//! An outbox in memory, of which one write or one flush fails where that is asked.
ghost use Rattle.std.specs.Prelude.{refl};

use crate::crew::failing::{Call, Failing};
use dsn_device::OpaqueStream;
use std::io;
use std::io::{Read, Write};

/// An outbox in memory. It exposes no bytes to contracts.
#[derive(Drop)]
pub(crate) struct Outbox<'a> {
    pub(crate) text: Vec<u8>,
    pub(crate) failing: &'a Failing,
}

impl Read for Outbox<'_> {
    fn read(&mut self, _buffer: &mut [u8]) -> io::Result<usize> {
        Ok(0)
    }
}

impl Write for Outbox<'_> {
    fn write(&mut self, text: &[u8]) -> io::Result<usize> {
        if let Some(failure) = self.failing.at(Call::Post) {
            return failure.given();
        }
        self.text.extend_from_slice(text)?;
        Ok(text.len())
    }

    fn flush(&mut self) -> io::Result<()> {
        match self.failing.at(Call::Flush) {
            Some(failure) => {
                failure.given()?;
                Ok(())
            }
            None => Ok(()),
        }
    }
}

impl OpaqueStream for Outbox<'_> {
    ghost untold_input = { λ _. refl };

    ghost untold_output = { λ _. refl };
}
