//! Memory as a device to write to.
ghost use Rattle.std.specs.Prelude.{◌≡◌, Some, false};

use crate::broken::Broken;
use crate::drain::Drain;
use std::marker::Model;

/// A buffer in memory as a device, with counts of its failed writes and its flushes, which stop at
/// `u64::MAX`. A write fails if memory is refused, and then takes no byte. No flush fails.
#[derive(Drop)]
pub struct MemoryDrain {
    bytes: Vec<u8>,
    failures: u64,
    flushes: u64,
    /// Whether bytes were taken since the last flush.
    unflushed: bool,
}

impl Model for MemoryDrain {
    ghost use Rattle.dsn_device.specs.MemoryDrain.{MemoryDrain};

    ghost Value = { MemoryDrain };

    ghost view = { λ d. record {
      bytes = d.bytes.items;
      failures = d.failures;
      flushes = d.flushes;
      unflushed = d.unflushed;
    } };
}

impl MemoryDrain {
    /// A device that appends to these bytes. It has no failures and no flushes yet.
    pub fn new(bytes: Vec<u8>) -> MemoryDrain
        ensures { result ≡ record {
          bytes = bytes.items;
          failures = 0;
          flushes = 0;
          unflushed = false;
        } }
    {
        MemoryDrain {
            bytes,
            failures: 0,
            flushes: 0,
            unflushed: false,
        }
    }

    /// The bytes, followed by those that were written.
    pub fn into_bytes(self) -> Vec<u8>
        ensures { result.items ≡ self.bytes }
    {
        let MemoryDrain {
            bytes,
            failures: _,
            flushes: _,
            unflushed: _,
        } = self;
        bytes
    }
}

impl Drain for MemoryDrain {
    ghost contents = { λ d. Some d.bytes };

    ghost failures = { λ d. d.failures };

    ghost flushes = { λ d. d.flushes };

    ghost unflushed = { λ d. d.unflushed };

    ghost steady = { λ _. ⊥ };

    ghost flushes_surely = { λ _. Unit {0} };

    fn write(&mut self, text: &[u8]) -> Result<usize, Broken> {
        if self.bytes.extend_from_slice(text).is_err() {
            self.failures = self.failures.saturating_add(1);
            return Err(Broken);
        }
        self.unflushed |= !text.is_empty();
        Ok(text.len())
    }

    fn flush(&mut self) -> Result<(), Broken> {
        self.flushes = self.flushes.saturating_add(1);
        self.unflushed = false;
        Ok(())
    }

    fn mark_letter(&mut self, _serial: u64) -> Result<(), Broken> {
        Ok(())
    }
}
