//! Bytes in memory, as what frames are read from.
//! `Plain` promises of no reader that its calls don't fail; this is proved, so no read fails.
ghost use Rattle.std.specs.Prelude.{◌≡◌, Some};

use dsn_outcome::{Broken, Source};
use std::io::Read;

/// Reads bytes in memory. No call fails.
#[derive(Drop)]
pub(crate) struct MemorySource<'a> {
    pub(crate) rest: &'a [u8],
}

impl Source for MemorySource<'_> {
    ghost remaining = { λ s. Some s.rest.now };

    ghost failures = { λ _. 0 };

    ghost steady = { λ _. Unit {0} };

    fn read(&mut self, buffer: &mut [u8]) -> Result<usize, Broken> {
        match self.rest.read(buffer) {
            Ok(count) => Ok(count),
            Err(_) => unreachable!(),
        }
    }
}
