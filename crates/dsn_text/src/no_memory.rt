//! The error of refused memory.
ghost use Rattle.std.specs.Prelude.{◌≡◌};
ghost use Rattle.dsn_text.specs.FaultCode.{no_memory_code};

use crate::fault_code;
use thiserror::Error;

/// The memory that a call needed was refused.
#[derive(Clone, Copy, Debug, PartialEq, Eq, Error)]
#[error("out of memory")]
pub struct NoMemory;

impl NoMemory {
    /// The number of the fault: 9.
    pub fn code(&self) -> u32
        ensures { result ≡ no_memory_code }
    {
        fault_code::NO_MEMORY
    }
}
