//! Why notices weren't planned.
ghost use Rattle.std.specs.Prelude.{◌≡◌};
ghost use Rattle.dsn_postfix.specs.declared.plan_fault.PlanFault.TheVariants.{NoMemory};

use crate::cant_say::CantSay;
use std::alloc::{AllocError, AllocFailed};
use thiserror::Error;

/// Why notices weren't planned.
#[derive(Clone, Copy, Debug, Drop, PartialEq, Eq, Error)]
pub enum PlanFault {
    /// Memory for the plan was refused.
    #[error("out of memory")]
    NoMemory,
    /// The notices can't be expressed.
    #[error("notices that can't be said")]
    Unsaid(CantSay),
}

impl From<AllocError> for PlanFault {
    ghost from_gives = { λ _ fault. fault ≡ NoMemory };

    fn from(_: AllocError) -> Self {
        PlanFault::NoMemory
    }
}

impl<T: Drop> From<AllocFailed<T>> for PlanFault {
    ghost from_gives = { λ _ fault. fault ≡ NoMemory };

    fn from(_: AllocFailed<T>) -> Self {
        PlanFault::NoMemory
    }
}
