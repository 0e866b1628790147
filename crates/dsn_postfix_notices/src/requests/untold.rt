//! Why a message's sender isn't notified as a request asks.
use crate::letters::LetterFault;
use crate::requests::deed_fault::DeedFault;
use crate::requests::pass_reason::PassReason;
use dsn_postfix::PlanFault;
use dsn_text::NoMemory;
use std::alloc::{AllocError, AllocFailed};

/// Why a message's sender isn't notified as a request asks.
#[derive(Clone, Copy, Debug, Drop)]
pub(super) enum Untold {
    /// The whole request is left to Postfix's own service. Either the postmaster gets a copy, or a
    /// notice can't be expressed, and nothing was submitted; or the first letter was refused for
    /// good, and no other was submitted.
    PassedOn(PassReason),
    /// A deed failed, or a letter wasn't accepted and the request can't be passed on.
    Failed,
    /// Memory for a letter, for its text, or for the places to mark was refused.
    NoMemory,
}

impl From<DeedFault> for Untold {
    ghost use Rattle.std.specs.Prelude.{◌≡◌};
    ghost use Rattle.dsn_postfix_notices.specs.declared.requests.untold.Untold.TheVariants.{Failed};

    ghost from_gives = { λ _ why. why ≡ Failed };

    fn from(_: DeedFault) -> Untold {
        Untold::Failed
    }
}

impl From<NoMemory> for Untold {
    ghost use Rattle.std.specs.Prelude.{◌≡◌};
    ghost use Rattle.dsn_postfix_notices.specs.declared.requests.untold.Untold.TheVariants.{NoMemory};

    ghost from_gives = { λ _ why. why ≡ NoMemory };

    fn from(_: NoMemory) -> Untold {
        Untold::NoMemory
    }
}

impl From<AllocError> for Untold {
    ghost use Rattle.std.specs.Prelude.{◌≡◌};
    ghost use Rattle.dsn_postfix_notices.specs.declared.requests.untold.Untold.TheVariants.{NoMemory};

    ghost from_gives = { λ _ why. why ≡ NoMemory };

    fn from(_: AllocError) -> Untold {
        Untold::NoMemory
    }
}

impl<T: Drop> From<AllocFailed<T>> for Untold {
    ghost use Rattle.std.specs.Prelude.{◌≡◌};
    ghost use Rattle.dsn_postfix_notices.specs.declared.requests.untold.Untold.TheVariants.{NoMemory};

    ghost from_gives = { λ _ why. why ≡ NoMemory };

    fn from(_: AllocFailed<T>) -> Untold {
        Untold::NoMemory
    }
}

impl From<PlanFault> for Untold {
    ghost use Rattle.std.specs.Prelude.{◌≡◌};
    ghost use Rattle.dsn_postfix_notices.specs.inner.RequestLetters.{of_plan};

    ghost from_gives = { λ fault why. why ≡ of_plan fault };

    fn from(fault: PlanFault) -> Untold {
        match fault {
            PlanFault::NoMemory => Untold::NoMemory,
            PlanFault::Unsaid(why) => Untold::PassedOn(PassReason::NoPlan(why)),
        }
    }
}

impl From<LetterFault> for Untold {
    ghost use Rattle.std.specs.Prelude.{◌≡◌};
    ghost use Rattle.dsn_postfix_notices.specs.inner.RequestLetters.{of_letter};

    ghost from_gives = { λ fault why. why ≡ of_letter fault };

    fn from(fault: LetterFault) -> Untold {
        match fault {
            LetterFault::NoMemory => Untold::NoMemory,
            fault => Untold::PassedOn(PassReason::NoLetter(fault)),
        }
    }
}
