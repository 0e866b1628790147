//! Why no letter can be made of a planned notice. Postfix's own service then makes the notice.
//! Implements docs/postfix-internals.md, "The notice of a Postfix log".
ghost use Rattle.std.specs.Prelude.{◌≡◌};

use dsn_outcome::{DraftFault, NoMemory, OutcomeFault};
use std::alloc::AllocError;
use thiserror::Error;

/// Why no letter can be made of a planned notice.
#[derive(Clone, Copy, Debug, Drop, PartialEq, Eq, Error)]
pub enum LetterFault {
    /// It reports no recipient, or more than 1,000.
    #[error("nobody, or more than 1,000 recipients")]
    Count,
    /// The queue file doesn't say when the message arrived, or says a time after the year 9999.
    #[error("it is unknown when the message came")]
    Arrival,
    /// The local part of the address that it goes to needs quotes in SMTP (RFC 5321 section 4.1.2).
    #[error("the address of the notice needs quotes")]
    Quotes,
    /// What it says of the message is not a valid draft.
    #[error("{0}")]
    Draft(DraftFault),
    /// The name of a remote system has another type than `dns`.
    #[error("the name of a remote system that isn't of the type dns")]
    RemoteType,
    /// What it says of a recipient is not a valid outcome.
    #[error("{0}")]
    Outcome(OutcomeFault),
    /// Memory was refused.
    #[error("out of memory")]
    NoMemory,
}

impl From<AllocError> for LetterFault {
    ghost use Rattle.dsn_postfix_notices.specs.declared.letters.letter_fault.LetterFault.{LetterFault};

    ghost from_gives = { λ _ fault. fault ≡ LetterFault.NoMemory };

    fn from(_: AllocError) -> LetterFault {
        LetterFault::NoMemory
    }
}

impl From<DraftFault> for LetterFault {
    ghost use Rattle.dsn_postfix_notices.specs.letters.LetterFault.{of_draft};

    ghost from_gives = { λ refused fault. fault ≡ of_draft refused };

    fn from(fault: DraftFault) -> LetterFault {
        match fault {
            DraftFault::NoMemory => LetterFault::NoMemory,
            fault => LetterFault::Draft(fault),
        }
    }
}

impl From<OutcomeFault> for LetterFault {
    ghost use Rattle.dsn_postfix_notices.specs.letters.LetterFault.{of_outcome};

    ghost from_gives = { λ refused fault. fault ≡ of_outcome refused };

    fn from(fault: OutcomeFault) -> LetterFault {
        match fault {
            OutcomeFault::NoMemory => LetterFault::NoMemory,
            fault => LetterFault::Outcome(fault),
        }
    }
}
