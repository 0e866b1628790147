//! Why requests were not kept.
ghost use Rattle.std.specs.Prelude.{◌≡◌};
ghost use Rattle.dsn_ledger.specs.KeepError.{keep_error_code};
ghost use Rattle.dsn_journal.specs.declared.journal_error.JournalError.TheVariants.{Memory};
ghost use Rattle.dsn_ledger.specs.declared.keep_error.KeepError.TheVariants.{Journal};

use dsn_journal::JournalError;
use dsn_text::fault_code;
use std::alloc::AllocError;
use thiserror::Error;

/// Why a ledger did not keep requests, or was not compacted.
#[derive(Clone, Copy, Debug, PartialEq, Eq, Error)]
pub enum KeepError {
    /// A call of the ledger's disk failed earlier: open it again.
    #[error("the ledger is not settled")]
    Unsettled,
    /// The journal did not write the records.
    #[error("{0}")]
    Journal(JournalError),
}

impl KeepError {
    /// The number of the error: that of the journal's error, or 72 for `Unsettled`.
    pub fn code(&self) -> u32
        ensures { result ≡ keep_error_code self.now }
    {
        match self {
            KeepError::Unsettled => fault_code::JOURNAL_FAILED,
            KeepError::Journal(cause) => cause.code(),
        }
    }
}

impl From<JournalError> for KeepError {
    ghost from_gives = { λ cause e. e ≡ Journal cause };

    fn from(cause: JournalError) -> Self {
        KeepError::Journal(cause)
    }
}

impl From<AllocError> for KeepError {
    ghost from_gives = { λ _ e. e ≡ Journal Memory };

    fn from(_: AllocError) -> Self {
        KeepError::Journal(JournalError::Memory)
    }
}
