//! Why a ledger was not opened.
ghost use Rattle.std.specs.Prelude.{◌≡◌};
ghost use Rattle.dsn_ledger.specs.LedgerError.{ledger_error_code};
ghost use Rattle.dsn_journal.specs.declared.journal_error.JournalError.TheVariants.{Memory};
ghost use Rattle.dsn_ledger.specs.declared.ledger_error.LedgerError.TheVariants.{Journal};

use dsn_journal::JournalError;
use dsn_text::{NoMemory, fault_code};
use std::alloc::AllocError;
use thiserror::Error;

/// Why a ledger was not opened.
#[derive(Clone, Copy, Debug, PartialEq, Eq, Error)]
pub enum LedgerError {
    /// Its journal was not read or written, has no room for the header, or there is no memory.
    #[error("{0}")]
    Journal(JournalError),
    /// It has no record, and bytes other than zeros and those of a header under these limits. It
    /// isn't a ledger's file, or its first bytes were lost.
    #[error("the file isn't a journal's")]
    Foreign,
    /// Its first record isn't the header of this version under these limits.
    #[error("the journal is of another version, or was kept under other limits")]
    OtherHeader,
    /// A record after the header keeps no body.
    #[error("a record of the journal is damaged")]
    Damaged,
    /// Behind the first byte that was never written there are more records than a crash leaves of
    /// one write. So a written byte was lost.
    #[error("a byte among the journal's records was lost")]
    ByteLost,
    /// The mark counts more letters than the journal's base and records do. It belongs to another
    /// journal, or the journal is older than its marks.
    #[error("the mark counts more letters than the journal sealed")]
    MarkAhead,
    /// The mark counts fewer letters than the journal's base. The marks are older than the journal,
    /// or belong to another one.
    #[error("the mark counts fewer letters than the journal's base")]
    MarkBehind,
}

impl LedgerError {
    /// The number of the error: that of the journal's error, or 73 to 77.
    pub fn code(&self) -> u32
        ensures { result ≡ ledger_error_code self.now }
    {
        match self {
            LedgerError::Journal(cause) => cause.code(),
            LedgerError::Foreign => fault_code::JOURNAL_FOREIGN,
            LedgerError::OtherHeader => fault_code::JOURNAL_HEADER,
            LedgerError::Damaged | LedgerError::ByteLost => fault_code::JOURNAL_DAMAGED,
            LedgerError::MarkAhead => fault_code::MARK_AHEAD,
            LedgerError::MarkBehind => fault_code::MARK_BEHIND,
        }
    }
}

impl From<JournalError> for LedgerError {
    ghost from_gives = { λ cause e. e ≡ Journal cause };

    fn from(cause: JournalError) -> Self {
        LedgerError::Journal(cause)
    }
}

impl From<AllocError> for LedgerError {
    ghost from_gives = { λ _ e. e ≡ Journal Memory };

    fn from(_: AllocError) -> Self {
        LedgerError::Journal(JournalError::Memory)
    }
}

impl From<NoMemory> for LedgerError {
    ghost from_gives = { λ _ e. e ≡ Journal Memory };

    fn from(_: NoMemory) -> Self {
        LedgerError::Journal(JournalError::Memory)
    }
}

/// A disk whose ledger was not opened.
#[derive(Drop)]
pub struct LedgerNotOpened<D> {
    /// The disk.
    pub disk: D,
    /// Why the ledger was not opened.
    pub cause: LedgerError,
}
