//! Why a journal's folder was not listed.
ghost use Rattle.std.specs.Prelude.{◌≡◌};
ghost use Rattle.dsn_listing.specs.ListingFault.{listing_fault_code};
ghost use Rattle.dsn_listing.specs.declared.listing_fault.ListingFault.TheVariants as fault;

use dsn_journal::MarksError;
use dsn_ledger::LedgerError;
use dsn_outcome::NoMemory;
use dsn_text::fault_code;
use thiserror::Error;

/// Why the listing of a journal's folder is not complete.
#[derive(Clone, Copy, Debug, PartialEq, Eq, Error)]
pub enum ListingFault {
    /// The marks could not be read, or are not valid.
    #[error("{0}")]
    Marks(MarksError),
    /// The journal could not be read, is not valid, or doesn't belong to the marks.
    #[error("{0}")]
    Journal(LedgerError),
    /// There is no memory for the lists of logs and keys.
    #[error("no memory for the list")]
    NoMemory,
    /// A line could not be written or flushed.
    #[error("a line could not be written")]
    NotWritten,
}

impl ListingFault {
    /// The number of the fault: 9, 33, or 71 to 77.
    pub fn code(&self) -> u32
        ensures { result ≡ listing_fault_code self.now }
    {
        match self {
            ListingFault::Marks(cause) => cause.code(),
            ListingFault::Journal(cause) => cause.code(),
            ListingFault::NoMemory => fault_code::NO_MEMORY,
            ListingFault::NotWritten => fault_code::NOTES_WRITE,
        }
    }
}

impl From<MarksError> for ListingFault {
    ghost from_gives = { λ cause e. e ≡ fault.Marks cause };

    fn from(cause: MarksError) -> Self {
        ListingFault::Marks(cause)
    }
}

impl From<LedgerError> for ListingFault {
    ghost from_gives = { λ cause e. e ≡ fault.Journal cause };

    fn from(cause: LedgerError) -> Self {
        ListingFault::Journal(cause)
    }
}

impl From<NoMemory> for ListingFault {
    ghost from_gives = { λ _ e. e ≡ fault.NoMemory };

    fn from(_: NoMemory) -> Self {
        ListingFault::NoMemory
    }
}
