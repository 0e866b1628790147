//! The faults of a call that no request to a daemon has: they are replies there.
ghost use Rattle.std.specs.Prelude.{◌≡◌};
ghost use Rattle.noticed_dsn.specs.Calls.{library_words};

use dsn_text::fault_words;

/// The frames are not the appends of one log, 1,000 at most, and then its flush.
pub(crate) const NOT_ONE_LOG: u32 = 101;
/// The flush comes without an append before it.
pub(crate) const EMPTY_LOG: u32 = 102;
/// The flush expects another number of outcomes.
pub(crate) const OTHER_COUNT: u32 = 103;
/// The return path is null, so no notice may be sent.
pub(crate) const NULL_RETURN_PATH: u32 = 104;

/// The words of a fault's number; the empty text if there is no such fault.
pub(crate) fn library_words(code: u32) -> &'static str
    ensures { result.now ≡ library_words code }
{
    match code {
        NOT_ONE_LOG => "the frames are not the appends of one log and then its flush",
        EMPTY_LOG => "the log is empty",
        OTHER_COUNT => "the flush expects another number of outcomes",
        NULL_RETURN_PATH => "the return path is null",
        _ => fault_words(code),
    }
}
