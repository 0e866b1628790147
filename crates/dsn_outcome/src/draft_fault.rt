//! Why the fields of a draft are refused.
//! Implements noticed-protocol(5).
ghost use Rattle.std.specs.Prelude.{◌≡◌};

use dsn_text::NoMemory;
use thiserror::Error;

/// Why the fields of a draft are refused. If several faults apply, the first in this order is
/// returned.
#[derive(Clone, Copy, Debug, PartialEq, Eq, Error)]
pub enum DraftFault {
    /// The header has more than 32,768 bytes.
    #[error("the header has more than 32,768 bytes")]
    Header,
    /// The return path is neither empty nor an address.
    #[error("the return path is neither empty nor an address")]
    ReturnPath,
    /// The envelope id is neither empty nor 1 to 100 printable bytes.
    #[error("the envelope id is neither empty nor 1 to 100 printable bytes")]
    EnvelopeId,
    /// The byte that says what the header field holds means neither header nor message.
    #[error("it is unknown whether the header field holds the header or the message")]
    Returned,
    /// The wording is unknown.
    #[error("the wording of the notice is unknown")]
    Wording,
    /// The extension fields are neither empty nor 1 to 8 valid lines. A valid line has a name that
    /// begins with `X-` and a value, and ends with LF alone.
    #[error("the extension fields of the message are malformed")]
    Extensions,
    /// Memory for the draft was refused.
    #[error("out of memory")]
    NoMemory,
}

impl From<NoMemory> for DraftFault {
    ghost use Rattle.dsn_outcome.specs.declared.draft_fault.DraftFault.{DraftFault};

    ghost from_gives = { λ _ refusal. refusal ≡ DraftFault.NoMemory };

    fn from(_: NoMemory) -> DraftFault {
        DraftFault::NoMemory
    }
}
