//! Why an outcome is refused.
//! Implements noticed-protocol(5).
ghost use Rattle.std.specs.Prelude.{◌≡◌};
ghost use Rattle.dsn_outcome.specs.OutcomeFault.{outcome_fault_code};

use dsn_text::fault_code;
use thiserror::Error;

/// Why an outcome is refused. If several faults apply, the first in this order is returned.
#[derive(Clone, Copy, Debug, PartialEq, Eq, Error)]
pub enum OutcomeFault {
    /// The recipient is not a valid address.
    #[error("the recipient is no address")]
    BadRecipient,
    /// The original recipient is neither empty nor a valid address.
    #[error("the original recipient is neither empty nor an address")]
    BadOriginal,
    /// The action is unknown, or the service's log doesn't take it.
    #[error("the action is unknown, or the service does not take it")]
    BadAction,
    /// The status is not a valid status code.
    #[error("the status is no status code")]
    BadStatus,
    /// The class of the status doesn't fit the action.
    #[error("the class of the status does not stand with the action")]
    StatusClass,
    /// The remote system's name is neither empty nor a valid name.
    #[error("the remote system's name is neither empty nor a name")]
    BadMta,
    /// The diagnostic has more than 800 bytes.
    #[error("the diagnostic has more than 800 bytes")]
    LongDiagnostic,
    /// The reason has more than 800 bytes.
    #[error("the reason has more than 800 bytes")]
    LongReason,
    /// A time until which delivery is retried is given for a recipient that isn't delayed.
    #[error("only a delayed recipient is tried again")]
    RetryUntil,
    /// The type of the recipient is neither empty nor a valid type name.
    #[error("the type of the recipient is neither empty nor the name of a type")]
    RecipientType,
    /// The type of the original recipient isn't empty, and it isn't a valid type name or there is
    /// no original recipient.
    #[error("the type of the original recipient is malformed, or there is no original recipient")]
    OriginalType,
    /// The type of the diagnostic isn't empty, and it isn't a valid type name or there is no
    /// diagnostic.
    #[error("the type of the diagnostic is malformed, or there is no diagnostic")]
    DiagnosticType,
    /// The extension fields are neither empty nor valid lines.
    #[error("the extension fields are no lines of a name that begins with X- and a value")]
    Extension,
    /// Memory for the outcome was refused.
    #[error("out of memory")]
    NoMemory,
}

impl OutcomeFault {
    /// The number of the fault in an answer: 1 to 10, 15 to 17, or 20.
    pub fn code(&self) -> u32
        ensures { result ≡ outcome_fault_code self.now }
    {
        match self {
            OutcomeFault::BadRecipient => fault_code::BAD_RECIPIENT,
            OutcomeFault::BadOriginal => fault_code::BAD_ORIGINAL,
            OutcomeFault::BadAction => fault_code::BAD_ACTION,
            OutcomeFault::BadStatus => fault_code::BAD_STATUS,
            OutcomeFault::StatusClass => fault_code::STATUS_CLASS,
            OutcomeFault::BadMta => fault_code::BAD_MTA,
            OutcomeFault::LongDiagnostic => fault_code::LONG_DIAGNOSTIC,
            OutcomeFault::LongReason => fault_code::LONG_REASON,
            OutcomeFault::RetryUntil => fault_code::RETRY_UNTIL,
            OutcomeFault::RecipientType => fault_code::RECIPIENT_TYPE,
            OutcomeFault::OriginalType => fault_code::ORIGINAL_TYPE,
            OutcomeFault::DiagnosticType => fault_code::DIAGNOSTIC_TYPE,
            OutcomeFault::Extension => fault_code::EXTENSION,
            OutcomeFault::NoMemory => fault_code::NO_MEMORY,
        }
    }
}
