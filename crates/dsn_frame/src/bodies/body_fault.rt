//! Why a body is refused.
//! Implements noticed-protocol(5).
ghost use Rattle.std.specs.Prelude.{◌≡◌};
ghost use Rattle.dsn_frame.specs.bodies.BodyFault.{body_fault_code};

use dsn_outcome::{DraftFault, OutcomeFault};
use dsn_text::fault_code;
use thiserror::Error;

/// Why a body is refused. The first reason in this order is given.
#[derive(Clone, Copy, Debug, PartialEq, Eq, Error)]
pub enum BodyFault {
    /// The version is unknown.
    #[error("the version is unknown")]
    Version,
    /// The kind is unknown.
    #[error("the kind is unknown")]
    Kind,
    /// The body ends before its fields do.
    #[error("the body ends before its fields do")]
    Short,
    /// Bytes follow the last field.
    #[error("bytes follow the last field")]
    Extra,
    /// The service is unknown.
    #[error("the service is unknown")]
    Service,
    /// The queue id is malformed.
    #[error("the queue id is malformed")]
    QueueId,
    /// A moment of a flush or of an append is after the year 9999.
    #[error("a moment is after the year 9999")]
    Moment,
    /// The outcome of an append is refused.
    #[error("the outcome is refused")]
    Outcome(OutcomeFault),
    /// The returned header of a flush has more than 32,768 bytes.
    #[error("the returned header has more than 32,768 bytes")]
    Header,
    /// The return path of a flush is neither empty nor an address.
    #[error("the return path is neither empty nor an address")]
    ReturnPath,
    /// The envelope id of a flush is neither empty nor 1 to 100 printable bytes.
    #[error("the envelope id is neither empty nor 1 to 100 printable bytes")]
    EnvelopeId,
    /// It is unknown whether the header field of a flush holds the header or the message.
    #[error("it is unknown whether the header field holds the header or the message")]
    Returned,
    /// The wording of a flush's notice is unknown.
    #[error("the wording of the notice is unknown")]
    Wording,
    /// The extension fields of a flush are malformed. They must be empty, or 1 to 8 lines of a name
    /// that begins with `X-` and a value, each ended by LF alone.
    #[error("the extension fields of the message are malformed")]
    Extensions,
    /// Memory for the request was refused.
    #[error("out of memory")]
    NoMemory,
}

impl BodyFault {
    /// The number of the refusal, 1 to 10 or 15 to 30, as an answer carries it.
    pub fn code(&self) -> u32
        ensures { result ≡ body_fault_code self.now }
    {
        match self {
            BodyFault::Version => fault_code::VERSION,
            BodyFault::Kind => fault_code::KIND,
            BodyFault::Short => fault_code::SHORT,
            BodyFault::Extra => fault_code::EXTRA,
            BodyFault::Service => fault_code::SERVICE,
            BodyFault::QueueId => fault_code::QUEUE_ID,
            BodyFault::Moment => fault_code::MOMENT,
            BodyFault::Outcome(fault) => fault.code(),
            BodyFault::Header => fault_code::LONG_HEADER,
            BodyFault::ReturnPath => fault_code::RETURN_PATH,
            BodyFault::EnvelopeId => fault_code::ENVELOPE_ID,
            BodyFault::Returned => fault_code::RETURNED,
            BodyFault::Wording => fault_code::WORDING,
            BodyFault::Extensions => fault_code::EXTENSION,
            BodyFault::NoMemory => fault_code::NO_MEMORY,
        }
    }
}

impl From<OutcomeFault> for BodyFault {
    ghost use Rattle.dsn_frame.specs.bodies.BodyFault.{outcome_refusal};

    ghost from_gives = { λ fault refusal. refusal ≡ outcome_refusal fault };

    fn from(fault: OutcomeFault) -> BodyFault {
        match fault {
            OutcomeFault::NoMemory => BodyFault::NoMemory,
            fault => BodyFault::Outcome(fault),
        }
    }
}

impl From<DraftFault> for BodyFault {
    ghost use Rattle.dsn_frame.specs.bodies.BodyFault.{draft_refusal};

    ghost from_gives = { λ fault refusal. refusal ≡ draft_refusal fault };

    fn from(fault: DraftFault) -> BodyFault {
        match fault {
            DraftFault::Header => BodyFault::Header,
            DraftFault::ReturnPath => BodyFault::ReturnPath,
            DraftFault::EnvelopeId => BodyFault::EnvelopeId,
            DraftFault::Returned => BodyFault::Returned,
            DraftFault::Wording => BodyFault::Wording,
            DraftFault::Extensions => BodyFault::Extensions,
            DraftFault::NoMemory => BodyFault::NoMemory,
        }
    }
}
