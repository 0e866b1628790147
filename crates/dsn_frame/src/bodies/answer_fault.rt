//! Why bytes aren't an answer.
//! Implements noticed-protocol(5).
ghost use Rattle.std.specs.Prelude.{◌≡◌};
ghost use Rattle.dsn_frame.specs.bodies.AnswerFault.{answer_fault_code};

use dsn_text::fault_code;
use thiserror::Error;

/// Why an answer's body is refused. The first reason in this order is given.
#[derive(Clone, Copy, Debug, PartialEq, Eq, Error)]
pub enum AnswerFault {
    /// The first byte isn't version 1.
    #[error("the version is unknown")]
    Version,
    /// The second byte isn't 1 to 13.
    #[error("the reply is unknown")]
    Kind,
    /// The body has fewer than 10 bytes.
    #[error("the answer ends before its fields do")]
    Short,
    /// The body has more than 10 bytes. An answer about a notice may have 18.
    #[error("bytes follow the answer")]
    Extra,
    /// The value isn't 0, but the reply has no value.
    #[error("the reply has no value")]
    Value,
}

impl AnswerFault {
    /// The number of the refusal, 21 to 24 or 34, as notes name it.
    pub fn code(&self) -> u32
        ensures { result ≡ answer_fault_code self.now }
    {
        match self {
            AnswerFault::Version => fault_code::VERSION,
            AnswerFault::Kind => fault_code::KIND,
            AnswerFault::Short => fault_code::SHORT,
            AnswerFault::Extra => fault_code::EXTRA,
            AnswerFault::Value => fault_code::ANSWER_VALUE,
        }
    }
}
