//! Why a frame is refused.
//! Implements noticed-protocol(5).
ghost use Rattle.std.specs.Prelude.{◌≡◌, is_some};
ghost use Rattle.dsn_frame.specs.Refusal.{refusal_code, refusal_end};

use crate::bodies::BodyFault;
use dsn_text::fault_code;
use thiserror::Error;

/// Why a frame is refused.
#[derive(Clone, Copy, Debug, PartialEq, Eq, Error)]
pub enum Refusal {
    /// The body isn't a request, or memory for the request was refused.
    #[error("the body is refused: {0}")]
    Body(BodyFault),
    /// The body is a request, but its number isn't the frame's place.
    #[error("the number is out of turn")]
    OutOfTurn,
}

impl Refusal {
    /// The number of the refusal, as the answer carries it: that of the body's fault, or 46 (out of
    /// turn).
    pub fn code(&self) -> u32
        ensures { result ≡ refusal_code self.now }
    {
        match self {
            Refusal::Body(fault) => fault.code(),
            Refusal::OutOfTurn => fault_code::OUT_OF_TURN,
        }
    }

    /// Whether the session ends after the answer: for `OutOfTurn` alone.
    pub fn ends(&self) -> bool
        ensures { result ≡ is_some (refusal_end self.now) }
    {
        matches!(self, Refusal::OutOfTurn)
    }
}
