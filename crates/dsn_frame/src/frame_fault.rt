//! Why no frame could be read.
//! Implements noticed-protocol(5).
ghost use Rattle.std.specs.Prelude.{◌≡◌};
ghost use Rattle.dsn_frame.specs.FrameFault.{frame_fault_code};

use dsn_text::fault_code;
use thiserror::Error;

/// Why no frame could be read. The source isn't used after it.
#[derive(Clone, Copy, Debug, PartialEq, Eq, Error)]
pub enum FrameFault {
    /// Memory for the body was refused.
    #[error("out of memory")]
    NoMemory,
    /// The frame declares a body of more than 65,536 bytes.
    #[error("the frame is longer than 65,536 bytes")]
    TooLong,
    /// The frame declares a body of 0 bytes.
    #[error("the frame is empty")]
    Empty,
    /// The input ends within the frame.
    #[error("the input ends within a frame")]
    CutShort,
    /// The source failed.
    #[error("the source failed")]
    Read,
}

impl FrameFault {
    /// The number of the fault, as notes name it: 9 (memory), 11 (too long), 12 (empty), 13 (cut
    /// short) or 14 (a failed read).
    pub fn code(&self) -> u32
        ensures { result ≡ frame_fault_code self.now }
    {
        match self {
            FrameFault::NoMemory => fault_code::NO_MEMORY,
            FrameFault::TooLong => fault_code::FRAME_TOO_LONG,
            FrameFault::Empty => fault_code::FRAME_EMPTY,
            FrameFault::CutShort => fault_code::CUT_SHORT,
            FrameFault::Read => fault_code::READ_FAILED,
        }
    }
}
