//! Why a session ended before its input did.
//! Implements noticed-protocol(5).
ghost use Rattle.std.specs.Prelude.{◌≡◌};
ghost use Rattle.dsn_frame.specs.ServeFault.{serve_fault_code};
ghost use Rattle.dsn_frame.specs.Session.{Connection};

use crate::frame_fault::FrameFault;
use dsn_text::fault_code;
use thiserror::Error;

/// Why a session ended before its input did.
#[derive(Clone, Copy, Debug, PartialEq, Eq, Error)]
pub enum ServeFault {
    /// The next frame could not be read.
    #[error("no frame could be read: {0}")]
    Frame(FrameFault),
    /// An answer could not be written.
    #[error("an answer could not be written")]
    WriteBack,
    /// The number of a frame's request was out of turn. The frame was answered.
    #[error("a number is out of turn")]
    Number,
    /// There was a frame beyond the limit.
    #[error("there are too many frames")]
    Frames,
    /// The collector is gone.
    #[error("the collector is gone")]
    Lost,
}

impl ServeFault {
    /// The number of the fault on a connection: that of the frame's fault, 35 (unwritten answer),
    /// 46 (out of turn), 47 (too many frames) or 41 (collector gone).
    pub fn code(&self) -> u32
        ensures { result ≡ serve_fault_code Connection self.now }
    {
        match self {
            ServeFault::Frame(fault) => fault.code(),
            ServeFault::WriteBack => fault_code::CONNECTION_WRITE,
            ServeFault::Number => fault_code::OUT_OF_TURN,
            ServeFault::Frames => fault_code::TOO_MANY_FRAMES,
            ServeFault::Lost => fault_code::LANE_LOST,
        }
    }
}
