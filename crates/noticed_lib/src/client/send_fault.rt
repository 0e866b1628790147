//! Why a send ended before its input was answered.
ghost use Rattle.std.specs.Prelude.{◌≡◌};
ghost use Rattle.noticed_lib.specs.client.SendFault.{send_fault_code};

use dsn_frame::{AnswerFault, FrameFault};
use dsn_text::fault_code;
use thiserror::Error;

/// Why a send ended before its input was answered to its end.
#[derive(Clone, Copy, Debug, PartialEq, Eq, Error)]
pub enum SendFault {
    /// The next frame of the input could not be read, or there was no memory to write it.
    #[error("no frame could be read: {0}")]
    Input(FrameFault),
    /// The input has one frame more than may be sent.
    #[error("there are too many frames")]
    TooMany,
    /// A frame could not be written to the daemon.
    #[error("a frame could not be sent")]
    NotSent,
    /// The daemon's bytes ended before an answer's first one.
    #[error("no answer came")]
    Unanswered,
    /// An answer's frame could not be read.
    #[error("no answer could be read: {0}")]
    AnswerFrame(FrameFault),
    /// The body of an answer's frame is no answer.
    #[error("an answer is faulty: {0}")]
    Answer(AnswerFault),
    /// An answer is to another place than the frame's.
    #[error("an answer is out of turn")]
    OutOfTurn,
    /// The line of an answer could not be written.
    #[error("a line could not be written")]
    NotesLost,
}

impl SendFault {
    /// The number of the fault: that of the fault inside, 33, 35, 46, 47 or 48.
    pub fn code(&self) -> u32
        ensures { result ≡ send_fault_code self.now }
    {
        match self {
            SendFault::Input(fault) => fault.code(),
            SendFault::TooMany => fault_code::TOO_MANY_FRAMES,
            SendFault::NotSent => fault_code::CONNECTION_WRITE,
            SendFault::Unanswered => fault_code::UNANSWERED,
            SendFault::AnswerFrame(fault) => fault.code(),
            SendFault::Answer(fault) => fault.code(),
            SendFault::OutOfTurn => fault_code::OUT_OF_TURN,
            SendFault::NotesLost => fault_code::NOTES_WRITE,
        }
    }
}
