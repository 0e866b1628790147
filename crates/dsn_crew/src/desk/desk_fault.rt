//! Why a collector stopped.
ghost use Rattle.std.specs.Prelude.{◌≡◌, Err};
ghost use Rattle.dsn_text.specs.FaultCode.{lane_lost_code};
ghost use Rattle.dsn_book.specs.Step.{letters_in};
ghost use Rattle.dsn_crew.specs.desk.Desk.{letter_kept};

use dsn_outcome::Letter;
use dsn_text::fault_code;

/// Why a collector stopped, with the letter that was sealed and not passed to the sink.
#[derive(Drop)]
pub enum DeskFault {
    /// The agents are gone, the collector failed before, 4,294,967,295 requests were carried out, or
    /// requests were not kept.
    Requests,
    /// This agent is gone, and its answer is lost; with the letter that the answer speaks of.
    Answers(u32, Option<Letter>),
    /// The sink is gone, or takes no more letters.
    Letters(Letter),
}

impl DeskFault {
    /// The letter that was sealed and not passed to the sink, if there is one.
    pub fn into_letter(self) -> Option<Letter>
        ensures { letters_in result ≡ letter_kept (Err self) }
    {
        match self {
            DeskFault::Requests => None,
            DeskFault::Answers(_, letter) => letter,
            DeskFault::Letters(letter) => Some(letter),
        }
    }

    /// The number of the fault, 41.
    pub fn code(&self) -> u32
        ensures { result ≡ lane_lost_code }
    {
        fault_code::LANE_LOST
    }
}
