//! Why a letter was not posted.
ghost use Rattle.std.specs.Prelude.{◌≡◌};
ghost use Rattle.dsn_report.specs.Poster.{letter_handed_back, post_fault_code};

use dsn_outcome::Letter;
use dsn_text::fault_code;

/// Why a letter was not posted, with the letter.
#[derive(Drop)]
pub enum PostFault {
    /// The outbox failed in this call. A front of the letter's text may be written.
    Write(Letter),
    /// The outbox failed before. Nothing is written.
    Failed(Letter),
}

impl PostFault {
    /// The number of the fault: 31 for `Write`, 32 for `Failed`. The program never reports 32.
    pub fn code(&self) -> u32
        ensures { result ≡ post_fault_code self.now }
    {
        match self {
            PostFault::Write(_) => fault_code::OUTBOX_WRITE,
            PostFault::Failed(_) => fault_code::OUTBOX_FAILED,
        }
    }

    /// The letter that was not posted.
    pub fn into_letter(self) -> Letter
        ensures { result ≡ letter_handed_back self }
    {
        match self {
            PostFault::Write(letter) => letter,
            PostFault::Failed(letter) => letter,
        }
    }
}
