//! A letter as it is submitted: with the mail system that its notice is from.
ghost use Rattle.std.specs.Prelude.{◌≡◌};

use dsn_outcome::Letter;
use dsn_report::{Site, mail_data};
use dsn_submission::Mail;
use dsn_text::{Address, NoMemory};
use std::marker::Model;

/// A letter, and the mail system that its notice is from.
#[derive(Drop)]
pub struct SitedLetter<'s> {
    /// The mail system.
    pub site: &'s Site,
    /// The letter.
    pub letter: Letter,
}

impl<'s> Model for SitedLetter<'s> {
    ghost use Rattle.dsn_hand_in.specs.SitedLetter.{SitedLetter};

    ghost Value = { SitedLetter };

    ghost view = { λ s. record { site = s.site.now; letter = s.letter } };
}

impl<'s> SitedLetter<'s> {
    /// The letter with this mail system.
    pub fn new(site: &'s Site, letter: Letter) -> SitedLetter<'s>
        ensures { result ≡ record { site = site.now; letter = letter } }
    {
        SitedLetter { site, letter }
    }

    /// The letter.
    pub fn letter(&self) -> &Letter
        ensures { result.now ≡ self.now.letter }
    {
        &self.letter
    }
}

/// Its recipient is the letter's return path, and its message is the letter's notice.
impl Mail for SitedLetter<'_> {
    ghost use Rattle.dsn_hand_in.specs.SitedLetter.{sited_message, sited_path};

    ghost path_of = { sited_path };

    ghost message_of = { sited_message };

    fn path(&self) -> &Address {
        self.letter.return_path()
    }

    fn write_message(&self, text: &mut Vec<u8>) -> Result<(), NoMemory> {
        let data = mail_data(*text.allocator(), self.site, &self.letter)?;
        match text.extend_from_slice(&data) {
            Ok(()) => Ok(()),
            Err(_) => Err(NoMemory),
        }
    }
}
