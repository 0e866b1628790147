//! What is made of a request's log and file before its first notice is submitted.
ghost use Rattle.std.specs.Prelude.{◌≡◌, IfErr, IfOk, List};
ghost use Rattle.dsn_postfix_files.specs.QueueListing.{QueueEnding, RecordsFrom};
ghost use Rattle.dsn_postfix_files.specs.QueueRecord.{PlacedBytes};
ghost use Rattle.dsn_postfix_files.specs.QueueWalk.{first_place};
ghost use Rattle.dsn_postfix_notices.specs.requests.Heading.{front_of};
ghost use Rattle.dsn_postfix_notices.specs.requests.RequestLetters.{AreLettersAsked, CantBeSaid, places_done};
ghost use Rattle.dsn_postfix_notices.specs.inner.RequestLetters.{IsReason};

use crate::requests::mail_found::MailFound;
use crate::requests::notice_heading::front_of;
use crate::requests::notice_task::NoticeTask;
use crate::requests::places_done::places_done;
use crate::requests::request_letters::letters_asked;
use crate::requests::untold::Untold;
use dsn_outcome::Letter;
use std::alloc::Global;

/// The letters of a request, and which recipients are done after them.
#[derive(Drop)]
pub(super) struct LettersMade {
    /// The letters of all its notices.
    pub(super) letters: Vec<Letter>,
    /// The header fields in front of each notice.
    pub(super) front: Vec<u8>,
    /// The places of the recipients that are marked as done once all letters are accepted.
    pub(super) places: Vec<u64>,
}

/// Makes all letters of what was read, the fields in front of them, and the list of recipients that are done after them.
pub(super) fn make_letters(
    alloc: Global,
    task: &NoticeTask<'_>,
    found: &MailFound,
) -> Result<LettersMade, Untold>
    ensures made { IfOk result (λ made. AreLettersAsked task.now found.now made.letters.items) }
    ensures front { (records : List PlacedBytes) (ending : QueueEnding)
        → RecordsFrom found.now.file (first_place found.now.file) records ending
        → IfOk result (λ made. made.front.items ≡ front_of task.now records) }
    ensures places { IfOk result (λ made. made.places.items
        ≡ places_done task.now found.now.log) }
    ensures none { IfErr result (IsReason (CantBeSaid task.now found.now)) }
{
    let letters = letters_asked(alloc, task, found)?;
    let front = front_of(alloc, task, found)?;
    let places = places_done(alloc, task, found.log())?;
    Ok(LettersMade {
        letters,
        front,
        places,
    })
}
