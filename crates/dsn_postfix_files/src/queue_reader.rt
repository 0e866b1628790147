//! Reads a queue file, one record at a time.
//! Implements docs/postfix-internals.md, "Postfix's queue files".
//! It is stricter than Postfix on damaged files only: a pointer needs a digit, and a length has at
//! most five bytes. It returns records of type `w`, which Postfix skips.
ghost use Rattle.std.specs.Prelude.{◌≡◌, ◌<◌, ◌≤◌, List, length, IfOk, IfSome, MatchOption, MatchResult};
ghost use Rattle.dsn_postfix_files.specs.QueueListing.{RecordsFrom, QueueEnding, ReadsListing};
ghost use Rattle.dsn_postfix_files.specs.QueueRecipients.{ReadsRecipients, RecipientFacts, RecipientsLeft, nothing_before};
ghost use Rattle.dsn_postfix_files.specs.QueueRecord.{PlacedBytes, placed_bytes_in};
ghost use Rattle.dsn_postfix_files.specs.QueueWalk.{BrokenThere, EndThere, RecordThere, StepsTo, first_place, steps_left};
ghost use Rattle.dsn_postfix_files.specs.inner.QueueReading.{IsNextStep, step_in};

use crate::placed_record::PlacedRecord;
use crate::queue_broken::QueueBroken;
use crate::queue_step::{QueueStep, step_at};
use crate::queued_recipient::{QueuedRecipient, RecipientStep, next_recipient};
use std::marker::Model;

/// How many pointers of a file may lead back, as in Postfix.
pub(super) const MOST_JUMPS: u32 = 10_000;

/// Reads the records of a queue file in logical order. It follows pointers and doesn't return them.
/// A pointer leads forward, or is one of at most 10,000 that lead back, so reading ends.
#[derive(Drop)]
pub struct QueueReader<'a> {
    file: &'a [u8],
    rest: &'a [u8],
    jumps: u32,
}

impl<'a> Model for QueueReader<'a> {
    ghost use Rattle.std.specs.Prelude.{length, ◌≤◌};
    ghost use Rattle.dsn_postfix_files.specs.QueueWalk.{QueueReading};

    ghost Value = { QueueReading };

    ghost view = { λ reader. record {
      file = reader.file.now;
      place = record { rest = reader.rest.now; jumps = reader.jumps };
    } };

    ghost invariant = { λ reader. length reader.rest.now ≤ length reader.file.now };
}

impl<'a> QueueReader<'a> {
    /// A reader of a queue file. `file` is the whole file.
    pub fn new(file: &'a [u8]) -> QueueReader<'a>
        ensures { result ≡ record {
          file = file.now;
          place = first_place file.now;
        } }
    {
        QueueReader {
            file,
            rest: file,
            jumps: MOST_JUMPS,
        }
    }

    /// Returns the next record, or `None` at the file's last record. Returns `QueueBroken` if the
    /// file can't be read further. After `None` and after an error, another call returns the same.
    pub fn next_record(&mut self) -> Result<Option<PlacedRecord<'a>>, QueueBroken>
        ensures file { self.new.file ≡ self.old.file }
        ensures found { MatchResult result
            (λ found. MatchOption found
            ((self.new ≡ self.old) × StepsTo self.old.file self.old.place EndThere)
            (λ placed. StepsTo self.old.file self.old.place
            (RecordThere (placed_bytes_in placed) self.new.place)))
            (λ _. (self.new ≡ self.old) × StepsTo self.old.file self.old.place BrokenThere) }
        ensures fewer { IfOk result (λ found. IfSome found (λ _.
            steps_left (length self.old.file) self.new.place
            < steps_left (length self.old.file) self.old.place)) }
        ensures listed { (records : List PlacedBytes) (ending : QueueEnding)
            → RecordsFrom self.old.file self.old.place records ending
            → ReadsListing result records ending self.new }
    {
        match next_step(self.file, self.rest, self.jumps) {
            QueueStep::Record(found, after, jumps) => {
                self.rest = after;
                self.jumps = jumps;
                Ok(Some(found))
            }
            QueueStep::End => Ok(None),
            QueueStep::Broken => Err(QueueBroken),
            QueueStep::Pointer(_, _) => unreachable!(),
        }
    }

    /// Returns the next recipient in any state, or `None` at the file's last record. Returns
    /// `QueueBroken` if the file can't be read further. After `None` and after an error, another
    /// call returns the same.
    ///
    /// Records without facts of a recipient are skipped. The facts before a recipient's record
    /// belong to that recipient only.
    pub fn next_recipient(&mut self) -> Result<Option<QueuedRecipient<'a>>, QueueBroken>
        ensures file { self.new.file ≡ self.old.file }
        ensures stays { MatchResult result
            (λ found. MatchOption found (self.new ≡ self.old) (λ _. Unit {0}))
            (λ _. self.new ≡ self.old) }
        ensures fewer { IfOk result (λ found. IfSome found (λ _.
            steps_left (length self.old.file) self.new.place
            < steps_left (length self.old.file) self.old.place)) }
        ensures listed { (recipients : List RecipientFacts) (ending : QueueEnding)
            → RecipientsLeft self.old nothing_before recipients ending
            → ReadsRecipients result recipients ending self.new }
    {
        match next_recipient(self.file, self.rest, self.jumps) {
            RecipientStep::Recipient(found, place, jumps) => {
                self.rest = place;
                self.jumps = jumps;
                Ok(Some(found))
            }
            RecipientStep::End => Ok(None),
            RecipientStep::Broken => Err(QueueBroken),
        }
    }
}

/// The next step that isn't a pointer.
pub(super) fn next_step<'a>(file: &'a [u8], rest: &'a [u8], jumps: u32) -> QueueStep<'a>
    requires { length rest.now ≤ length file.now }
    ensures steps { StepsTo file.now (record { rest = rest.now; jumps = jumps }) (step_in result) }
    ensures next { IsNextStep file.now (record { rest = rest.now; jumps = jumps }) (step_in result) }
{
    let mut here = rest;
    let mut left = jumps;
    loop {
        match step_at(file, here, left) {
            QueueStep::Pointer(there, fewer) => {
                here = there;
                left = fewer;
            }
            step => return step,
        }
    }
}
