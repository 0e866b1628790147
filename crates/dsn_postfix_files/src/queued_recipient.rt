//! The recipients of a queue file.
//! Implements docs/postfix-internals.md, "Postfix's queue files".
ghost use Rattle.std.specs.Prelude.{◌≤◌, List, length};
ghost use Rattle.dsn_postfix_files.specs.QueueListing.{QueueEnding};
ghost use Rattle.dsn_postfix_files.specs.inner.QueueReading.{IsLaterPlace, StepsRecipients};
ghost use Rattle.dsn_postfix_files.specs.QueueRecipients.{RecipientFacts, RecipientsLeft, nothing_before};

use crate::queue_reader::next_step;
use crate::queue_step::QueueStep;
use crate::recipient_state::RecipientState;
use crate::said_before::SaidBefore;

/// A recipient of a queue file. An empty text is a missing one. No text is checked or changed.
#[derive(Clone, Copy, Debug)]
pub struct QueuedRecipient<'a> {
    /// The place of the recipient's record in the file, in bytes; an append calls it the offset. No
    /// two recipients of a file that was read in order have the same place, but two may have the
    /// same address.
    pub place: u64,
    /// The recipient as the mail system rewrote it, without quotes.
    pub address: &'a [u8],
    /// The recipient before it was rewritten.
    pub original: &'a [u8],
    /// The recipient as the sender named it (RFC 3461 section 4.2).
    pub dsn_original: &'a [u8],
    /// The outcomes for which the sender requested notices: 1 for never, 2 for success, 4 for
    /// failure, 8 for delay, or a sum of the last three. 0 if they are missing.
    pub notify_flags: u8,
    /// Whether delivery to the recipient is done.
    pub state: RecipientState,
}

/// The next step of a search for recipients. A recipient has the bytes from the next place on, and
/// the number of pointers that may still lead back.
#[derive(Clone, Copy)]
pub(super) enum RecipientStep<'a> {
    /// A recipient.
    Recipient(QueuedRecipient<'a>, &'a [u8], u32),
    /// The last record of the file.
    End,
    /// The file can't be read further.
    Broken,
}

/// The next recipient from a place of a file on.
pub(super) fn next_recipient<'a>(file: &'a [u8], rest: &'a [u8], jumps: u32) -> RecipientStep<'a>
    requires { length rest.now ≤ length file.now }
    ensures listed { (recipients : List RecipientFacts) (ending : QueueEnding)
        → RecipientsLeft (record { file = file.now; place = record { rest = rest.now; jumps = jumps } })
        nothing_before recipients ending
        → StepsRecipients file.now result recipients ending }
    ensures later { IsLaterPlace file.now (record { rest = rest.now; jumps = jumps }) result }
{
    let mut here = rest;
    let mut left = jumps;
    let mut original: &'a [u8] = &[];
    let mut dsn_original: &'a [u8] = &[];
    let mut notify_flags = 0u8;
    loop {
        match next_step(file, here, left) {
            QueueStep::Record(found, after, fewer) => {
                let before = SaidBefore {
                    original,
                    dsn_original,
                    notify_flags,
                };
                if let Some(state) = RecipientState::of_kind(found.kind) {
                    return RecipientStep::Recipient(before.recipient(found, state), after, fewer);
                }
                let later = before.after_record(found);
                original = later.original;
                dsn_original = later.dsn_original;
                notify_flags = later.notify_flags;
                here = after;
                left = fewer;
            }
            QueueStep::End => return RecipientStep::End,
            QueueStep::Broken => return RecipientStep::Broken,
            QueueStep::Pointer(_, _) => unreachable!(),
        }
    }
}
