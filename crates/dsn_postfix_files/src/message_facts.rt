//! The facts of a message in its queue file, except those of its recipients.
//! Implements docs/postfix-internals.md, "Postfix's queue files".
ghost use Rattle.std.specs.Prelude.{◌≡◌, List};
ghost use Rattle.std.specs.List.{before_first};
ghost use Rattle.std.specs.Option.{option_map};
ghost use Rattle.dsn_postfix_files.specs.LogLine.{is_space};
ghost use Rattle.dsn_postfix_files.specs.MessageFacts.{ReadsMessage, arrival_in, message_facts_in, message_id_in, return_flags_in, said_as, sender_in};
ghost use Rattle.dsn_postfix_files.specs.inner.QueueReading.{with_record};
ghost use Rattle.dsn_postfix_files.specs.QueueListing.{QueueEnding, RecordsFrom};
ghost use Rattle.dsn_postfix_files.specs.QueueRecord.{PlacedBytes, placed_bytes_in};
ghost use Rattle.dsn_postfix_files.specs.QueueWalk.{first_place};

use crate::broken_message::BrokenMessage;
use crate::log_line::{first_byte, value_named};
use crate::log_record::written_number;
use crate::placed_record::PlacedRecord;
use crate::queue_reader::{MOST_JUMPS, next_step};
use crate::queue_step::QueueStep;

/// The facts of a message in the records of its queue file. No text is checked or changed.
#[derive(Clone, Copy, Debug)]
pub struct MessageFacts<'a> {
    /// When the message arrived, in seconds since 1970.
    pub arrival: Option<u64>,
    /// The sender, without quotes; empty for a notice, which has no sender.
    pub sender: Option<&'a [u8]>,
    /// The sender's envelope id (RFC 3461 section 4.4).
    pub envelope_id: Option<&'a [u8]>,
    /// The part of the message that the sender wants returned: 1 the whole message, 2 its header
    /// (RFC 3461 section 4.3).
    pub return_flags: Option<u8>,
    /// The Message-ID that cleanup(8) of Postfix 3.10 found in the header, in angle brackets.
    pub message_id: Option<&'a [u8]>,
}

/// A text up to its first space.
fn before_space(text: &[u8]) -> &[u8]
    ensures { result.now ≡ before_first is_space text.now }
{
    &text[..first_byte(text, b' ')]
}

/// The text of a record that has a type of its own, or is an attribute with a name.
fn said_as<'a>(kind: u8, name: &[u8], found: PlacedRecord<'a>) -> Option<&'a [u8]>
    ensures { option_map (λ text. text.now) result
        ≡ said_as kind name.now (placed_bytes_in found.entry) }
{
    if found.kind == kind {
        return Some(found.bytes);
    }
    if found.kind == b'A' {
        return value_named(name, found.bytes);
    }
    None
}

/// The arrival in a record, in seconds since 1970.
fn arrival_in(found: PlacedRecord<'_>) -> Option<u64>
    ensures { result ≡ arrival_in (placed_bytes_in found.entry) }
{
    if found.kind != b'T' {
        return None;
    }
    match written_number(before_space(found.bytes)) {
        Some(seconds) if seconds != 0 => Some(seconds),
        _ => None,
    }
}

/// The sender in a record.
fn sender_in<'a>(found: PlacedRecord<'a>) -> Option<&'a [u8]>
    ensures { option_map (λ text. text.now) result ≡ sender_in (placed_bytes_in found.entry) }
{
    if found.kind == b'S' {
        Some(found.bytes)
    } else {
        None
    }
}

/// The Message-ID in a record.
fn message_id_in<'a>(found: PlacedRecord<'a>) -> Option<&'a [u8]>
    ensures { option_map (λ text. text.now) result ≡ message_id_in (placed_bytes_in found.entry) }
{
    if found.kind == b'A' {
        value_named(b"message_id", found.bytes)
    } else {
        None
    }
}

/// The part to be returned in a record.
fn return_flags_in(found: PlacedRecord<'_>) -> Option<u8>
    ensures { result ≡ return_flags_in (placed_bytes_in found.entry) }
{
    match written_number(said_as(b'<', b"ret_flags", found)?) {
        Some(number) if number == 1 || number == 2 => Some(number as u8),
        _ => None,
    }
}

impl<'a> MessageFacts<'a> {
    /// These facts and those of one more record.
    #[tactic(auto, unfolding(crate::specs::inner::QueueReading::with_record))]
    fn with_record(self, found: PlacedRecord<'a>) -> MessageFacts<'a>
        ensures { message_facts_in result
            ≡ with_record (message_facts_in self.entry) (placed_bytes_in found.entry) }
    {
        let envelope_id = said_as(b'i', b"envelope_id", found);
        MessageFacts {
            arrival: self.arrival.or(arrival_in(found)),
            sender: self.sender.or(sender_in(found)),
            envelope_id: envelope_id.or(self.envelope_id),
            return_flags: return_flags_in(found).or(self.return_flags),
            message_id: self.message_id.or(message_id_in(found)),
        }
    }

    /// Returns the facts of a message in all records of its queue file. `file` is the whole file.
    /// If the file can't be read to its last record, returns [`BrokenMessage`] with the facts
    /// before the break.
    pub fn read(file: &'a [u8]) -> Result<MessageFacts<'a>, BrokenMessage<'a>>
        ensures { (records : List PlacedBytes) (ending : QueueEnding)
            → RecordsFrom file.now (first_place file.now) records ending
            → ReadsMessage result records ending }
    {
        let mut here = file;
        let mut left = MOST_JUMPS;
        let mut arrival = None;
        let mut sender: Option<&'a [u8]> = None;
        let mut envelope_id: Option<&'a [u8]> = None;
        let mut return_flags = None;
        let mut message_id: Option<&'a [u8]> = None;
        loop {
            let facts = MessageFacts {
                arrival,
                sender,
                envelope_id,
                return_flags,
                message_id,
            };
            match next_step(file, here, left) {
                QueueStep::Record(found, after, fewer) => {
                    let more = facts.with_record(found);
                    arrival = more.arrival;
                    sender = more.sender;
                    envelope_id = more.envelope_id;
                    return_flags = more.return_flags;
                    message_id = more.message_id;
                    here = after;
                    left = fewer;
                }
                QueueStep::End => return Ok(facts),
                QueueStep::Broken => return Err(BrokenMessage { before: facts }),
                QueueStep::Pointer(_, _) => unreachable!(),
            }
        }
    }
}
