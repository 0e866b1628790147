//! The text of a queue file's message: its header, an empty line and its body.
//! Implements docs/postfix-internals.md, "Postfix's queue files".
ghost use Rattle.std.specs.Prelude.{◌≡◌, ◌++◌, ◌-◌, List, IfOk, OnOk, length, take};
ghost use Rattle.dsn_postfix_files.specs.MessageText.{is_of_text, message_text, text_of_record};
ghost use Rattle.dsn_postfix_files.specs.QueueListing.{QueueEnding, RecordsFrom};
ghost use Rattle.dsn_postfix_files.specs.QueueRecord.{PlacedBytes, placed_bytes_in};
ghost use Rattle.dsn_postfix_files.specs.QueueWalk.{first_place};

use crate::placed_record::PlacedRecord;
use crate::queue_reader::{MOST_JUMPS, next_step};
use crate::queue_step::QueueStep;
use std::alloc::{AllocError, Global};

/// Whether the type of a record is one of the message's text.
fn is_of_text(kind: u8) -> bool
    ensures { result ≡ is_of_text kind }
{
    kind == b'N' || kind == b'L' || kind == b'w'
}

/// Appends the bytes, cut so that the text has at most `limit` bytes. Returns `AllocError` if
/// memory was refused.
fn push_within(text: &mut Vec<u8>, bytes: &[u8], limit: usize) -> Result<(), AllocError>
    ensures { OnOk result (text.new.items
        ≡ text.old.items ++ take (limit - length text.old.items) bytes.now) }
{
    let room = limit.saturating_sub(text.len());
    if bytes.len() <= room {
        text.extend_from_slice(bytes)
    } else {
        text.extend_from_slice(&bytes[..room])
    }
}

/// Appends the text of a record, cut so that the text has at most `limit` bytes. Returns
/// `AllocError` if memory was refused.
#[tactic(auto, using(crate::proofs::MessageTextLemmas::line_within))]
fn push_text(text: &mut Vec<u8>, found: PlacedRecord<'_>, limit: usize) -> Result<(), AllocError>
    ensures { OnOk result (text.new.items ≡ text.old.items
        ++ take (limit - length text.old.items) (text_of_record (placed_bytes_in found.entry))) }
{
    if found.kind == b'N' {
        push_within(text, found.bytes, limit)?;
        push_within(text, b"\n", limit)?;
    } else if found.kind == b'L' {
        push_within(text, found.bytes, limit)?;
    }
    Ok(())
}

/// Returns the front of the text of a queue file's message, at most `limit` bytes. Each line ends
/// with a line feed. `file` is the whole file.
///
/// The text begins after the first record of type `M`. It ends before the first later record that
/// isn't of the text, or where the file can't be read further. No record is read after the limit is
/// reached. Returns `AllocError` only if memory was refused.
pub fn text_of_message(alloc: Global, file: &[u8], limit: usize) -> Result<Vec<u8>, AllocError>
    ensures { (records : List PlacedBytes) (ending : QueueEnding)
        → RecordsFrom file.now (first_place file.now) records ending
        → IfOk result (λ text. text.items ≡ take limit (message_text records)) }
{
    let mut text = Vec::new(alloc);
    let mut here = file;
    let mut left = MOST_JUMPS;
    let mut within = false;
    loop {
        match next_step(file, here, left) {
            QueueStep::Record(found, after, fewer) => {
                if within {
                    if !is_of_text(found.kind) {
                        return Ok(text);
                    }
                    push_text(&mut text, found, limit)?;
                    if text.len() >= limit {
                        return Ok(text);
                    }
                } else {
                    within = found.kind == b'M';
                }
                here = after;
                left = fewer;
            }
            QueueStep::End => return Ok(text),
            QueueStep::Broken => return Ok(text),
            QueueStep::Pointer(_, _) => unreachable!(),
        }
    }
}
