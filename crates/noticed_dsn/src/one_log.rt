//! The letter of one log, read from its frames.
ghost use Rattle.std.specs.Prelude.{◌≡◌, Some, All, IfOk, IfErr, length};
ghost use Rattle.dsn_outcome.specs.Draft.{differs};
ghost use Rattle.noticed_dsn.specs.Log.{IsLetterIn, IsRefused, lack_of};

use crate::log_fault::{EMPTY_LOG, NOT_ONE_LOG, NULL_RETURN_PATH, OTHER_COUNT};
use crate::memory_source::MemorySource;
use crate::next_request::{continues_log, read_request};
use dsn_frame::FrameBuffer;
use dsn_outcome::{Body, Chain, Draft, Key, Letter, MOST_OUTCOMES};
use std::alloc::Global;

/// Returns the letter of the log whose appends and flush are these frames, with this serial. Returns
/// the number of the first fault if they are not.
pub(crate) fn read_letter(alloc: Global, frames: &[u8], serial: u64) -> Result<Letter, u32>
    ensures letter { IfOk result (IsLetterIn frames.now serial) }
    ensures refused { IfErr result (IsRefused frames.now) }
{
    let mut source = MemorySource { rest: frames };
    let mut buffer = FrameBuffer::new(alloc);
    let mut log = Chain::new();
    let mut key = None;
    for place in 0..MOST_OUTCOMES + 1 {
        let body = read_request(alloc, place, &mut source, &mut buffer)?;
        if !continues_log(place, key, source.rest, &body) {
            return Err(NOT_ONE_LOG);
        }
        key = body.key();
        match body {
            Body::Append(_, node) => log.push(node),
            Body::Flush(key, draft) => return seal(key, draft, log, serial),
            _ => return Err(NOT_ONE_LOG),
        }
    }
    Err(NOT_ONE_LOG)
}

/// Seals a log. Returns the number of the fault if there is no letter of it.
fn seal(key: Key, draft: Draft, log: Chain, serial: u64) -> Result<Letter, u32>
    requires of_service { All (λ outcome. outcome.service ≡ key.service) log }
    ensures letter { IfOk result
        (λ letter. (letter.key ≡ key) × (letter.draft ≡ draft) × (letter.outcomes ≡ log)
        × (letter.serial ≡ serial)) }
    ensures refused { IfErr result (λ code. lack_of draft log ≡ Some code) }
{
    if log.is_empty() {
        return Err(EMPTY_LOG);
    }
    if is_other(draft.terms().expected(), log.len()) {
        return Err(OTHER_COUNT);
    }
    if !draft.has_return() {
        return Err(NULL_RETURN_PATH);
    }
    Ok(Letter::seal(key, draft, log, serial))
}

/// Whether another number of outcomes is expected.
fn is_other(expected: Option<u32>, count: u32) -> bool
    ensures { result ≡ differs expected count }
{
    match expected {
        Some(expected) => expected != count,
        None => false,
    }
}
