//! The next request of a log.
ghost use Rattle.std.specs.Prelude.{◌≡◌, IfOk, IfErr};
ghost use Rattle.dsn_outcome.specs.Body.{body_of};
ghost use Rattle.noticed_dsn.specs.Log.{IsNextRequest, IsUnreadable, continues_log};

use crate::log_fault::NOT_ONE_LOG;
use crate::memory_source::MemorySource;
use dsn_frame::{FrameBuffer, next_request};
use dsn_outcome::{Body, Key, MOST_OUTCOMES};
use std::alloc::Global;

/// Reads the frame at this place, and returns its request. Returns the number of the fault if the
/// frame can't be read or is refused, and `NOT_ONE_LOG` if the bytes end before it.
pub(crate) fn read_request(
    alloc: Global,
    place: u32,
    source: &mut MemorySource<'_>,
    buffer: &mut FrameBuffer,
) -> Result<Body, u32>
    ensures next { IfOk result
        (λ body. IsNextRequest source.old.rest.now source.new.rest.now place (body_of body)) }
    ensures refused { IfErr result (IsUnreadable source.old.rest.now place) }
{
    if let Err(fault) = buffer.read_next(source) {
        return Err(fault.code());
    }
    let Some(frame) = buffer.frame() else {
        return Err(NOT_ONE_LOG);
    };
    match next_request(alloc, place, frame.body()) {
        Ok(body) => Ok(body),
        Err(refusal) => Err(refusal.code()),
    }
}

/// Whether a request continues a log at this place, of which the appends so far have this key: a
/// further append, or its flush if no byte is left after it.
pub(crate) fn continues_log(place: u32, log: Option<Key>, rest: &[u8], body: &Body) -> bool
    ensures { result ≡ continues_log place log rest.now (body_of body.now) }
{
    let Some(key) = body.key() else {
        return false;
    };
    let is_of_log = match log {
        Some(log) => log == key,
        None => true,
    };
    match body {
        Body::Append(..) => is_of_log && place != MOST_OUTCOMES,
        Body::Flush(..) => is_of_log && rest.is_empty(),
        _ => false,
    }
}
