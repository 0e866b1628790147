//! The result of one frame: a request, or a refusal. Implements noticed-protocol(5).
ghost use Rattle.std.specs.Prelude.{◌≢◌, ℕ, [], ◌∷◌, IfOk, IfErr};
ghost use Rattle.dsn_outcome.specs.Body.{body_of};
ghost use Rattle.dsn_outcome.specs.Request.{Bye};
ghost use Rattle.dsn_frame.specs.bodies.Request.{Encodes};
ghost use Rattle.dsn_frame.specs.declared.bodies.spoken.Spoken.TheVariants.{Refused};
ghost use Rattle.dsn_frame.specs.Refusal.{IsFrameRefused, refusal_code, refusal_end};
ghost use Rattle.dsn_frame.specs.Session.{Medium, Takes};

use crate::bodies::decode_request;
use crate::refusal::Refusal;
use dsn_outcome::Body;
use std::alloc::Global;

/// The request in the frame at this place of a session; it is never a goodbye.
///
/// Returns `Body` with the first fault of the body, or with `NoMemory` if the body has no fault and
/// memory for the request is refused. Returns `OutOfTurn` if the body is a request whose number
/// isn't the place. [`Refusal::code`] is the number to answer with.
pub fn next_request(alloc: Global, place: u32, bytes: &[u8]) -> Result<Body, Refusal>
    ensures encoded { IfOk result (λ body. Encodes bytes.now place (body_of body)) }
    ensures no_goodbye { IfOk result (λ body. body_of body ≢ Bye) }
    ensures refused { IfErr result (λ refusal. IsFrameRefused place bytes.now refusal) }
    ensures taken { (medium : Medium) (limit accepted : ℕ)
        → IfErr result
        (λ refusal. Takes medium limit accepted place bytes.now []
        (Refused (refusal_code refusal) ∷ []) (refusal_end refusal)) }
{
    let (number, body) = decode_request(alloc, bytes).map_err(Refusal::Body)?;
    // Client and daemon no longer agree on where they are, so this ends the session. A refused body
    // doesn't.
    if number != place {
        return Err(Refusal::OutOfTurn);
    }
    Ok(body)
}
