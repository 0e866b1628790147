//! One session: its frames are read and answered one after another.
//! Implements noticed-protocol(5).
ghost use Rattle.std.specs.Prelude.{◌≡◌, ◌+◌, ◌<◌, None, [], IfOk, IfErr, OnOk};
ghost use Rattle.std.specs.Result.{result_err};
ghost use Rattle.dsn_frame.specs.Frame.{ReadsNext, ReadsNone};
ghost use Rattle.dsn_frame.specs.ServeFault.{read_fault, turn_fault};
ghost use Rattle.dsn_frame.specs.SessionRun.{IsSessionRun, IsFrameTurn};

use crate::bodies::Spoken;
use crate::frame_buffer::FrameBuffer;
use crate::frame_fault::FrameFault;
use crate::serve_fault::ServeFault;
use std::alloc::Global;

/// A session that ended well.
#[derive(Clone, Copy, Debug, PartialEq, Eq)]
pub struct Served {
    /// The number of frames that were read. Each of them was answered.
    pub frames: u32,
}

/// The answer to a frame, and whether the session ends after it.
#[derive(Clone, Copy, Debug, PartialEq, Eq)]
pub struct Turn {
    pub answer: Spoken,
    pub over: bool,
}

impl Turn {
    /// How the session goes on, given whether the answer was written. Returns `WriteBack` if it was
    /// not, and otherwise `Number` if the session is over.
    pub fn after(self, written: bool) -> Result<(), ServeFault>
        ensures { result_err result ≡ turn_fault written self.over }
    {
        if !written {
            // Also if the answer is `refused 46`: nothing is read after it, so no other fault can
            // follow.
            return Err(ServeFault::WriteBack);
        }
        if self.over {
            return Err(ServeFault::Number);
        }
        Ok(())
    }
}

/// A reader of a session's frames that answers each of them before it reads the next.
pub trait Responder {
    ghost use Rattle.std.specs.Prelude.{ℕ, List, Option, Some, None};
    ghost use Rattle.dsn_outcome.specs.Request.{Body};
    ghost use Rattle.dsn_frame.specs.Session.{Medium};
    ghost use Rattle.dsn_frame.specs.declared.bodies.spoken.Spoken.{Spoken};
    ghost use Rattle.dsn_frame.specs.declared.serve_fault.ServeFault.{ServeFault};
    ghost use Rattle.dsn_frame.specs.declared.serve_fault.ServeFault.TheVariants.{Frames};

    // The medium of the session: an input that is read alone, or a connection.
    ghost medium: { Medium };

    // The bytes that are still unread, if they are known.
    ghost remaining: { Self → Option (List ℕ) };

    // The most frames of a session, and the most accepted requests. `accepted` is the number of
    // requests accepted so far, those of earlier sessions among them.
    ghost limit: { Self → ℕ };

    ghost accepted: { Self → ℕ };

    // Whether the frame at this place can be answered.
    ghost ready: { Self → ℕ → Type 0 };

    // What a session leaves, given its frames, the bodies asked among them, the answers, and the
    // fault that ended it, if any.
    ghost after: { Self → Self → List (List ℕ) → List Body → List Spoken → Option ServeFault
        → Type 0 };

    /// Reads the next frame into the buffer. The buffer holds no frame if the input has ended.
    fn next(&mut self, buffer: &mut FrameBuffer) -> Result<(), FrameFault>
        ensures next { IfOk result
            (λ _. ReadsNext (remaining self.old) (remaining self.new) buffer.new.held) }
        ensures refused { IfErr result
            (λ fault. ReadsNone (remaining self.old) (remaining self.new) fault) }
        ensures limit { limit self.new ≡ limit self.old }
        ensures accepted { accepted self.new ≡ accepted self.old }
        ensures ready { (place : ℕ) → ready self.old place → ready self.new place }
        ensures after { (start : Self) (frames : _) (bodies : _) (answers : _)
            → after start self.old frames bodies answers None
            → after start self.new frames bodies answers (read_fault (result_err result)) };

    /// Answers the frame with this body at this place. The session is over after an error.
    fn turn(&mut self, place: u32, bytes: &[u8]) -> Result<(), ServeFault>
        requires ready { ready self.old place }
        requires few { place < limit self.old }
        ensures ready { OnOk result (ready self.new (place + 1)) }
        ensures turn { IsFrameTurn medium remaining limit accepted after self.old self.new place
            bytes.now (result_err result) };

    // A frame beyond the limit changes nothing.
    ghost beyond: { (start now : Self) (frames : List (List ℕ)) (bodies : List Body)
        (answers : List Spoken) → after start now frames bodies answers None
        → after start now frames bodies answers (Some Frames) };
}

/// Runs a session to its end. One buffer serves all its frames, and memory is allocated only for a
/// frame that is longer than any before it.
///
/// Returns the number of frames if the input ends before a frame's first byte. Returns `Frame` if
/// the next frame can't be read, `Frames` if there are more than `limit` frames, and the error of
/// [`Responder::turn`] if a turn fails.
pub fn run_session<P: Responder>(
    alloc: Global,
    limit: u32,
    responder: &mut P,
) -> Result<Served, ServeFault>
    requires limit { P.limit responder.old ≡ limit }
    requires ready { P.ready responder.old 0 }
    ensures { P.after responder.old responder.old [] [] [] None
        → IsSessionRun P.medium P.remaining P.limit P.accepted P.after responder.old responder.new
        result }
{
    let mut buffer = FrameBuffer::new(alloc);
    for place in 0..limit {
        if let Err(fault) = responder.next(&mut buffer) {
            return Err(ServeFault::Frame(fault));
        }
        let Some(frame) = buffer.frame() else {
            return Ok(Served { frames: place });
        };
        if let Err(fault) = responder.turn(place, frame.body()) {
            return Err(fault);
        }
    }
    if let Err(fault) = responder.next(&mut buffer) {
        return Err(ServeFault::Frame(fault));
    }
    // A cut or a bad length at the limit was found above; here one whole frame is too many.
    match buffer.frame() {
        Some(_) => Err(ServeFault::Frames),
        None => Ok(Served { frames: limit }),
    }
}
