//! The client's loop: a frame is sent, its answer is read, and its line is written, before the next
//! frame is read.
ghost use Rattle.std.specs.Prelude.{◌≡◌, ◌≢◌, ◌<◌, ℕ, List, Ok, Err};
ghost use Rattle.dsn_frame.specs.bodies.FrameBody.{frame};
ghost use Rattle.dsn_frame.specs.bodies.Request.{request_body};
ghost use Rattle.dsn_outcome.specs.Body.{body_lent};
ghost use Rattle.std.specs.Result.{result_err};
ghost use Rattle.noticed_lib.specs.client.Ask.{IsAsked};
ghost use Rattle.dsn_device.specs.Counts.{Counts};
ghost use Rattle.noticed_lib.specs.client.Send.{HandsOver, IsSend};
ghost use Rattle.noticed_lib.specs.client.SendFault.{is_connection_failed};

use crate::client::send_end::SendEnd;
use crate::client::send_fault::SendFault;
use dsn_device::{Drain, Source, Stream};
use dsn_frame::{FrameBuffer, FrameFault, FrameRef, Spoken, decode_answer, encode_lent};
use dsn_notes::answer_line;
use dsn_outcome::BodyRef;
use std::alloc::Global;
use std::sync::Wait;

/// How many frames may be sent: as many as a daemon takes on one connection.
const MOST_FRAMES: u32 = 1_000_000;

/// Sends the frames of `input` over `stream`, each as one text and the next one only after the
/// last answer, and writes each answer in a line of `notes`. The first fault ends it, and nothing
/// is read or written after it; an answer out of turn has no line. It makes no flush. Memory is
/// taken only to read a frame or an answer that is longer than any before it.
pub fn send<R: Source, S: Stream, N: Drain>(
    _rt: &impl Wait,
    alloc: Global,
    input: &mut R,
    stream: &mut S,
    notes: &mut N,
) -> SendEnd
    ensures { IsSend R.Source S.Source S.Drain N.Drain input.old input.new stream.old stream.new
        notes.old notes.new result }
{
    // The leave to wait is required though no call here needs it: a daemon may let this wait for an
    // answer.
    match hand_over(alloc, input, stream, notes) {
        Ok(()) => SendEnd {
            status: 0,
            fault: None,
        },
        Err(fault) => SendEnd {
            status: 1,
            fault: Some(fault.code()),
        },
    }
}

/// Sends each frame of the input and notes its answer.
#[tactic(auto, using(crate::proofs::client::Rules::sends))]
fn hand_over<R: Source, S: Stream, N: Drain>(
    alloc: Global,
    input: &mut R,
    stream: &mut S,
    notes: &mut N,
) -> Result<(), SendFault>
    ensures { HandsOver R.Source S.Source S.Drain N.Drain input.old input.new stream.old stream.new
        notes.old notes.new (result_err result) }
{
    let mut frames = FrameBuffer::new(alloc);
    let mut answers = FrameBuffer::new(alloc);
    for position in 0..MOST_FRAMES {
        if let Err(fault) = frames.read_next(input) {
            return Err(SendFault::Input(fault));
        }
        let Some(frame) = frames.frame() else {
            return Ok(());
        };
        let answer = match ask(&mut answers, stream, position, &frame) {
            Ok(answer) => answer,
            Err(fault) => return Err(fault),
        };
        if dsn_device::send(notes, answer_line(position, answer).bytes()).is_err() {
            return Err(SendFault::NotesLost);
        }
    }
    if let Err(fault) = frames.read_next(input) {
        return Err(SendFault::Input(fault));
    }
    match frames.frame() {
        Some(_) => Err(SendFault::TooMany),
        None => Ok(()),
    }
}

/// Sends one request as the first frame of a connection, and returns its answer.
///
/// Returns `Input(NoMemory)`, with nothing sent, if there is no memory for the frame. Returns the
/// other faults of [`send`] for its frame and its answer.
pub fn send_request<S: Stream>(
    _rt: &impl Wait,
    alloc: Global,
    stream: &mut S,
    request: BodyRef<'_>,
) -> Result<Spoken, SendFault>
    ensures asked { result ≢ Err (SendFault.Input FrameFault.NoMemory)
        → IsAsked 0 (request_body 0 (body_lent request.entry)) (S.contents stream.old)
        (S.contents stream.new) (S.remaining stream.old) (S.remaining stream.new) result }
    ensures unsent { result ≡ Err (SendFault.Input FrameFault.NoMemory) → stream.new ≡ stream.old }
    ensures counts { Counts (S.Source.failures) (S.Source.flushes) (S.Source.steady)
        (is_connection_failed (result_err result)) stream.old stream.new }
{
    let Ok(frame) = encode_lent(alloc, 0, request) else {
        return Err(SendFault::Input(FrameFault::NoMemory));
    };
    ask_bytes(&mut FrameBuffer::new(alloc), stream, 0, &frame)
}

/// Sends the frame at this position, and reads its answer into a buffer for answers.
fn ask<S: Stream>(
    answers: &mut FrameBuffer,
    stream: &mut S,
    position: u32,
    frame: &FrameRef<'_>,
) -> Result<Spoken, SendFault>
    ensures asked { IsAsked position frame.now (S.contents stream.old) (S.contents stream.new)
        (S.remaining stream.old) (S.remaining stream.new) result }
    ensures counts { Counts (S.Source.failures) (S.Source.flushes) (S.Source.steady)
        (is_connection_failed (result_err result)) stream.old stream.new }
{
    ask_bytes(answers, stream, position, frame.bytes())
}

/// The same of the bytes of a frame.
fn ask_bytes<S: Stream>(
    answers: &mut FrameBuffer,
    stream: &mut S,
    position: u32,
    bytes: &[u8],
) -> Result<Spoken, SendFault>
    ensures asked { (body : List ℕ) → bytes.now ≡ frame body
        → IsAsked position body (S.contents stream.old) (S.contents stream.new)
        (S.remaining stream.old) (S.remaining stream.new) result }
    ensures counts { Counts (S.Source.failures) (S.Source.flushes) (S.Source.steady)
        (is_connection_failed (result_err result)) stream.old stream.new }
{
    if dsn_device::send(stream, bytes).is_err() {
        return Err(SendFault::NotSent);
    }
    if let Err(fault) = answers.read_next(stream) {
        return Err(SendFault::AnswerFrame(fault));
    }
    let Some(answer) = answers.frame() else {
        return Err(SendFault::Unanswered);
    };
    match decode_answer(answer.body()) {
        Ok((number, answer)) if number == position => Ok(answer),
        Ok(_) => Err(SendFault::OutOfTurn),
        Err(fault) => Err(SendFault::Answer(fault)),
    }
}
