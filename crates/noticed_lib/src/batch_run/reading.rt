//! Reading an input to its end: a session whose answers are lines of the notes.
ghost use Rattle.std.specs.Prelude.{◌≡◌, ◌≤◌};
ghost use Rattle.std.specs.Result.{result_err};
ghost use Rattle.dsn_frame.specs.ServeFault.{is_read_failed, is_unwritten, session_end};
ghost use Rattle.dsn_frame.specs.Session.{Input};
ghost use Rattle.noticed_lib.specs.inner.Reading.{HasRead, Heard};
ghost use Rattle.noticed_lib.specs.inner.Run.{most_accepted};

use crate::batch_run::run::Run;
use dsn_frame::{FrameBuffer, FrameFault, Responder, ServeFault, Served, run_session};
use dsn_notes::answer_line;
use dsn_outcome::{Drain, Source, send};
use dsn_text::fault_code;
use std::alloc::Global;

/// An input that is read, the run that its frames are asked of, and the notes of their answers.
#[derive(Drop)]
struct Reading<'a, 'b, 'c, R, W, N> {
    alloc: Global,
    input: &'a mut R,
    run: &'b mut Run<W>,
    notes: &'c mut N,
}

impl<'a, 'b, 'c, R: Source, W: Drain, N: Drain> Responder for Reading<'a, 'b, 'c, R, W, N> {
    ghost medium = { Input };

    ghost remaining = { λ r. R.remaining r.input.now };

    ghost limit = { λ r. r.run.now.book.limits.requests };

    ghost accepted = { λ r. r.run.now.accepted };

    ghost ready = { λ r place. (r.run.now.accepted ≤ place)
        × (r.run.now.book.sealed ≤ r.run.now.accepted)
        × (r.run.now.book.limits.requests ≤ most_accepted) };

    ghost after = { λ start now _ bodies answers fault.
        (now.input.ghost_name ≡ start.input.ghost_name)
        × (now.run.ghost_name ≡ start.run.ghost_name)
        × (now.notes.ghost_name ≡ start.notes.ghost_name)
        × HasRead R.Source W.Drain N.Drain start.input.now now.input.now start.run.now
        now.run.now start.notes.now now.notes.now bodies answers (is_read_failed fault)
        (is_unwritten fault) };

    fn next(&mut self, buffer: &mut FrameBuffer) -> Result<(), FrameFault> {
        buffer.read_next(self.input)
    }

    /// Answers the frame, and writes the answer in a line of its own.
    fn turn(&mut self, place: u32, bytes: &[u8]) -> Result<(), ServeFault> {
        let turn = self.run.answer(self.alloc, place, bytes);
        let sent = send(self.notes, answer_line(place, turn.answer).bytes());
        turn.after(sent.is_ok())
    }

    ghost beyond = { λ _ _ _ _ _ left. left };
}

/// Reads and answers frames, as many as the limit allows, and writes each answer in a line of its
/// own. Returns the number of the fault that ended the reading, if one did.
pub(crate) fn read_all<R: Source, W: Drain, N: Drain>(
    alloc: Global,
    requests: u32,
    input: &mut R,
    run: &mut Run<W>,
    notes: &mut N,
) -> Option<u32>
    requires accepted { run.old.accepted ≡ 0 }
    requires sealed { run.old.book.sealed ≡ 0 }
    requires limit { run.old.book.limits.requests ≡ requests }
    ensures { Heard R.Source W.Drain N.Drain input.old input.new run.old run.new notes.old
        notes.new result }
{
    let mut reading = Reading {
        alloc,
        input,
        run,
        notes,
    };
    fault_of(run_session(alloc, requests, &mut reading))
}

/// The number of the fault that ended a reading, if one did.
fn fault_of(reading: Result<Served, ServeFault>) -> Option<u32>
    ensures { result ≡ session_end Input (result_err reading) }
{
    match reading {
        Ok(_) => None,
        // An answer is a line of the notes here.
        Err(ServeFault::WriteBack) => Some(fault_code::NOTES_WRITE),
        Err(fault) => Some(fault.code()),
    }
}
