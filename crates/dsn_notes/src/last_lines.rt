//! The last lines of the notes.
//! Implements noticed-protocol(5).
ghost use Rattle.std.specs.Prelude.{◌≡◌, ◌++◌, ◌||◌, not, is_some, if◌then◌else◌};
ghost use Rattle.std.specs.Result.{result_ok};
ghost use Rattle.std.specs.Option.{option_map};
ghost use Rattle.std.specs.List.{flat_map};
ghost use Rattle.dsn_device.specs.UntilFailure.{WritesUntilFailure};
ghost use Rattle.dsn_notes.specs.Notes.{fault_lines, outbox_lines, unsent_lines, open_line, open_lines, end_lines};

use crate::note_lines::{fault_line, open_line, unsent_line};
use dsn_book::OpenLine;
use dsn_device::{Drain, UntilFailure};
use dsn_outcome::{Letters, NoMemory};
use dsn_text::fault_code;

/// Writes the last lines of a run: the fault of the reading, the fault of the outbox, the letters
/// that were not written, and the open logs. Returns the letters. After a line that could not be
/// written nothing more is written.
pub fn write_last_lines<N: Drain>(
    notes: &mut N,
    writing: &mut UntilFailure,
    fault: Option<u32>,
    whole: bool,
    unsent: Letters,
    logs: &Result<Vec<OpenLine>, NoMemory>,
) -> Letters
    ensures letters { result ≡ unsent }
    ensures noted { WritesUntilFailure N.Drain writing.old.failed writing.new.failed notes.old
        notes.new
        (end_lines fault whole unsent (option_map (λ lines. lines.items) (result_ok logs.now))) }
{
    write_fault(notes, writing, fault);
    write_outbox_fault(notes, writing, whole);
    let unsent = write_unsent(notes, writing, unsent);
    write_open(notes, writing, logs);
    unsent
}

/// Returns the exit status. It is 1 if a line of the notes was lost, if there was a fault, if the
/// outbox isn't whole, or if the open logs could not be listed. Otherwise it is 0.
pub fn status_of(lost: bool, fault: Option<u32>, whole: bool, listed: bool) -> u8
    ensures { result ≡ (if lost || (is_some fault || (not whole || not listed)) then 1 else 0) }
{
    // A refused body isn't a fault: it was answered.
    if lost || fault.is_some() || !whole || !listed {
        1
    } else {
        0
    }
}

#[tactic(auto, unfolding(crate::specs::Notes::fault_lines))]
fn write_fault<N: Drain>(notes: &mut N, writing: &mut UntilFailure, fault: Option<u32>)
    ensures { WritesUntilFailure N.Drain writing.old.failed writing.new.failed notes.old notes.new
        (fault_lines fault) }
{
    if let Some(code) = fault {
        writing.write(notes, fault_line(code).bytes());
    }
}

#[tactic(auto, unfolding(crate::specs::Notes::outbox_lines))]
fn write_outbox_fault<N: Drain>(notes: &mut N, writing: &mut UntilFailure, whole: bool)
    ensures { WritesUntilFailure N.Drain writing.old.failed writing.new.failed notes.old notes.new
        (outbox_lines whole) }
{
    if !whole {
        writing.write(notes, fault_line(fault_code::OUTBOX_WRITE).bytes());
    }
}

fn write_unsent<N: Drain>(notes: &mut N, writing: &mut UntilFailure, unsent: Letters) -> Letters
    ensures letters { result ≡ unsent }
    ensures noted { WritesUntilFailure N.Drain writing.old.failed writing.new.failed notes.old
        notes.new (unsent_lines unsent) }
{
    let mut rest = unsent;
    let mut kept = Letters::new();
    while let Some(letter) = rest.pop() {
        writing.write(notes, unsent_line(&letter).bytes());
        kept.push(letter);
    }
    kept
}

fn write_open<N: Drain>(
    notes: &mut N,
    writing: &mut UntilFailure,
    logs: &Result<Vec<OpenLine>, NoMemory>,
)
    ensures { WritesUntilFailure N.Drain writing.old.failed writing.new.failed notes.old notes.new
        (open_lines (option_map (λ lines. lines.items) (result_ok logs.now))) }
{
    match logs {
        Ok(lines) => write_open_lines(notes, writing, lines.as_slice()),
        Err(_) => writing.write(notes, fault_line(fault_code::NO_MEMORY).bytes()),
    }
}

/// Writes the line of each open log. After a line that could not be written nothing more is
/// written.
pub fn write_open_lines<N: Drain>(notes: &mut N, writing: &mut UntilFailure, lines: &[OpenLine])
    ensures { WritesUntilFailure N.Drain writing.old.failed writing.new.failed notes.old notes.new
        (flat_map open_line lines.now) }
{
    for line in lines {
        writing.write(notes, open_line(line).bytes());
    }
}
