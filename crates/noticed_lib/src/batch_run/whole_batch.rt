//! A whole run on one thread: frames in, an outbox and notes out.
ghost use Rattle.std.specs.Prelude.{◌≡◌, List};
ghost use Rattle.std.specs.Option.{option_map};
ghost use Rattle.std.specs.Result.{result_ok};
ghost use Rattle.dsn_outcome.specs.Letter.{Letter};
ghost use Rattle.noticed_lib.specs.batch_run.Batch.{IsBatch};
ghost use Rattle.noticed_lib.specs.inner.Harvest.{Ended};
ghost use Rattle.dsn_report.specs.Outgoing.{Delivered};
ghost use Rattle.dsn_report.specs.Site.{Site};

use crate::batch_run::batch_end::BatchEnd;
use crate::batch_run::reading::read_all;
use crate::batch_run::run::Run;
use dsn_book::{Book, Limits, OpenLine};
use dsn_device::{Drain, Source, UntilFailure};
use dsn_notes::{status_of, write_last_lines};
use dsn_outcome::NoMemory;
use dsn_report::{OutboxEnd, Outgoing, Site};
use dsn_text::fault_code;
use std::alloc::Global;

/// Reads frames from `input` to its end, and does what they ask as agent 0. Posts a notice of each
/// sealed log to `outbox`. Writes to `notes` the answer to each frame and how the run ended. Each
/// line of the notes is written before the next frame is read, and a letter before its answer's
/// line.
///
/// A refusal of memory ends the run only if it was for the book or for a frame. A request that
/// meets it is answered `refused 9`.
pub fn batch<R: Source, W: Drain, N: Drain>(
    alloc: Global,
    limits: &Limits,
    site: Site,
    input: &mut R,
    outbox: W,
    notes: &mut N,
) -> BatchEnd<W>
    ensures run { IsBatch R.Source W.Drain N.Drain limits.now site input.old input.new outbox
        notes.old notes.new result }

    // A reader whose calls don't fail is not blamed.
    ensures steady { R.steady input.old
        → R.steady input.new × (R.failures input.new ≡ R.failures input.old) }
{
    let outgoing = Outgoing::new(site, outbox);
    match Book::new(alloc, *limits) {
        Ok(book) => {
            let mut run = Run {
                book,
                outgoing,
                accepted: 0,
            };
            let fault = read_all(alloc, limits.requests(), input, &mut run, notes);
            let logs = run.book.open_lines(alloc);
            let Run {
                book: _,
                outgoing,
                accepted: _,
            } = run;
            end(fault, outgoing, logs, notes)
        }
        Err(NoMemory) => {
            let fault = Some(fault_code::NO_MEMORY);
            end(fault, outgoing, Ok(Vec::new(alloc)), notes)
        }
    }
}

/// Ends the outbox, and writes how the run ended.
fn end<W: Drain, N: Drain>(
    fault: Option<u32>,
    outgoing: Outgoing<W>,
    logs: Result<Vec<OpenLine>, NoMemory>,
    notes: &mut N,
) -> BatchEnd<W>
    ensures { (site : Site) (start : W) (letters : List Letter)
        → Delivered W.Drain site start outgoing letters
        → Ended W.Drain N.Drain site start letters fault
        (option_map (λ lines. lines.items) (result_ok logs))
        notes.old notes.new result }
{
    let OutboxEnd {
        outbox,
        whole,
        unsent,
    } = outgoing.finish();
    let mut writing = UntilFailure {
        failed: fault == Some(fault_code::NOTES_WRITE),
    };
    let unsent = write_last_lines(notes, &mut writing, fault, whole, unsent, &logs);
    let fault = if writing.failed {
        Some(fault_code::NOTES_WRITE)
    } else {
        fault
    };
    let status = status_of(false, fault, whole, logs.is_ok());
    BatchEnd {
        outbox,
        whole,
        fault,
        unsent,
        status,
    }
}
