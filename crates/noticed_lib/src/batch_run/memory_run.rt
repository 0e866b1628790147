//! A whole run over memory.
ghost use Rattle.noticed_lib.specs.batch_run.MemoryRun.{IsMemoryRun};

use crate::batch_run::batch_end::BatchEnd;
use crate::batch_run::memory_source::MemorySource;
use crate::batch_run::whole_batch::batch;
use dsn_book::Limits;
use dsn_device::MemoryDrain;
use dsn_outcome::Letters;
use dsn_report::Site;
use std::alloc::Global;

/// How a run of [`batch_bytes`] ended. If memory for the outbox was refused, the outbox has not all
/// of its text, and `whole` is false. If memory for the notes was refused, the notes have not all
/// of theirs, and `fault` is 33.
#[derive(Drop)]
pub struct MemoryRun {
    /// The outbox.
    pub outbox: Vec<u8>,
    /// The notes.
    pub notes: Vec<u8>,
    /// Whether the outbox has the notice of each sealed log, and QUIT.
    pub whole: bool,
    /// The number of the fault that ended the run, as in [`BatchEnd`].
    pub fault: Option<u32>,
    /// The letters that could not be written, in order.
    pub unsent: Letters,
    /// The exit status, as in [`BatchEnd`].
    pub status: u8,
}

/// Runs [`batch`] on frames in memory, into an outbox and notes in memory.
pub fn batch_bytes(alloc: Global, limits: &Limits, site: Site, input: &[u8]) -> MemoryRun
    ensures { IsMemoryRun limits.now site input.now result }
{
    let mut source = MemorySource { rest: input };
    let mut notes = MemoryDrain::new(Vec::new(alloc));
    let outbox = MemoryDrain::new(Vec::new(alloc));
    let end = batch(alloc, limits, site, &mut source, outbox, &mut notes);
    let BatchEnd {
        outbox,
        whole,
        fault,
        unsent,
        status,
    } = end;
    MemoryRun {
        outbox: outbox.into_bytes(),
        notes: notes.into_bytes(),
        whole,
        fault,
        unsent,
        status,
    }
}
