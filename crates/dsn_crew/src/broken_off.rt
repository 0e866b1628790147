//! The collector's part of a run, and what is left of a run that is broken off.
ghost use Rattle.std.specs.Prelude.{◌≡◌, List};
ghost use Rattle.dsn_outcome.specs.History.{Exchange};
ghost use Rattle.dsn_crew.specs.inner.BrokenOff.{IsCollected};
ghost use Rattle.dsn_crew.specs.KeeperHistory.{BeginsWith};

use crate::breach::Breach;
use crate::desk::Desk;
use crate::post::LetterSink;
use dsn_book::Keeper;
use dsn_outcome::Letter;
use std::snapshot::Snapshot;
use std::sync::Wait;
use std::time::Clock;

/// What is left of a collector whose run was broken off. Its halves are dropped, so that no agent
/// waits for them.
#[derive(Drop)]
pub(crate) struct BrokenOff<B: Keeper> {
    /// Why.
    pub(crate) breach: Breach,
    /// The letter that it still held.
    pub(crate) held: Option<Letter>,
    /// What carried its requests out.
    pub(crate) book: B,
    /// The collector as it was, for contracts.
    pub(crate) desk: Snapshot<Desk<B>>,
}

impl<B: Keeper + Drop> BrokenOff<B> {
    /// What is left of this collector.
    pub(crate) fn new(desk: Desk<B>, breach: Breach, held: Option<Letter>) -> BrokenOff<B>
        ensures breach { result.breach ≡ breach }
        ensures held { result.held ≡ held }
        ensures book { result.book ≡ desk.book }
        ensures desk { result.desk.value ≡ desk }
    {
        let collector = Snapshot::of(&desk);
        BrokenOff {
            breach,
            held,
            // The book outlives the failure: it models all that was carried out. What was kept
            // behind that is carried out by the next run, so a client that asks again may log an
            // outcome twice.
            book: desk.into_book(),
            desk: collector,
        }
    }
}

/// Takes the agents' requests until all agents are gone. Returns the collector, or what is left of
/// it if it fails.
pub(crate) fn collect<R: Wait + Clock, B: Keeper + Drop>(
    rt: &R,
    desk: Desk<B>,
    sink: &mut LetterSink,
) -> Result<Desk<B>, BrokenOff<B>>
    ensures { (before : List Exchange) → BeginsWith B.Keeper desk.start before
        → IsCollected B.Keeper before desk sink.old sink.new result }
{
    let mut desk = desk;
    match desk.run(rt, sink) {
        Ok(()) => Ok(desk),
        Err(fault) => {
            let breach = desk.stopped();
            Err(BrokenOff::new(desk, breach, fault.into_letter()))
        }
    }
}
