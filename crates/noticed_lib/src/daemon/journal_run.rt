//! The run of the daemon over a journal that was begun, whatever takes its letters.
ghost use Rattle.std.specs.Prelude.{◌≡◌, ◌+◌, ◌^◌, ◌<◌, List, true, All, IfSome, is_some};
ghost use Rattle.dsn_outcome.specs.History.{Exchange};
ghost use Rattle.dsn_outcome.specs.Letter.{Letter};
ghost use Rattle.dsn_crew.specs.KeeperHistory.{BeginsWith};
ghost use Rattle.dsn_ledger.specs.KeptBook.{ledger_keeper};
ghost use Rattle.noticed_lib.specs.daemon.Journaled.{IsRunOver};

use crate::daemon::journal_start::JournalStart;
use crate::daemon::observer::Observer;
use crate::daemon::run_notes::{write_fault, write_kept_account};
use crate::daemon::serve_end::ServeEnd;
use crate::daemon::watched_keeper::Watched;
use dsn_crew::{CrewFault, Gate, Outlet, Port, run_crew_over};
use dsn_device::Drain;
use dsn_journal::{MarkCount, Replaceable};
use dsn_ledger::KeptBook;
use std::alloc::Global;
use std::sync::Wait;
use std::thread::Threads;
use std::time::Clock;

/// Serves these ports over what was begun. Returns how the run ended, and the disk of the journal.
/// Notes what `serve_ports` notes, and the number of a fault if a request was not kept (45), which
/// ends the run.
///
/// Requires that fewer than 2^63 letters were sealed, that there is a history to begin with, and that
/// no letter of the outlet is unsent.
pub(crate) fn run_over<
    R: Threads + Wait + Clock + Sync,
    P: Port + Drop + Send,
    O: Outlet + Drop + Send,
    D: Replaceable + Drop,
    C: MarkCount + Drop + Send,
    G: Gate + Sync,
    V: Observer + Drop,
    N: Drain,
>(
    rt: &R,
    alloc: Global,
    start: JournalStart<O, D, C>,
    ports: Vec<P>,
    gate: &G,
    observer: V,
    notes: &mut N,
) -> (ServeEnd<O::Left>, D)
    requires asked { All P.may_be_asked ports.items }
    requires few { start.keeper.base + start.keeper.book.book.sealed < 2 ^ 63 }
    requires begins { (before : List Exchange)
        × BeginsWith (ledger_keeper D.Disk) start.keeper before }
    requires posted { (from : O) × (first : List Letter) × O.posted from first start.outlet }
    requires all_sent { O.unsent start.outlet ≡ 0 }
    ensures { IsRunOver D.Disk C.may_reach P.Port O.Outlet N.Drain ports.items start.keeper
        start.outlet notes.old notes.new result.0 result.1 }
{
    let JournalStart { outlet, keeper } = start;
    let keeper = Watched::new(keeper, observer);
    match run_crew_over(rt, alloc, keeper, ports, outlet, gate) {
        Ok(account) => write_kept_account(alloc, account, notes),
        Err(fault) => {
            let CrewFault {
                cause,
                outbox,
                unsent,
                book,
                ..
            } = fault;
            let end = write_fault(alloc, cause.code(), outbox, unsent, notes);
            (end, disk_of(book))
        }
    }
}

/// The disk of what kept a run's requests. Requires that it was returned.
fn disk_of<D: Replaceable + Drop, C: MarkCount + Drop, V: Drop>(
    book: Option<Watched<KeptBook<D, C>, V>>,
) -> D
    requires { is_some book ≡ true }
    ensures { IfSome book (λ left. result ≡ left.journal.disk) }
{
    match book {
        Some(book) => book.into_keeper().into_ledger().into_disk(),
        None => unreachable!(),
    }
}
