//! The run of the daemon over a journal, whose letters are written to an outbox.
ghost use Rattle.std.specs.Prelude.{◌≡◌, ◌+◌, ◌^◌, ◌<◌, List, [], All, IfErr, IfOk};
ghost use Rattle.dsn_outcome.specs.History.{Exchange};
ghost use Rattle.dsn_outcome.specs.Letter.{Letter};
ghost use Rattle.dsn_crew.specs.KeeperHistory.{BeginsWith};
ghost use Rattle.dsn_crew.specs.post.Outlet.{outbox_outlet};
ghost use Rattle.dsn_ledger.specs.KeptBook.{ledger_keeper};
ghost use Rattle.dsn_report.specs.Outgoing.{Delivered};
ghost use Rattle.noticed_lib.specs.daemon.Journaled.{IsLedgerBegun, IsNoStart, IsPostedFirst, IsRunOver, IsServeOver, LeavesStart};
ghost use Rattle.dsn_report.specs.Site.{Site};

use crate::daemon::journal_folder::JournalFolder;
use crate::daemon::journal_run::run_over;
use crate::daemon::journal_start::{JournalStart, NotStarted, begin_ledger, hand_first};
use crate::daemon::journaled_end::JournaledEnd;
use crate::daemon::observer::Observer;
use crate::daemon::run_notes::write_not_started;
use crate::daemon::serve_end::ServeEnd;
use crate::daemon::watch::Watch;
use dsn_book::Limits;
use dsn_crew::{Gate, Port};
use dsn_device::Drain;
use dsn_journal::{
    CountedOutbox, MarkCount, MarkedLetters, MarkedOutbox, Replaceable, SharedMarkCount,
};
use dsn_ledger::{Opened, ledgers_have_one_history};
use dsn_report::{Outgoing, Site};
use dsn_text::fault_code;
use std::alloc::Global;
use std::sync::Wait;
use std::thread::Threads;
use std::time::Clock;

/// An outbox that marks its letters, and reports to a count how many are marked.
type CountedMarks<W, M, C> = CountedOutbox<MarkedOutbox<W, M>, C>;

/// Serves these ports as `serve_ports` does, over a journal. Each request is kept on its disk
/// before it is carried out and answered. Each letter is marked once its notice was written to
/// `outbox` and flushed. The run begins with what the disk holds: the open logs and the closed
/// keys, and the letters that no mark counts, which are posted first.
///
/// A journal that gets full is replaced by a shorter one within the run, once all letters that were
/// sealed are marked; the run waits some seconds for that. The watch hears of the keys that are
/// held at the start, and of each request that was carried out.
///
/// Beside what `serve_ports` notes, it notes the number of a fault if a request was not kept (45),
/// which ends the run. A run does not begin if a disk can't be opened (9, 71 to 77), or if one of
/// the first letters could not be written or marked (31).
///
/// At each moment a crash leaves a journal that a later start begins with. Its history is that from
/// before this run, then a prefix of the requests that were taken, and no other. Each request is in
/// that prefix before its answer is sent. The marks that a crash leaves, once opened, count the
/// first letters, all of which are written to `outbox` and flushed by the end of the run.
pub(crate) fn serve_ports_over<
    R: Threads + Wait + Clock + Sync,
    P: Port + Drop + Send,
    W: Drain + Drop + Send,
    D: Replaceable + Drop,
    M: Replaceable + Drop + Send,
    G: Gate + Sync,
    H: Watch,
    N: Drain,
>(
    rt: &R,
    alloc: Global,
    site: Site,
    limits: Limits,
    releases: bool,
    ports: Vec<P>,
    outbox: W,
    folder: JournalFolder<D, M>,
    gate: &G,
    watch: &H,
    notes: &mut N,
) -> JournaledEnd<W, D, M>
    requires asked { All P.may_be_asked ports.items }
    ensures { IsServeOver D.Disk M.Disk P.Port W.Drain N.Drain site
        (record { limits = limits; releases = releases }) ports.items
        folder.journal folder.marks outbox notes.old notes.new result.end result.journal
        result.marks }
{
    let count = SharedMarkCount::new(rt);
    match start_over(alloc, site, limits, releases, outbox, folder, &count, watch) {
        Ok(start) => {
            let (end, journal) = run_outbox(rt, alloc, start, ports, gate, watch, notes);
            JournaledEnd::of(end, journal)
        }
        Err(not) => {
            watch.start_failed(not.code);
            write_not_started(alloc, not, notes)
        }
    }
}

/// Serves these ports over what was begun, and writes the letters to this outbox.
// A poster may be sent to a thread if its outbox may be, which is a bound here.
fn run_outbox<
    R: Threads + Wait + Clock + Sync,
    P: Port + Drop + Send,
    W: Drain + Drop + Send,
    D: Replaceable + Drop,
    C: MarkCount + Drop + Send,
    G: Gate + Sync,
    V: Observer + Drop,
    N: Drain,
>(
    rt: &R,
    alloc: Global,
    start: JournalStart<Outgoing<W>, D, C>,
    ports: Vec<P>,
    gate: &G,
    observer: V,
    notes: &mut N,
) -> (ServeEnd<W>, D)
    requires asked { All P.may_be_asked ports.items }
    requires few { start.keeper.base + start.keeper.book.book.sealed < 2 ^ 63 }
    requires begins { (before : List Exchange)
        × BeginsWith (ledger_keeper D.Disk) start.keeper before }
    requires posted { (site : Site) × (from : W) × (first : List Letter)
        × Delivered W.Drain site from start.outlet first }
    requires all_sent { start.outlet.unsent ≡ [] }
    ensures { IsRunOver D.Disk C.may_reach P.Port (outbox_outlet W.Drain) N.Drain ports.items
        start.keeper start.outlet notes.old notes.new result.0 result.1 }
{
    run_over(rt, alloc, start, ports, gate, observer, notes)
}

/// Opens a folder, posts the letters of earlier runs that no mark counts, and begins the ledger. The
/// count is notified of the mark, and of each letter that is marked then and in the run, the watch of
/// the keys that are held then.
///
/// The numbers are those of [`JournalFolder::open`]; then 31 if the outbox fails, or a letter could
/// not be marked; then those of [`begin_ledger`].
fn start_over<
    W: Drain + Drop + Send,
    D: Replaceable + Drop,
    M: Replaceable + Drop + Send,
    C: MarkCount + Copy + Send,
    H: Watch,
>(
    alloc: Global,
    site: Site,
    limits: Limits,
    releases: bool,
    outbox: W,
    folder: JournalFolder<D, M>,
    count: C,
    watch: &H,
) -> Result<JournalStart<Outgoing<CountedMarks<W, M, C>>, D, C>, NotStarted<W, D, M>>
    ensures begun { IfOk result
        (λ start. IsLedgerBegun D.Disk limits folder.journal start.keeper) }
    ensures rule { IfOk result (λ start. start.keeper.releases ≡ releases) }
    ensures first { IfOk result (λ start. IsPostedFirst D.Disk M.Disk W.Drain site limits
        folder.journal folder.marks outbox start.outlet) }
    ensures all_sent { IfOk result (λ start. start.outlet.unsent ≡ []) }
    ensures fault { IfErr result (λ not. IsNoStart D.Disk M.Disk W.Drain site limits
        folder.journal not.journal folder.marks not.marks outbox not.outbox not.code) }
    ensures crash { IfErr result (λ not. LeavesStart D.Disk limits folder.journal not.journal) }
{
    let (marks, opened) = match folder.open(alloc, limits) {
        Ok(opened) => opened,
        Err(not) => {
            return Err(NotStarted {
                code: not.code,
                outbox,
                journal: not.left.journal,
                marks: not.left.marks,
            });
        }
    };
    ledgers_have_one_history();
    count.note(MarkedLetters::of(&marks));
    let Opened { ledger, letters } = opened;
    let outbox = CountedOutbox::new(MarkedOutbox::new(alloc, outbox, marks), count);
    let outgoing = hand_first(Outgoing::new(site, outbox), letters);
    // Before a client is served: else a daemon whose outbox fails would go on taking requests whose
    // notices nobody gets, over all its starts.
    if outgoing.has_failed() {
        return Err(NotStarted::after(fault_code::OUTBOX_WRITE, outgoing, ledger.into_disk()));
    }
    // No letter waits any more.
    match begin_ledger(alloc, ledger, &[], limits, releases, count, watch) {
        Ok(keeper) => Ok(JournalStart {
            outlet: outgoing,
            keeper,
        }),
        Err(not) => Err(NotStarted::after(not.code, outgoing, not.left)),
    }
}

impl<W: Drain, D, M: Replaceable + Drop> NotStarted<W, D, M> {
    /// The fault with this number, after letters were posted or not.
    fn after<C: MarkCount + Drop>(
        code: u32,
        outgoing: Outgoing<CountedMarks<W, M, C>>,
        journal: D,
    ) -> NotStarted<W, D, M>
        ensures code { result.code ≡ code }
        ensures outbox { result.outbox ≡ outgoing.poster.outbox.outbox }
        ensures journal { result.journal ≡ journal }
        ensures marks { result.marks ≡ outgoing.poster.outbox.marks.journal.disk }
    {
        let (outbox, marks) = outgoing.into_outbox().into_outbox().into_parts();
        NotStarted {
            code,
            outbox,
            journal,
            marks: marks.into_disk(),
        }
    }
}
