//! The run of the daemon over a journal, whose letters are submitted to a mail server.
ghost use Rattle.std.specs.Prelude.{◌≡◌, ◌+◌, ◌^◌, ◌<◌, List, All};
ghost use Rattle.dsn_crew.specs.KeeperHistory.{BeginsWith};
ghost use Rattle.dsn_hand_in.specs.MailOutlet.{MailOutlet as Mailing, Passes, mail_outlet, mail_start};
ghost use Rattle.dsn_ledger.specs.KeptBook.{ledger_keeper};
ghost use Rattle.dsn_outcome.specs.History.{Exchange};
ghost use Rattle.noticed_lib.specs.daemon.Journaled.{IsRunOver};
ghost use Rattle.noticed_lib.specs.daemon.Submitting.{IsServeToServer, with_disk};

use crate::daemon::journal_folder::JournalFolder;
use crate::daemon::journal_run::run_over;
use crate::daemon::journal_start::{JournalStart, NotBegun, NotStarted, begin_ledger, hand_first};
use crate::daemon::journaled_end::JournaledEnd;
use crate::daemon::observer::Observer;
use crate::daemon::run_notes::write_not_started;
use crate::daemon::serve_end::ServeEnd;
use crate::daemon::watch::Watch;
use crate::daemon::watched_submissions::WatchedSubmissions;
use dsn_book::Limits;
use dsn_crew::{Gate, Port};
use dsn_device::{Drain, Stream};
use dsn_hand_in::{JournalMarks, MailOutlet, MailParts, RunClock, SitedLetter, Submissions};
use dsn_journal::{MarkCount, MarkedLetters, Marks, Noted, Replaceable, SharedMarkCount};
use dsn_ledger::Opened;
use dsn_outcome::Letter;
use dsn_report::Site;
use dsn_smtp::Connect;
use dsn_submission::{RefusedLetters, Submitter};
use dsn_text::MtaName;
use std::alloc::Global;
use std::sync::Wait;
use std::thread::Threads;
use std::time::{Clock, Instant};

/// To which mail server the letters of a run are submitted, and for how long.
#[derive(Drop)]
pub struct MailTerms<C, K> {
    /// The mail server.
    pub server: C,
    /// Where letters that are refused for good are kept.
    pub refused: K,
    /// The name that this mail system gives to the server.
    pub name: MtaName,
    /// After how many milliseconds a letter that was put off is given up.
    pub give_up: u64,
    /// When the run began.
    pub began: Instant,
}

/// How a run ended that submitted its letters.
#[derive(Drop)]
pub struct Submitted<'s, S: Stream, C, K, D, M> {
    /// The letters that still wait, the server, what keeps refused letters, and the disk of the marks.
    pub left: MailParts<'s, S, C, K, M>,
    /// The exit status.
    pub status: u8,
    /// The disk of the journal, as the run left it.
    pub journal: D,
}

/// Serves these ports as `serve_ports_over` does, but submits the letters to a mail server. A letter
/// is kept as settled once the server accepted it, or once it was refused for good and kept. It begins
/// with the letters from the mark on, which stay in the journal, and submits those that aren't
/// settled; nothing is submitted before the journal is opened. No answer waits for the server.
///
/// Returns what is left of a run that began; otherwise the terms and both disks, and nothing was
/// submitted.
///
/// Of the marks a crash leaves at each moment only letters that are settled: see
/// [`crashes_count_only_settled`](dsn_hand_in::crashes_count_only_settled) and
/// [`only_deeds_settle`](dsn_hand_in::only_deeds_settle).
pub(crate) fn serve_ports_to_server<
    's,
    R: Threads + Wait + Clock + Sync,
    P: Port + Drop + Send,
    S: Stream + Drop + Send,
    C: Connect<S> + Drop + Send,
    K: RefusedLetters + Drop + Send,
    D: Replaceable + Drop,
    M: Replaceable + Drop + Send,
    G: Gate + Sync,
    H: Watch + Sync,
    N: Drain,
>(
    rt: &R,
    alloc: Global,
    site: &'s Site,
    limits: Limits,
    releases: bool,
    ports: Vec<P>,
    terms: MailTerms<C, K>,
    folder: JournalFolder<D, M>,
    gate: &G,
    watch: &H,
    notes: &mut N,
) -> Result<Submitted<'s, S, C, K, D, M>, JournaledEnd<MailTerms<C, K>, D, M>>
    requires asked { All P.may_be_asked ports.items }
    ensures { IsServeToServer D.Disk M.Disk P.Port S.Source S.Drain C.gives K.keeps N.Drain site.now
        (record { limits = limits; releases = releases }) ports.items folder.journal folder.marks
        terms notes.old notes.new result }
{
    let (marks, opened) = match folder.open(alloc, limits) {
        Ok(opened) => opened,
        Err(not) => {
            let NotBegun { code, left } = not;
            let JournalFolder { journal, marks } = left;
            watch.start_failed(code);
            let not = NotStarted {
                code,
                outbox: terms,
                journal,
                marks,
            };
            return Err(write_not_started(alloc, not, notes));
        }
    };
    let count = SharedMarkCount::new(rt);
    let noted = count.note(MarkedLetters::of(&marks));
    let Opened { ledger, letters } = opened;
    let keeper = match begin_ledger(alloc, ledger, &letters, limits, releases, &count, watch) {
        Ok(keeper) => keeper,
        Err(not) => {
            watch.start_failed(not.code);
            let not = NotStarted {
                code: not.code,
                outbox: terms,
                journal: not.left,
                marks: marks.into_disk(),
            };
            return Err(write_not_started(alloc, not, notes));
        }
    };
    let outlet = new_outlet(rt, alloc, site, terms, marks, &count, noted, watch);
    let start = JournalStart { outlet, keeper };
    let (end, journal) = run_mail(rt, alloc, start, letters, ports, gate, watch, notes);
    Ok(Submitted::of(end, journal))
}

/// Serves these ports over what was begun, and submits the letters by this outlet, these first.
// An outlet may be sent to a thread if its parts may be, which are bounds here.
fn run_mail<
    's,
    'r,
    R: Threads + Wait + Clock + Sync,
    P: Port + Drop + Send,
    S: Stream + Drop + Send,
    C: Connect<S> + Drop + Send,
    K: RefusedLetters + Drop + Send,
    M: dsn_submission::Marks + Drop + Send,
    W: Submissions + Drop + Send,
    Q: Clock + Sync,
    D: Replaceable + Drop,
    T: MarkCount + Drop + Send,
    G: Gate + Sync,
    V: Observer + Drop,
    N: Drain,
>(
    rt: &R,
    alloc: Global,
    start: JournalStart<MailOutlet<'s, 'r, S, C, K, M, W, Q>, D, T>,
    first: Vec<Letter>,
    ports: Vec<P>,
    gate: &G,
    observer: V,
    notes: &mut N,
) -> (ServeEnd<MailParts<'s, S, C, K, M>>, D)
    requires asked { All P.may_be_asked ports.items }
    requires few { start.keeper.base + start.keeper.book.book.sealed < 2 ^ 63 }
    requires begins { (before : List Exchange)
        × BeginsWith (ledger_keeper D.Disk) start.keeper before }
    ensures { (given : Mailing S C K M)
        × (Passes S.Source S.Drain C.gives K.keeps M.Marks start.entry.outlet first.items given
        × IsRunOver D.Disk T.may_reach P.Port
        (mail_outlet S.Source S.Drain C.gives K.keeps M.Marks) N.Drain ports.items
        start.entry.keeper given notes.old notes.new result.0 result.1) }
{
    let JournalStart { outlet, keeper } = start;
    let outlet = hand_first(outlet, first);
    let start = JournalStart { outlet, keeper };
    run_over(rt, alloc, start, ports, gate, observer, notes)
}

/// An outlet to which no letter was passed. Requires that the count was notified of the mark.
fn new_outlet<
    's,
    'r,
    R: Clock,
    S: Stream + Drop,
    C: Connect<S> + Drop,
    K: RefusedLetters + Drop,
    M: Replaceable + Drop,
    N: MarkCount + Drop,
    H: Watch,
>(
    rt: &'r R,
    alloc: Global,
    site: &'s Site,
    terms: MailTerms<C, K>,
    marks: Marks<M>,
    count: N,
    noted: Noted,
    watch: &'r H,
) -> MailOutlet<'s, 'r, S, C, K, JournalMarks<M, N>, WatchedSubmissions<'r, H>, R>
    requires { noted ≡ marks.mark }
    ensures { result ≡ mail_start site.now terms.name terms.give_up marks.mark terms.server terms.refused
        marks }
{
    let MailTerms {
        server,
        refused,
        name,
        give_up,
        began,
    } = terms;
    let parts = MailParts {
        submitter: Submitter::new(alloc, name, marks.mark(), give_up),
        server,
        refused,
        marks: JournalMarks::new(alloc, marks, count, noted),
    };
    MailOutlet::new(
        site,
        parts,
        WatchedSubmissions::new(watch),
        RunClock::new(rt, began),
    )
}

impl<'s, S: Stream, C, K, D, M: Replaceable> Submitted<'s, S, C, K, D, M> {
    /// The end of a run whose marks are kept so, with the disk of its journal.
    fn of<N: Drop>(
        end: ServeEnd<MailParts<'s, S, C, K, JournalMarks<M, N>>>,
        journal: D,
    ) -> Submitted<'s, S, C, K, D, M>
        ensures left { result.left ≡ with_disk end.entry.outbox }
        ensures status { result.status ≡ end.entry.status }
        ensures journal { result.journal ≡ journal }
    {
        let ServeEnd { outbox, status } = end;
        let MailParts {
            submitter,
            server,
            refused,
            marks,
        } = outbox;
        Submitted {
            left: MailParts {
                submitter,
                server,
                refused,
                marks: marks.into_marks().into_disk(),
            },
            status,
            journal,
        }
    }
}
