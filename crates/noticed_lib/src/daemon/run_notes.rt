//! The notes of a run, and its exit status.
ghost use Rattle.std.specs.Prelude.{◌≡◌, true, List, []};
ghost use Rattle.std.specs.List.{list_any};
ghost use Rattle.dsn_book.specs.Book.{Represents};
ghost use Rattle.dsn_book.specs.RuledBook.{book_of};
ghost use Rattle.dsn_device.specs.UntilFailure.{WritesUntilFailure};
ghost use Rattle.dsn_outcome.specs.History.{Exchange};
ghost use Rattle.dsn_ledger.specs.OpenLedger.{AwaitsRequests};
ghost use Rattle.noticed_lib.specs.daemon.AgentLines.{agent_lines, port_fault};
ghost use Rattle.noticed_lib.specs.daemon.Journaled.{IsForgottenIn};
ghost use Rattle.noticed_lib.specs.daemon.Serve.{WritesAccount, WritesNumber};
ghost use Rattle.noticed_lib.specs.inner.Daemon.{WritesRun};

use crate::daemon::agent_lines::agent_line;
use crate::daemon::journal_start::NotStarted;
use crate::daemon::journaled_end::JournaledEnd;
use crate::daemon::observer::Observer;
use crate::daemon::serve_end::ServeEnd;
use crate::daemon::watched_keeper::Watched;
use dsn_book::{Book, RuledBook};
use dsn_crew::{Account, AgentLine};
use dsn_device::{Drain, UntilFailure};
use dsn_journal::{MarkCount, Replaceable};
use dsn_ledger::KeptBook;
use dsn_notes::{status_of, write_last_lines};
use dsn_outcome::Letters;
use dsn_text::fault_code;
use std::alloc::Global;

/// Writes what each agent did, and how the run ended.
pub(crate) fn write_account<W: Drop, O: Observer + Drop, N: Drain>(
    alloc: Global,
    account: Account<W, Watched<RuledBook, O>>,
    notes: &mut N,
) -> ServeEnd<W>
    ensures { (history : List Exchange) → Represents (book_of account.book) history
        → WritesAccount N.Drain history account notes.old notes.new result }
{
    let Account {
        agents,
        unsent,
        whole,
        outbox,
        book,
        ..
    } = account;
    let book = book.into_keeper();
    let status = write_run(alloc, agents.as_slice(), whole, unsent, book.book(), notes);
    ServeEnd { outbox, status }
}

/// Writes the same of a run over a journal. Then the journal forgets the closed keys, as a run
/// without a journal does when it ends. If it can't, they stay closed, and nothing is lost: so no
/// note says so. Returns the run's end, and the journal's disk.
///
/// At each moment a crash leaves the history of the journal's ledger, with the first of the requests
/// that release the keys. Requires that the ledger awaits no request.
pub(crate) fn write_kept_account<
    L: Drop,
    D: Replaceable + Drop,
    C: MarkCount + Drop,
    O: Observer + Drop,
    N: Drain,
>(alloc: Global, account: Account<L, Watched<KeptBook<D, C>, O>>, notes: &mut N) -> (ServeEnd<L>, D)
    requires none { account.book.settled ≡ true → AwaitsRequests D.Disk account.book [] }
    ensures notes { (history : List Exchange) → Represents account.book.book.book history
        → WritesAccount N.Drain history account notes.old notes.new result.0 }
    ensures outbox { result.0.outbox ≡ account.outbox }
    ensures crash { IsForgottenIn D.Disk account.book result.1 }
{
    let Account {
        agents,
        unsent,
        whole,
        outbox,
        book,
        ..
    } = account;
    let mut ledger = book.into_keeper().into_ledger();
    let status = write_run(
        alloc,
        agents.as_slice(),
        whole,
        unsent,
        ledger.book(),
        notes,
    );
    // Only at a clean end, when no request is in hand. After a crash a client asks again, and a key
    // that was forgotten would make a second notice.
    drop(ledger.forget_closed(alloc));
    (ServeEnd { outbox, status }, ledger.into_disk())
}

/// Writes what each of these agents did, whether the outbox is whole, these letters, and the logs
/// that the book has open. Returns the exit status.
fn write_run<N: Drain>(
    alloc: Global,
    agents: &[AgentLine],
    whole: bool,
    unsent: Letters,
    book: &Book,
    notes: &mut N,
) -> u8
    ensures { (history : List Exchange) → Represents book.now history
        → WritesRun N.Drain history agents.now whole unsent notes.old notes.new result }
{
    let logs = book.open_lines(alloc);
    let mut writing = UntilFailure::new();
    write_agents(notes, &mut writing, agents);
    let fault = port_fault(agents);
    drop(write_last_lines(notes, &mut writing, fault, whole, unsent, &logs));
    status_of(writing.failed, fault, whole, logs.is_ok())
}

/// Writes the number of a fault, and the letters that were not written.
pub(crate) fn write_fault<W, N: Drain>(
    alloc: Global,
    code: u32,
    outbox: W,
    unsent: Letters,
    notes: &mut N,
) -> ServeEnd<W>
    ensures { WritesNumber N.Drain code outbox unsent notes.old notes.new result }
{
    let mut writing = UntilFailure::new();
    // No more than these is written of it, so the outbox goes for whole, and no log for open.
    let no_logs = Ok(Vec::new(alloc));
    let fault = Some(code);
    drop(write_last_lines(notes, &mut writing, fault, true, unsent, &no_logs));
    ServeEnd { outbox, status: 1 }
}

/// Writes the number of the fault for which a run over a journal didn't begin.
pub(crate) fn write_not_started<W, D, M, N: Drain>(
    alloc: Global,
    not: NotStarted<W, D, M>,
    notes: &mut N,
) -> JournaledEnd<W, D, M>
    ensures notes { WritesNumber N.Drain not.code not.outbox [] notes.old notes.new result.end }
    ensures journal { result.journal ≡ not.journal }
    ensures marks { result.marks ≡ not.marks }
{
    let NotStarted {
        code,
        outbox,
        journal,
        marks,
    } = not;
    JournaledEnd {
        end: write_fault(alloc, code, outbox, Letters::new(), notes),
        journal,
        marks,
    }
}

fn write_agents<N: Drain>(notes: &mut N, writing: &mut UntilFailure, agents: &[AgentLine])
    ensures { WritesUntilFailure N.Drain writing.old.failed writing.new.failed notes.old notes.new
        (agent_lines agents.now) }
{
    for (agent, line) in agents.iter().enumerate() {
        writing.write(notes, agent_line(agent, line).as_bytes());
    }
}

/// The number of the fault of the ports, if one of them failed.
fn port_fault(agents: &[AgentLine]) -> Option<u32>
    ensures { result ≡ port_fault agents.now }
{
    if has_failed_port(agents) {
        Some(fault_code::SOCKET)
    } else {
        None
    }
}

/// Whether the port of any agent failed.
fn has_failed_port(agents: &[AgentLine]) -> bool
    ensures { result ≡ list_any (λ line. line.port_failed) agents.now }
{
    agents.iter().any(|line| line.port_failed)
}
