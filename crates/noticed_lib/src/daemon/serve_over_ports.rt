//! The run of the daemon over any ports.
ghost use Rattle.std.specs.Prelude.{◌≡◌, ◌≤◌, [], All, IfErr, IfOk};
ghost use Rattle.dsn_book.specs.RuledBook.{book_of, book_rules, has_by_rules};
ghost use Rattle.dsn_crew.specs.Crew.{most_ports};
ghost use Rattle.noticed_lib.specs.daemon.Serve.{IsServe};
ghost use Rattle.noticed_lib.specs.inner.Daemon.{HasNoPorts};

use crate::daemon::observer::Observer;
use crate::daemon::run_notes::{write_account, write_fault};
use crate::daemon::serve_end::ServeEnd;
use crate::daemon::watched_keeper::Watched;
use dsn_book::{Limits, RuledBook};
use dsn_crew::{CrewCause, CrewFault, Gate, Port, run_crew_over};
use dsn_device::Drain;
use dsn_outcome::Letters;
use dsn_report::{Outgoing, Site};
use std::alloc::Global;
use std::sync::Wait;
use std::thread::Threads;
use std::time::Clock;

/// The largest number of ports.
const MOST_PORTS: usize = 16;

/// Serves these ports by a crew, as [`run_crew_over`] does, which posts a notice of each sealed log
/// to `outbox`. Closed keys make room for new ones if `releases` is true. The observer hears of
/// each request that was carried out. Requires that each port may be asked, which holds for every
/// port that doesn't say when it can be.
///
/// Then it writes to `notes` what each agent did, and how the run ended: a port that failed (61),
/// an outbox that failed (31), and which letters were not written. It also writes which logs are
/// open, or that their list found no memory (9). If the crew ends with a fault (41, 42, 43) it
/// writes the number and the letters alone. Nothing is written once a line could not be written.
pub(crate) fn serve_ports<
    R: Threads + Wait + Clock + Sync,
    P: Port + Drop + Send,
    W: Drain + Drop + Send,
    G: Gate + Sync,
    O: Observer + Drop,
    N: Drain,
>(
    rt: &R,
    alloc: Global,
    site: Site,
    limits: Limits,
    releases: bool,
    ports: Vec<P>,
    outbox: W,
    gate: &G,
    observer: O,
    notes: &mut N,
) -> ServeEnd<W>
    requires asked { All P.may_be_asked ports.items }
    ensures { IsServe P.Port W.Drain N.Drain site
        (record { limits = limits; releases = releases }) ports.items outbox notes.old notes.new
        result }
{
    let book = match empty_book(alloc, limits, releases, ports.len()) {
        Ok(book) => Watched::new(book, observer),
        Err(cause) => {
            return write_fault(alloc, cause.code(), outbox, Letters::new(), notes);
        }
    };
    match run_crew_over(rt, alloc, book, ports, Outgoing::new(site, outbox), gate) {
        Ok(account) => write_account(alloc, account, notes),
        Err(fault) => {
            let CrewFault {
                cause,
                outbox,
                unsent,
                ..
            } = fault;
            write_fault(alloc, cause.code(), outbox, unsent, notes)
        }
    }
}

/// An empty book for a crew of this number of ports. Returns `PortCount` if they are not 1 to 16,
/// before any memory is taken, and `Refused` if memory is refused.
fn empty_book(
    alloc: Global,
    limits: Limits,
    releases: bool,
    ports: usize,
) -> Result<RuledBook, CrewCause>
    ensures rules { IfOk result
        (λ book. book_rules book ≡ record { limits = limits; releases = releases }) }
    ensures empty { IfOk result (λ book. has_by_rules book [] × ((book_of book).sealed ≡ 0)) }
    ensures count { IfOk result (λ _. (1 ≤ ports) × (ports ≤ most_ports)) }
    ensures refused { IfErr result (HasNoPorts ports) }
{
    if !(1..=MOST_PORTS).contains(&ports) {
        return Err(CrewCause::PortCount);
    }
    match RuledBook::new(alloc, limits, releases) {
        Ok(book) => Ok(book),
        Err(_) => Err(CrewCause::Refused),
    }
}
