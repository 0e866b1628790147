//! A whole crew, from its first thread to its last.
ghost use Rattle.std.specs.Prelude.{◌≡◌, ◌≢◌, ◌≤◌, ◌<◌, ◌^◌, ◌↔◌, ◌⊎◌, List, [], All, length, IfErr, IfOk, IfSome};
ghost use Rattle.dsn_book.specs.Book.{Represents};
ghost use Rattle.dsn_book.specs.declared.not_kept.NotKept.{NotKept};
ghost use Rattle.dsn_outcome.specs.History.{Exchange, history_of};
ghost use Rattle.dsn_crew.specs.Crew.{IsAccount, IsCrewFault, IsCrewRun, most_ports};
ghost use Rattle.dsn_crew.specs.KeeperHistory.{BeginsWith};
ghost use Rattle.dsn_crew.specs.inner.CrewRun.{MayRun};

use crate::agent_memory::AgentMemory;
use crate::agents::{Gate, Port};
use crate::breach::Breach;
use crate::broken_off::collect;
use crate::conclude::conclude;
use crate::crew_account::Account;
use crate::crew_cause::CrewCause;
use crate::crew_fault::CrewFault;
use crate::crew_memory::CrewMemory;
use crate::gathered::gather;
use crate::post::{Outlet, end_posting, start_posting};
use crate::start_serving::{count_missing, join_all, start_all};
use dsn_book::{Book, Keeper, Limits};
use dsn_device::Drain;
use dsn_report::{Outgoing, Site};
use std::alloc::Global;
use std::sync::Wait;
use std::thread;
use std::thread::{Scope, Threads};
use std::time::Clock;

/// The largest number of ports.
const MOST_PORTS: usize = 16;

/// Runs a crew: one agent for each port, each on a thread of its own; the collector, on this
/// thread; and a poster, on a thread of its own. An agent serves its port's connections until the
/// port is done, and then says goodbye. The poster writes a notice of each letter while requests
/// are taken.
///
/// Returns `PortCount` (43) if there are not 1 to 16 ports, before anything else. Returns `Refused`
/// (42) if memory or the poster's thread is refused, before any agent is started and with nothing
/// written. Returns `Refused` too if an agent's thread is refused, once all other agents were
/// served. Returns `Lost` (41) if the collector, an agent or the poster was gone before its time.
/// An outbox that fails is no fault: the letters from the failed one on are `unsent`.
///
/// Requires that each port may be asked. None is asked again that was done or failed.
pub fn run_crew<
    R: Threads + Wait + Clock + Sync,
    P: Port + Drop + Send,
    W: Drain + Drop + Send,
    G: Gate + Sync,
>(
    rt: &R,
    alloc: Global,
    site: Site,
    limits: Limits,
    ports: Vec<P>,
    outbox: W,
    gate: &G,
) -> Result<Account<W>, CrewFault<W>>
    requires asked { All P.may_be_asked ports.items }
    ensures account { IfOk result (IsAccount P.Port W.Drain site limits ports.items outbox) }
    ensures count { IfOk result
        (λ _. (1 ≤ length ports.items) × (length ports.items ≤ most_ports)) }
    ensures fault { IfErr result
        (λ fault. IsCrewFault W.Drain site limits (length ports.items) outbox fault fault.cause) }
    ensures refused { IfErr result
        (λ fault. (fault.cause ≡ CrewCause.PortCount)
        ↔ ((length ports.items ≡ 0) ⊎ (most_ports < length ports.items))) }
    ensures kept { IfErr result (λ fault. (why : NotKept) → fault.cause ≢ CrewCause.Unkept why) }
    ensures book { IfErr result (λ fault. IfSome fault.book
        (λ book. (book.limits ≡ limits) × Represents book (history_of limits fault.taken))) }
{
    match empty_book(alloc, limits, ports.len()) {
        Ok(book) => run_crew_over(rt, alloc, book, ports, Outgoing::new(site, outbox), gate),
        Err(breach) => Err(CrewFault::unbegun(breach, outbox, None)),
    }
}

/// An empty book for a crew of this number of ports. Returns `PortCount` if they are not 1 to 16,
/// and `Refused` if memory is refused.
fn empty_book(alloc: Global, limits: Limits, ports: usize) -> Result<Book, Breach>
    ensures limits { IfOk result (λ book. book.limits ≡ limits) }
    ensures empty { IfOk result (λ book. (Represents book []) × (book.sealed ≡ 0)) }
    ensures count { IfOk result (λ _. (1 ≤ ports) × (ports ≤ most_ports)) }
    ensures refused { IfErr result (λ breach. ((breach ≡ Breach.PortCount)
        × ((ports ≡ 0) ⊎ (most_ports < ports))) ⊎ ((breach ≡ Breach.Refused)
        × (1 ≤ ports) × (ports ≤ most_ports))) }
{
    if !(1..=MOST_PORTS).contains(&ports) {
        return Err(Breach::PortCount);
    }
    match Book::new(alloc, limits) {
        Ok(book) => Ok(book),
        Err(_) => Err(Breach::Refused),
    }
}

/// Runs a crew as [`run_crew`] does, over a keeper and an outlet. The keeper keeps the requests and
/// carries them out by its rules. The poster passes the letters to the outlet, after those that
/// were passed to it before. As many letters as the outlet has room for may wait for the poster.
///
/// If the rules say so, the keeper releases closed keys to make room. The history of the run then
/// has these requests of the keeper's own, exactly where `history_under` says. They answer no agent
/// and seal no letter; `taken` has the agents' requests alone.
///
/// Requests that wait are kept together, up to 16. If that took half a millisecond or more, the
/// agents of the group are awaited for the next, for half that time and at most 10 ms. Beside the
/// errors of [`run_crew`], it returns `Unkept` (45) if requests were not kept. Then none of them is
/// carried out or answered, nor is any later request. A fault returns the keeper.
///
/// After a crash at any moment of the run, a later run reopens to the history with a prefix of the
/// requests that were taken, and to no other. Each request is in that prefix before its answer is
/// sent. Requires that fewer than 2^63 letters were sealed before, that there is a history to begin
/// with, after which no kept request waits, and that no letter is unsent.
pub fn run_crew_over<
    R: Threads + Wait + Clock + Sync,
    B: Keeper + Drop,
    P: Port + Drop + Send,
    O: Outlet + Drop + Send,
    G: Gate + Sync,
>(
    rt: &R,
    alloc: Global,
    book: B,
    ports: Vec<P>,
    outlet: O,
    gate: &G,
) -> Result<Account<O::Left, B>, CrewFault<O::Left, B>>
    requires asked { All P.may_be_asked ports.items }
    requires few { B.sealed book < 2 ^ 63 }
    requires begins { (before : List Exchange) × BeginsWith B.Keeper book before }
    requires all_sent { O.unsent outlet ≡ 0 }
    ensures run { IsCrewRun B.Keeper P.Port O.Outlet book ports.items outlet result }
    ensures count { IfOk result
        (λ _. (1 ≤ length ports.items) × (length ports.items ≤ most_ports)) }
    ensures refused { IfErr result
        (λ fault. (fault.cause ≡ CrewCause.PortCount)
        ↔ ((length ports.items ≡ 0) ⊎ (most_ports < length ports.items))) }
{
    let agents = ports.len();
    if agents == 0 || agents > MOST_PORTS {
        return Err(CrewFault::unbegun(Breach::PortCount, outlet.into_left(), Some(book)));
    }
    thread::scope(
        thread::scope_env(),
        rt,
        move |scope| -> Result<Account<O::Left, B>, CrewFault<O::Left, B>>
            requires { MayRun B.Keeper P.Port O.Outlet book ports.items outlet }
        { run_in(scope, rt, alloc, book, ports, outlet, gate) },
    )
}

/// Runs a crew on threads of this scope.
fn run_in<
    's,
    E: 's,
    R: Threads + Wait + Clock + Sync,
    B: Keeper + Drop,
    P: Port + Drop + Send + 's,
    O: Outlet + Drop + Send + 's,
    G: Gate + Sync,
>(
    scope: &Scope<'s, E>,
    rt: &'s R,
    alloc: Global,
    book: B,
    ports: Vec<P>,
    outlet: O,
    gate: &'s G,
) -> Result<Account<O::Left, B>, CrewFault<O::Left, B>>
    requires { MayRun B.Keeper P.Port O.Outlet book ports.items outlet }
    ensures run { IsCrewRun B.Keeper P.Port O.Outlet book ports.items outlet result }
    ensures counted { IfErr result (λ fault. fault.cause ≢ CrewCause.PortCount) }
{
    let room = match CrewMemory::take(rt, alloc, book, ports.len() as u32, outlet.room()) {
        Ok(room) => room,
        Err(book) => {
            return Err(CrewFault::unbegun(Breach::Refused, outlet.into_left(), Some(book)));
        }
    };
    let CrewMemory {
        agents,
        mut desk,
        sink,
        source,
        slots,
    } = room;
    let (mut sink, poster) = match start_posting(scope, rt, outlet, sink, source) {
        Ok(started) => started,
        Err(left) => {
            return Err(CrewFault::unbegun(Breach::Refused, left, Some(desk.into_book())));
        }
    };
    let AgentMemory {
        handles,
        ends,
        lines,
        finished,
    } = slots;
    let handles = start_all(scope, rt, alloc, agents, ports, handles, gate);
    desk.miss(count_missing(&handles) as u32);
    let collected = collect(rt, desk, &mut sink);
    let gathered = gather(join_all(rt, handles, ends), lines, finished);
    let posted = end_posting(rt, sink, poster);
    conclude(rt, collected, gathered, posted)
}
