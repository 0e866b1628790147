//! A crew over connections in memory. Standard output gets how the run ended, what each agent did,
//! and the outbox.
ghost use Rattle.std.specs.Prelude.{All};

mod failing;
mod gate;
mod given;
mod outbox;
mod peer;
mod port;
mod show;

use dsn_book::Limits;
use dsn_crew::{Port, run_crew};
use dsn_device::Plain;
use dsn_report::Site;
pub(crate) use failing::{Call, Failing, Failure};
use gate::Answered;
use given::GivenPort;
use outbox::Outbox;
use port::PeerPort;
use show::{show_account, show_fault};
use std::alloc::Global;
use std::sync::Wait;
use std::thread::Threads;
use std::time::Clock;

/// The room for the outbox, in bytes: the notice of a few outcomes takes no memory beyond it.
const ROOM: usize = 65_536;

/// Runs a crew of the given number of agents over connections that ask.
pub(crate) fn run_peers<R: Threads + Wait + Clock + Print + Sync>(
    rt: &R,
    alloc: Global,
    agents: u32,
    requests: u32,
) -> Option<()> {
    let failing = Failing::new(Call::Read, 0, Failure::Error);
    let mut ports = Vec::with_capacity(alloc, 17).ok()?;
    for agent in 0..agents.min(17) {
        ports.push(PeerPort::new(agent, requests)).ok()?;
    }
    run(rt, alloc, ports, &failing)
}

/// Runs a crew of one agent over the connections whose bytes are given.
pub(crate) fn run_given<R: Threads + Wait + Clock + Print + Sync>(
    rt: &R,
    alloc: Global,
    sent: &[u8],
    most: usize,
    failing: &Failing,
) -> Option<()> {
    let mut ports = Vec::with_capacity(alloc, 1).ok()?;
    ports.push_reserved(GivenPort {
        rt,
        rest: sent,
        most,
        failing,
    });
    run(rt, alloc, ports, failing)
}

/// Runs a crew over these ports, and shows the result. Returns `None` if the memory to begin was
/// refused, or if a line can't be written.
fn run<R: Threads + Wait + Clock + Print + Sync, P: Port + Drop + Send>(
    rt: &R,
    alloc: Global,
    ports: Vec<P>,
    failing: &Failing,
) -> Option<()>
    requires asked { All P.may_be_asked ports.items }
{
    let site = Site::new(alloc, b"mx.example.net").ok()?;
    let text = Vec::with_capacity(alloc, ROOM).ok()?;
    let outbox = Plain::new(Outbox { text, failing });
    let answered = Answered::new();
    let limits = Limits::of_program();
    match run_crew(rt, alloc, site, limits, ports, outbox, &answered) {
        Ok(account) => show_account(rt, account, answered.count()),
        Err(fault) => show_fault(rt, fault, answered.count()),
    }
}
