//! Whole crews over connections in memory, and their results.
use super::client::ClientPort;
use super::hold::{Hold, Until};
use super::outbox::Outbox;
use crate::open_logs::open_logs;
use dsn_book::{Limits, OpenLine};
use dsn_crew::{Account, AgentLine, CrewFault, run_crew};
use dsn_device::Plain;
use dsn_report::Site;
use std::alloc::Global;
use std::sync::Wait;
use std::test::Fail;
use std::thread::Threads;
use std::time::Clock;

/// The result of a run that ended well.
#[derive(Drop)]
pub(super) struct Seen {
    pub(super) agents: Vec<AgentLine>,
    /// How many letters there were, how many of them were not sent, and whether the outbox is whole.
    pub(super) letters: (u32, u64, bool),
    pub(super) open: Vec<OpenLine>,
}

/// What an account says.
fn seen_in<R: Clock>(alloc: Global, account: Account<Plain<Outbox<'_, R>>>) -> Result<Seen, Fail> {
    let Account {
        agents,
        letters,
        unsent,
        whole,
        book,
        ..
    } = account;
    Ok(Seen {
        agents,
        letters: (letters, unsent.len(), whole),
        open: open_logs(alloc, &book)?,
    })
}

/// The result of a crew that serves these ports, with this gate and an outbox that it may hold.
fn run_gated<R: Threads + Wait + Clock + Sync>(
    rt: &R,
    alloc: Global,
    ports: Vec<ClientPort<'_>>,
    hold: &Hold<'_, R>,
) -> Result<Seen, Fail> {
    let outbox = Plain::new(Outbox { hold });
    let site = Site::new(alloc, b"mx.example.net")?;
    let limits = Limits::of_program();
    match run_crew(rt, alloc, site, limits, ports, outbox, hold) {
        Ok(account) => seen_in(alloc, account),
        Err(CrewFault { .. }) => Err(Fail::from("a fault")),
    }
}

/// The same where this is held. It fails where a hold ran out.
pub(super) fn run<R: Threads + Wait + Clock + Sync>(
    rt: &R,
    alloc: Global,
    ports: Vec<ClientPort<'_>>,
    until: Until,
) -> Result<Seen, Fail> {
    let hold = Hold::new(rt, until);
    let seen = run_gated(rt, alloc, ports, &hold)?;
    if hold.ran_out() > 0 {
        return Err(Fail::from("a hold ran out"));
    }
    Ok(seen)
}
