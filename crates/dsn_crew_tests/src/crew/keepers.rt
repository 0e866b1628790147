//! A crew over a keeper that refuses a request for want of room: the run ends with 45, and the keeper
//! comes back. A crew over a ledger: what a crash leaves at each moment of it.
ghost use Rattle.std.specs.Prelude.{◌^◌, ◌<◌, ◌≤◌, List};
ghost use Rattle.dsn_crew.specs.KeeperHistory.{BeginsWith};
ghost use Rattle.dsn_fakes.specs.MemoryDisk.{memory_moment};
ghost use Rattle.dsn_outcome.specs.History.{Exchange};

use super::client::{ClientPort, only_port};
use super::frames::frames_of;
use crate::assert_same::same;
use crate::bodies::Kind;
use crate::ledgers::{open_disk, outcomes_on};
use crate::refusing::Refusing;
use dsn_book::{Book, Keeper, Limits, NotKept};
use dsn_crew::{Account, CrewCause, CrewFault, NoGate, run_crew_over};
use dsn_device::{Drain, Plain};
use dsn_fakes::MemoryDisk;
use dsn_journal::SharedMarkCount;
use dsn_ledger::{KeptBook, ledgers_have_earlier_histories, ledgers_have_one_history};
use dsn_report::{Outgoing, Site};
use std::alloc::Global;
use std::sync::Wait;
use std::test::Fail;
use std::thread::Threads;
use std::time::Clock;

/// Why a request is not kept for which there is no room.
const NO_ROOM: CrewCause = CrewCause::Unkept(NotKept::Full);

/// Two appends to one log, over one connection.
const TWO_APPENDS: [(Kind, [u8; 2]); 2] = [(Kind::Append, *b"K1"); 2];

/// Why a run ended with a fault, if it did, and the keeper that it returned.
pub(super) type Ended<B> = (Option<CrewCause>, Option<B>);

/// Runs a crew over these ports and this keeper, whose outbox is written here.
// The outbox is of any type, since one of a given type isn't seen to be one for another thread.
pub(super) fn run_ports<R: Threads + Wait + Clock + Sync, B: Keeper + Drop, W: Drain + Drop + Send>(
    rt: &R,
    alloc: Global,
    keeper: B,
    ports: Vec<ClientPort<'_>>,
    site: Site,
    written: W,
) -> Ended<B>
    requires few { B.sealed keeper < 2 ^ 63 }
    requires begins { (before : List Exchange) × BeginsWith B.Keeper keeper before }
{
    let outgoing = Outgoing::new(site, written);
    match run_crew_over(rt, alloc, keeper, ports, outgoing, &NoGate) {
        Ok(Account { book, .. }) => (None, Some(book)),
        Err(CrewFault { cause, book, .. }) => (Some(cause), book),
    }
}

/// Runs a crew of one agent, who appends twice to one log.
fn run_keeper<R: Threads + Wait + Clock + Sync, B: Keeper + Drop>(
    rt: &R,
    alloc: Global,
    keeper: B,
) -> Result<(Option<CrewCause>, B), Fail>
    requires few { B.sealed keeper < 2 ^ 63 }
    requires begins { (before : List Exchange) × BeginsWith B.Keeper keeper before }
{
    let frames = frames_of(alloc, &TWO_APPENDS)?;
    let ports = only_port(alloc, &frames)?;
    let site = Site::new(alloc, b"mx.example.net")?;
    let (cause, keeper) = run_ports(rt, alloc, keeper, ports, site, Plain::new(Vec::new(alloc)));
    Ok((cause, keeper.ok_or("nothing is handed back")?))
}

/// The result of a crew over a keeper that keeps one request and no more.
fn run_refusing<R: Threads + Wait + Clock + Sync>(
    rt: &R,
    alloc: Global,
) -> Result<(Option<CrewCause>, Refusing), Fail> {
    let limits = Limits::new(8, 8, 8).ok_or("limits")?;
    let book = Book::new(alloc, limits)?;
    run_keeper(rt, alloc, Refusing { book, left: 1 })
}

#[test]
fn refused_request_ends_a_crew(rt: HostRuntime) -> Result<(), Fail> {
    let (cause, keeper) = run_refusing(&rt, rt.alloc())?;
    same(&rt, (cause, keeper.left), (Some(NO_ROOM), 0));
    Ok(())
}

/// The result of a crew over a ledger on a new disk of `size` bytes, and the disk.
fn run_over_disk<R: Threads + Wait + Clock + Sync>(
    rt: &R,
    alloc: Global,
    size: usize,
) -> Result<(Option<CrewCause>, MemoryDisk), Fail> {
    let disk = MemoryDisk::new(alloc, vec![in alloc; 0; size]?);
    let ledger = open_disk(alloc, disk).ok_or("not opened")?;
    if !ledger.is_settled() || ledger.base() > 0 || ledger.book().sealed() > 1_000 {
        return Err(Fail::from("not new"));
    }
    ledgers_have_one_history();
    ledgers_have_earlier_histories();
    let marks = SharedMarkCount::new(rt);
    let keeper = KeptBook::new(alloc, ledger, &marks);
    let (cause, left) = run_keeper(rt, alloc, keeper)?;
    Ok((cause, left.into_ledger().into_disk()))
}

/// How many outcomes a crash leaves at this moment, which loses what these bits say.
fn outcomes_after(alloc: Global, disk: &MemoryDisk, moment: usize, lost: u64) -> Result<usize, Fail>
    requires { moment ≤ memory_moment disk.now }
{
    let bytes = disk.crashed(moment, lost)?;
    let left = outcomes_on(alloc, MemoryDisk::new(alloc, bytes)).ok_or("not opened")?;
    Ok(left as usize)
}

// At each moment of a run a crash leaves the first of the requests, and never fewer later on.
#[test]
fn crash_leaves_the_first_of_what_a_crew_took(rt: HostRuntime) -> Result<(), Fail> {
    let alloc = rt.alloc();
    let (cause, disk) = run_over_disk(&rt, alloc, 192)?;
    same(&rt, cause, None);
    let mut met = [false; 3];
    for lost in [0u64, u64::MAX, 0x5555_5555_5555_5555] {
        let mut before = 0usize;
        for moment in 0..disk.moment() {
            let left = outcomes_after(alloc, &disk, moment, lost)?;
            if left < before || left >= met.len() {
                return Err(Fail::from("not the first of them"));
            }
            met[left] = true;
            before = left;
        }
    }
    let last = outcomes_after(alloc, &disk, disk.moment(), u64::MAX)?;
    same(&rt, (last, met), (2, [true; 3]));
    Ok(())
}
