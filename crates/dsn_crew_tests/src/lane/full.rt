//! A lane that is full makes a send wait.
ghost use Rattle.std.specs.Prelude.{◌≡◌, ◌≤◌};

use crate::assert_same::same;
use crate::lane::hands::{last_half, opened};
use crate::lane::item::{Item, send_next};
use dsn_crew::LaneIn;
use std::alloc::Global;
use std::sync::Wait;
use std::sync::atomic::{AtomicU64, Ordering};
use std::test::Fail;
use std::thread;
use std::thread::Threads;
use std::time::{Clock, Duration};

/// Sends `more` items of agent 0, and counts those that are through.
fn send_counted(rt: &impl Wait, half: &mut LaneIn<Item>, through: &AtomicU64, more: u32) -> bool
    requires { half.old.agent ≡ 0 }
{
    for _ in 0..more {
        if !send_next(rt, half, 0) {
            return false;
        }
        through.fetch_add(1, Ordering::SeqCst);
    }
    true
}

/// Waits until `count` items are through, at most ten seconds. Returns how many are.
fn wait_for(rt: &impl Clock, through: &AtomicU64, count: u64) -> u64 {
    for _ in 0..10_000u32 {
        if through.load(Ordering::SeqCst) >= count {
            break;
        }
        thread::sleep(rt, Duration::from_millis(1));
    }
    through.load(Ordering::SeqCst)
}

/// One send more than the lane holds items: how many are through before anything is taken, and how
/// many once one item is taken.
fn run<R: Threads + Wait + Clock + Sync>(rt: &R, alloc: Global, capacity: u32) -> Option<(u64, u64)>
    requires { (1 ≤ capacity) × (capacity ≤ 16384) }
{
    let full = u64::from(capacity);
    let (mut halves, mut out) = opened(rt, alloc, 1, capacity)?;
    let mut half = last_half(&mut halves, &out, 1)?;
    let through = AtomicU64::new(0);
    let through = &through;
    let (sent, seen) = thread::join(
        rt,
        move || -> bool
            requires { half.agent ≡ 0 }
        { send_counted(rt, &mut half, through, capacity.wrapping_add(1)) },
        move || -> Option<(u64, u64)> {
            wait_for(rt, through, full);
            thread::sleep(rt, Duration::from_millis(50));
            let before = through.load(Ordering::SeqCst);
            out.take(rt).ok()?;
            Some((before, wait_for(rt, through, full.wrapping_add(1))))
        },
    );
    if sent { seen } else { None }
}

#[test]
fn full_lane_makes_a_send_wait(rt: HostRuntime) -> Result<(), Fail> {
    for (capacity, seen) in [(3, (3, 4)), (16_384, (16_384, 16_385))] {
        same(&rt, run(&rt, rt.alloc(), capacity), Some(seen));
    }
    Ok(())
}
