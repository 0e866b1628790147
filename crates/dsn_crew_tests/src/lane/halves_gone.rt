//! What comes when a half of a lane is gone.
ghost use Rattle.std.specs.Prelude.{◌≡◌};

use crate::assert_same::same;
use crate::lane::hands::{last_half, opened};
use crate::lane::item::{Item, Sent, send_many};
use dsn_crew::{LaneIn, LaneOut};
use std::alloc::Global;
use std::sync::Wait;
use std::test::Fail;

/// The number of the fault with which a first send of agent 0 ends, and the item that comes back.
fn first_send(rt: &impl Wait, half: &mut LaneIn<Item>) -> Option<(u32, Sent)>
    requires { half.old.agent ≡ 0 }
{
    let item = Item {
        agent: 0,
        number: 0,
    };
    if half.count() > 0 {
        return None;
    }
    let lost = half.send(rt, item).err()?;
    Some((lost.code(), (lost.item.agent, lost.item.number)))
}

/// The result of a send once the receiving half has left.
fn send_after_leave(rt: &impl Wait, alloc: Global) -> Option<(u32, Sent)> {
    let (mut halves, out) = opened(rt, alloc, 1, 1)?;
    let mut half = last_half(&mut halves, &out, 1)?;
    out.leave();
    first_send(rt, &mut half)
}

#[test]
fn send_to_a_lane_that_was_left_is_lost(rt: HostRuntime) -> Result<(), Fail> {
    let lost = send_after_leave(&rt, rt.alloc());
    same(&rt, lost, Some((41, (0, 0))));
    Ok(())
}

/// What a take answers: the item, or the number of the fault.
fn take(rt: &impl Wait, out: &mut LaneOut<Item>) -> Result<Sent, u32> {
    match out.take(rt) {
        Ok(item) => Ok((item.agent, item.number)),
        Err(end) => Err(end.code()),
    }
}

/// The receiving half of a lane whose sending halves are gone, of which one has sent two items.
fn without_halves(rt: &impl Wait, alloc: Global) -> Option<LaneOut<Item>> {
    let (mut halves, out) = opened(rt, alloc, 2, 4)?;
    let mut half = last_half(&mut halves, &out, 2)?;
    send_many(rt, &mut half, 1, 2).then_some(out)
}

#[test]
fn take_after_all_halves_gives_what_waits_and_then_the_end(rt: HostRuntime) -> Result<(), Fail> {
    let mut out = without_halves(&rt, rt.alloc()).ok_or("a lane")?;
    for taken in [Ok((1, 0)), Ok((1, 1)), Err(41)] {
        same(&rt, take(&rt, &mut out), taken);
    }
    Ok(())
}
