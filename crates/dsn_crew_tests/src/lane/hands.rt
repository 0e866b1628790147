//! The halves of a lane, taken out of their list from the last agent's on.
ghost use Rattle.std.specs.Prelude.{◌≡◌, ◌-◌, ◌<◌, ◌≤◌, IfSome};
ghost use Rattle.dsn_crew.specs.lane.Halves.{fresh_halves};

use crate::lane::item::Item;
use dsn_crew::{LaneIn, LaneOut, open_lane};
use std::alloc::Global;
use std::sync::Wait;

/// A lane of the given number of agents, the first of which is 0.
pub(crate) fn opened(
    rt: &impl Wait,
    alloc: Global,
    agents: u32,
    capacity: u32,
) -> Option<(Vec<LaneIn<Item>>, LaneOut<Item>)>
    requires agents { (1 ≤ agents) × (agents ≤ 16) }
    requires capacity { (1 ≤ capacity) × (capacity ≤ 16384) }
    ensures halves { IfSome result (λ lane. lane.0.items ≡ fresh_halves lane.1.lane 0 agents) }
    ensures out { IfSome result (λ lane. (lane.1.first ≡ 0) × (lane.1.past ≡ agents)) }
{
    open_lane(rt, alloc, 0, agents, capacity).ok()
}

/// Takes the last of the `left` halves that are left, none of which has sent anything.
pub(crate) fn last_half(
    halves: &mut Vec<LaneIn<Item>>,
    out: &LaneOut<Item>,
    left: u32,
) -> Option<LaneIn<Item>>
    requires some { 0 < left }
    requires left { halves.old.items ≡ fresh_halves out.now.lane 0 left }
    ensures rest { IfSome result (λ _. halves.new.items ≡ fresh_halves out.now.lane 0 (left - 1)) }
    ensures last { IfSome result (λ half. (half.lane ≡ out.now.lane) × (half.agent ≡ left - 1)) }
{
    let _ = out;
    let half = halves.pop()?;
    Some(half)
}
