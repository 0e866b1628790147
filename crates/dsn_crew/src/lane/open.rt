//! A lane, from its first step on.
//! The leave to wait is passed to what opens and closes a lane too, though neither waits: their
//! contracts hold if they return.
ghost use Rattle.std.specs.Prelude.{◌≡◌, ◌+◌, ◌≤◌, [], IfOk, vec_capacity};
ghost use Rattle.crossbeam_channel.specs.Claims.{view, IsSeatAt};
ghost use Rattle.crossbeam_channel.specs.Ends.{sends_on};
ghost use Rattle.dsn_crew.specs.inner.Halves.{capacity_of, passed_over};
ghost use Rattle.dsn_crew.specs.lane.Halves.{fresh_halves};
ghost use Rattle.dsn_crew.specs.lane.Lane.{most_agents, most_waiting};
ghost use Rattle.dsn_crew.specs.lane.Step.{opened};

use crate::lane::lane_in::LaneIn;
use crate::lane::lane_knowledge::LaneKnowledge;
use crate::lane::lane_out::LaneOut;
use crate::lane::lane_rule::{CountRoom, LaneRule, SplitOff, TakeBack};
use crossbeam_channel::{Pass, RuledSender, bounded_with};
use dsn_outcome::{Carried, NoMemory};
use std::alloc::Global;
use std::sync::Wait;

/// A lane that holds at most `capacity` items, with a half for each of `agents` agents from
/// `first` on, in their order, and the receiving half. Returns `NoMemory` only if memory is
/// refused.
#[tactic(auto, using(crate::proofs::LaneHalfLemmas::halves_pushed, crate::proofs::lane::RuleLemmas::opens))]
pub fn open_lane<T: Carried>(
    _rt: &impl Wait,
    alloc: Global,
    first: u32,
    agents: u32,
    capacity: u32,
) -> Result<(Vec<LaneIn<T>>, LaneOut<T>), NoMemory>
    requires agents { (1 ≤ agents) × (first + agents ≤ most_agents) }
    requires capacity { (1 ≤ capacity) × (capacity ≤ most_waiting) }
    ensures capacity { IfOk result (λ lane. lane.1.lane.capacity ≡ capacity) }
    ensures halves { IfOk result (λ lane. lane.0.items ≡ fresh_halves lane.1.lane first agents) }
    ensures room { IfOk result (λ lane. agents ≤ vec_capacity lane.0) }
    ensures out { IfOk result
        (λ lane. lane.1
        ≡ record { lane = lane.1.lane; first = first; past = first + agents; taken = [] }) }
{
    let Ok(mut halves) = Vec::with_capacity(alloc, agents as usize) else {
        return Err(NoMemory);
    };
    let Ok((sender, receiver, mut pass)) = bounded_with::<T, LaneKnowledge<T>, LaneRule, Global>(
        alloc,
        capacity as usize,
    ) else {
        return Err(NoMemory);
    };
    count_room(&sender, &mut pass, capacity);
    pass_over(&sender, &mut pass, first);
    for _ in 0..agents {
        halves.push_reserved(LaneIn::split_off(&sender, &mut pass)?);
    }
    Ok((halves, LaneOut::new(receiver, pass)))
}

/// Counts the lane's room: the rule begins without, and has room for one item more in each turn.
#[tactic(auto, using(crate::proofs::LaneHalfLemmas::room_more, crate::proofs::lane::RuleLemmas::rooms))]
fn count_room<T: Carried>(
    sender: &RuledSender<T, LaneKnowledge<T>, LaneRule>,
    pass: &mut Pass<T, LaneKnowledge<T>>,
    capacity: u32,
)
    requires channel { IsSeatAt (sends_on sender.now) pass.old }
    requires receiver { view pass.old ≡ opened }
    ensures channel { IsSeatAt (sends_on sender.now) pass.new }
    ensures receiver { view pass.new ≡ passed_over capacity 0 }
{
    // The rule's first state can't depend on an argument, so the room is counted: at most 16,384
    // loads of a word, once a lane.
    for _ in 0..capacity {
        sender.another::<CountRoom>(pass);
    }
}

/// Passes over the agents below the first: a pass is split off for each, and joined again unused.
#[tactic(auto, using(crate::proofs::LaneHalfLemmas::passed_more, crate::proofs::lane::RuleLemmas::joins, crate::proofs::lane::RuleLemmas::splits))]
fn pass_over<T: Carried>(
    sender: &RuledSender<T, LaneKnowledge<T>, LaneRule>,
    pass: &mut Pass<T, LaneKnowledge<T>>,
    first: u32,
)
    requires channel { IsSeatAt (sends_on sender.now) pass.old }
    requires receiver { view pass.old ≡ passed_over (capacity_of (view pass.old)) 0 }
    ensures channel { IsSeatAt (sends_on sender.now) pass.new }
    ensures receiver { view pass.new ≡ passed_over (capacity_of (view pass.old)) first }
{
    for _ in 0..first {
        let unused = sender.another::<SplitOff>(pass);
        sender.absorb::<TakeBack>(pass, unused);
    }
}
