//! The close of a lane.
ghost use Rattle.std.specs.Prelude.{◌≡◌, ◌+◌, ◌<◌, ◌≤◌, List, [], ◌++◌, All, map, length};
ghost use Rattle.std.specs.List.{sum_by};
ghost use mathlib.Core.List.{IsPrefix};
ghost use Rattle.crossbeam_channel.specs.Claims.{view, IsSeatAt};
ghost use Rattle.crossbeam_channel.specs.Ends.{sends_on};
ghost use Rattle.dsn_outcome.specs.Agents.{from_agent};
ghost use Rattle.dsn_crew.specs.declared.lane.lane_knowledge.LaneKnowledge.TheVariants.{Sends, Takes};
ghost use Rattle.dsn_crew.specs.lane.Halves.{IsAccepted};
ghost use Rattle.dsn_crew.specs.inner.Halves.{capacity_of, lane_at, lane_of, sending_of, taking};
ghost use Rattle.dsn_crew.specs.lane.Lane.{most_agents};
ghost use Rattle.dsn_crew.specs.inner.Step.{Settles, after_join, known_after};

use crate::lane::lane_in::LaneIn;
use crate::lane::lane_knowledge::LaneKnowledge;
use crate::lane::lane_lists::LaneLists;
use crate::lane::lane_out::LaneOut;
use crate::lane::lane_rule::{LaneRule, ReadsOff, TakeBack};
use crate::lane::lane_shut::LaneShut;
use crossbeam_channel::{Pass, RuledSender};
use dsn_outcome::Carried;
use std::sync::Wait;

/// Closes a lane, of which it takes the receiving half and all sending halves, in any order. What
/// waits is dropped, and counted.
pub fn close_lane<T: Carried>(
    _rt: &impl Wait,
    halves: Vec<LaneIn<T>>,
    out: LaneOut<T>,
) -> LaneShut<T>
    requires lane { All (λ half. half.lane ≡ out.lane) halves.items }
    requires all { out.first + length halves.items ≡ out.past }
    ensures taken { result.taken ≡ length out.taken }
    ensures waiting { result.taken + result.waiting ≡ sum_by (λ half. length half.sent) halves.items }
    ensures capacity { result.waiting ≤ out.lane.capacity }
    ensures prefix { All (λ half. IsPrefix (from_agent T.agent half.agent out.taken) half.sent)
        halves.items }
    ensures accepted { (waiting : List T) × (length waiting ≡ result.waiting)
        × IsAccepted T.agent T.number halves.items (out.taken ++ waiting) }
    ensures lists { result.lists ≡ record { halves = halves.items; out = out } }
{
    // As many halves as the lane has agents are all of them: a half can't be copied.
    let lists = LaneLists::of(&halves, &out);
    let LaneOut {
        mut pass,
        count: taken,
        ..
    } = out;
    let sent = take_all_back(&mut pass, halves);
    LaneShut {
        taken,
        waiting: sent - taken,
        lists,
    }
}

/// Takes all sending halves back, says how many items they had sent, and reads what waits.
fn take_all_back<T: Carried>(
    pass: &mut Pass<T, LaneKnowledge<T>>,
    mut halves: Vec<LaneIn<T>>,
) -> u64
    requires channel { pass.old.me.1 ≡ [] }
    requires receiver { view pass.old
        ≡ Takes (capacity_of (view pass.old)) (taking (view pass.old)) }
    requires lane { All (λ half. half.lane ≡ lane_of pass.old) halves.items }
    requires count { (0 < length halves.items) × (length halves.items ≤ most_agents) }
    ensures sent { result ≡ sum_by (λ half. length half.sent) halves.items }
    ensures settled { (waiting : List T)
        × Settles T.agent T.number (capacity_of (view pass.old))
        (known_after (taking (view pass.old)) (map sending_of halves.items)) waiting }
{
    let Some(last) = halves.pop() else {
        unreachable!()
    };
    let LaneIn {
        sender,
        pass: own,
        count,
    } = last;
    let mut sent = u64::from(count);
    for half in halves {
        sent += u64::from(take_back(&sender, pass, half));
    }
    sender.absorb::<TakeBack>(pass, own);
    sender.learn_as::<ReadsOff>(pass);
    sent
}

/// Takes a sending half back, and says how many items it had sent.
fn take_back<T: Carried>(
    sender: &RuledSender<T, LaneKnowledge<T>, LaneRule>,
    pass: &mut Pass<T, LaneKnowledge<T>>,
    half: LaneIn<T>,
) -> u32
    requires channel { IsSeatAt (sends_on sender.now) pass.old }
    requires lane { half.lane ≡ lane_at (sends_on sender.now) }
    requires receiver { view pass.old
        ≡ Takes (capacity_of (view pass.old)) (taking (view pass.old)) }
    ensures channel { IsSeatAt (sends_on sender.now) pass.new }
    ensures receiver { view pass.new
        ≡ after_join (view pass.old) (Sends half.lane.capacity (sending_of half)) }
    ensures count { result ≡ length half.sent }
{
    let LaneIn {
        sender: _,
        pass: own,
        count,
    } = half;
    sender.absorb::<TakeBack>(pass, own);
    count
}
