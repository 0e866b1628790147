//! The rule of a lane and the steps on it, as the channel's calls want them. None of these types
//! has a value: they are parameters of the calls' types.

use crate::lane::lane_knowledge::LaneKnowledge;
use crossbeam_channel::protocol::{Join, Lesson, Outcome, Protocol, Split};
use dsn_outcome::Carried;

/// The rule: accepted is taken followed by what waits, each agent's part of it is what that agent
/// sent, and no more waits than the lane's capacity.
pub struct LaneRule;

impl<T: Carried> Protocol<T, LaneKnowledge<T>> for LaneRule {
    ghost use Rattle.dsn_crew.specs.lane.Lane.{IsLane};
    ghost use Rattle.dsn_crew.specs.lane.Step.{opened};

    ghost holds = { IsLane T.agent T.number };

    ghost first = { opened };
}

/// The receiving half counts room for one item more; what is split off is a spent pass.
pub struct CountRoom;

impl<T> Split<LaneKnowledge<T>> for CountRoom {
    ghost use Rattle.dsn_crew.specs.inner.Step.{after_room};
    ghost use Rattle.dsn_crew.specs.declared.lane.lane_knowledge.LaneKnowledge.TheVariants.{Spent};

    ghost left = { after_room };

    ghost right = { λ before. Spent };
}

/// An agent's pass is split off the receiving half's.
pub struct SplitOff;

impl<T> Split<LaneKnowledge<T>> for SplitOff {
    ghost use Rattle.dsn_crew.specs.inner.Step.{after_split, split_off};

    ghost left = { after_split };

    ghost right = { split_off };
}

/// The receiving half takes a sending half back.
pub struct TakeBack;

impl<T> Join<LaneKnowledge<T>> for TakeBack {
    ghost use Rattle.dsn_crew.specs.inner.Step.{after_join};
    ghost use Rattle.dsn_crew.specs.declared.lane.lane_knowledge.LaneKnowledge.TheVariants.{Spent};

    ghost both = { after_join };

    ghost spent = { Spent };
}

/// A send, which adds its item at the back.
pub struct Adds;

impl<T> Outcome<T, LaneKnowledge<T>> for Adds {
    ghost use Rattle.std.specs.Prelude.{◌≡◌};
    ghost use Rattle.dsn_crew.specs.inner.Step.{after_send};

    ghost then = { λ before item after. after ≡ after_send before item };
}

impl<T> Lesson<T, LaneKnowledge<T>> for Adds {
    ghost use Rattle.std.specs.Prelude.{⊤};

    ghost fact = { λ token waiting. ⊤ };
}

/// A receive, which takes the item at the front.
pub struct Removes;

impl<T: Carried> Outcome<T, LaneKnowledge<T>> for Removes {
    ghost use Rattle.std.specs.Prelude.{◌≡◌};
    ghost use Rattle.dsn_crew.specs.inner.Step.{after_take, IsNext};

    ghost then = { λ before item after. (after ≡ after_take before item)
        × IsNext T.agent T.number before item };
}

impl<T> Lesson<T, LaneKnowledge<T>> for Removes {
    ghost use Rattle.std.specs.Prelude.{⊤};

    ghost fact = { λ token waiting. ⊤ };
}

/// A look at what waits, once the halves have come back.
pub struct ReadsOff;

impl<T: Carried> Lesson<T, LaneKnowledge<T>> for ReadsOff {
    ghost use Rattle.dsn_crew.specs.inner.Step.{IsLaneSettled};

    ghost fact = { IsLaneSettled T.agent T.number };
}
