//! The receiving half of a lane.
ghost use Rattle.std.specs.Prelude.{◌≡◌, ℕ, ◌<◌, ◌≤◌, List, ◌∷◌, [], ◌++◌, length, IfOk, IfSome, OnErr};
ghost use Rattle.std.specs.Option.{option_to_list};
ghost use Rattle.crossbeam_channel.specs.Claims.{view, IsSeatAt};
ghost use Rattle.crossbeam_channel.specs.Ends.{receives_on, ruled_capacity};
ghost use Rattle.dsn_outcome.specs.Agents.{from_agent};
ghost use Rattle.dsn_crew.specs.declared.lane.lane_knowledge.LaneKnowledge.TheVariants.{Takes};
ghost use Rattle.dsn_crew.specs.inner.Halves.{IsReceiving, out_of, taking};
ghost use Rattle.dsn_crew.specs.lane.Lane.{IsNumbered};

use crate::lane::lane_end::LaneEnd;
use crate::lane::lane_gone::LaneGone;
use crate::lane::lane_knowledge::LaneKnowledge;
use crate::lane::lane_left::LaneLeft;
use crate::lane::lane_rule::{LaneRule, Removes};
use crossbeam_channel::{Pass, RuledReceiver, TryRecvError};
use dsn_outcome::Carried;
use std::marker::Model;
use std::sync::Wait;

/// The half of a lane that takes what the agents send. Contracts see its lane with its capacity, its
/// agents, from `first` on and below `past`, and the items that it has taken, in order.
#[derive(Drop)]
pub struct LaneOut<T: Carried> {
    /// The channel.
    pub(super) receiver: RuledReceiver<T, LaneKnowledge<T>, LaneRule>,
    /// What the half knows.
    pub(super) pass: Pass<T, LaneKnowledge<T>>,
    /// How many items it has taken. The count wraps; at the close it is exact.
    pub(super) count: u64,
}

impl<T: Carried> Model for LaneOut<T> {
    ghost use Rattle.std.specs.Prelude.{◌≡◌};
    ghost use Rattle.crossbeam_channel.specs.Claims;
    ghost use Rattle.crossbeam_channel.specs.Claims.{IsSeatAt};
    ghost use Rattle.crossbeam_channel.specs.Ends.{receives_on, ruled_capacity};
    ghost use Rattle.dsn_crew.specs.declared.lane.lane_knowledge.LaneKnowledge.TheVariants.{Takes};
    ghost use Rattle.dsn_crew.specs.lane.Halves.{Out};
    ghost use Rattle.dsn_crew.specs.inner.Halves.{IsReceiving, out_of, taking};

    ghost Value = { Out T };

    ghost view = { λ o. out_of o.pass };

    ghost invariant = { λ o. IsSeatAt (receives_on o.receiver) o.pass
        × (Claims.view o.pass
        ≡ Takes (ruled_capacity (receives_on o.receiver)) (taking (Claims.view o.pass)))
        × IsReceiving T.agent T.number (taking (Claims.view o.pass)) o.count };
}

impl<T: Carried> LaneOut<T> {
    /// The receiving half of a pass that has taken nothing.
    pub(super) fn new(
        receiver: RuledReceiver<T, LaneKnowledge<T>, LaneRule>,
        pass: Pass<T, LaneKnowledge<T>>,
    ) -> LaneOut<T>
        requires channel { IsSeatAt (receives_on receiver) pass }
        requires token { view pass
            ≡ Takes (ruled_capacity (receives_on receiver)) (taking (view pass)) }
        requires kept { IsReceiving T.agent T.number (taking (view pass)) 0 }
        ensures { result ≡ out_of pass }
    {
        LaneOut {
            receiver,
            pass,
            count: 0,
        }
    }

    /// Takes the item at the front, and waits for it. Returns `LaneEnd` once all sending halves are
    /// gone and nothing waits; that it does so then, and not before, isn't proved.
    #[tactic(auto, using(crate::proofs::LaneHalfLemmas::agent_within, crate::proofs::LaneHalfLemmas::keeps_receiving))]
    pub fn take(&mut self, rt: &impl Wait) -> Result<T, LaneEnd>
        ensures item { IfOk result (λ item. self.new.taken ≡ self.old.taken ++ item ∷ []) }
        ensures agent { IfOk result
            (λ item. (self.old.first ≤ T.agent item) × (T.agent item < self.old.past)) }
        ensures number { IfOk result
            (λ item. T.number item ≡ length (from_agent T.agent (T.agent item) self.old.taken)) }
        ensures end { OnErr result (self.new.taken ≡ self.old.taken) }
        ensures numbered { (a : ℕ) → IsNumbered T.number (from_agent T.agent a self.new.taken) }
        ensures same { (self.new.lane ≡ self.old.lane) × (self.new.first ≡ self.old.first)
            × (self.new.past ≡ self.old.past) }
    {
        match self.receiver.recv_as::<Removes, _>(rt, &mut self.pass) {
            Ok(item) => {
                // Sixteen halves send fewer than 2^36 items, so at the close the count is proved
                // exact.
                self.count = self.count.wrapping_add(1);
                Ok(item)
            }
            Err(_) => Err(LaneEnd {
                gone: LaneGone::reported(),
            }),
        }
    }

    /// Takes the item at the front if one waits, and doesn't wait: so several that wait are taken at
    /// once. Returns `None` if none waits, and `LaneEnd` if none waits and all sending halves are gone.
    /// That it returns them then alone isn't proved.
    #[tactic(auto, using(crate::proofs::LaneHalfLemmas::agent_within, crate::proofs::LaneHalfLemmas::keeps_receiving))]
    pub fn take_waiting(&mut self, rt: &impl Wait) -> Result<Option<T>, LaneEnd>
        ensures taken { IfOk result
            (λ item. self.new.taken ≡ self.old.taken ++ option_to_list item) }
        ensures agent { IfOk result (λ item. IfSome item
            (λ item. (self.old.first ≤ T.agent item) × (T.agent item < self.old.past))) }
        ensures number { IfOk result (λ item. IfSome item
            (λ item. T.number item ≡ length (from_agent T.agent (T.agent item) self.old.taken))) }
        ensures end { OnErr result (self.new.taken ≡ self.old.taken) }
        ensures numbered { (a : ℕ) → IsNumbered T.number (from_agent T.agent a self.new.taken) }
        ensures same { (self.new.lane ≡ self.old.lane) × (self.new.first ≡ self.old.first)
            × (self.new.past ≡ self.old.past) }
    {
        match self.receiver.try_recv_as::<Removes, _>(rt, &mut self.pass) {
            Ok(item) => {
                self.count = self.count.wrapping_add(1);
                Ok(Some(item))
            }
            Err(TryRecvError::Empty) => Ok(None),
            Err(TryRecvError::Disconnected) => Err(LaneEnd {
                gone: LaneGone::reported(),
            }),
        }
    }

    /// Gives the receiving half up, so that no agent waits for it.
    pub fn leave(self) -> LaneLeft<T>
        ensures { result ≡ self }
    {
        LaneLeft::of(&self)
    }
}
