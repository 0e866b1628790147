//! The sending half of a lane.
ghost use Rattle.std.specs.Prelude.{◌≡◌, ◌<◌, List, ◌∷◌, [], ◌++◌, length, OnOk, IfOk, IfErr};
ghost use Rattle.crossbeam_channel.specs.Claims.{view, IsSeatAt};
ghost use Rattle.crossbeam_channel.specs.Ends.{sends_on, ruled_capacity};
ghost use Rattle.dsn_outcome.specs.Agents.{from_agent};
ghost use Rattle.dsn_crew.specs.declared.lane.lane_knowledge.LaneKnowledge.TheVariants.{Takes};
ghost use Rattle.dsn_crew.specs.inner.Halves.{lane_at, taking};
ghost use Rattle.dsn_crew.specs.lane.Lane.{IsNumbered, most_sent};
ghost use Rattle.dsn_crew.specs.inner.Step.{after_split};

use crate::lane::lane_gone::LaneGone;
use crate::lane::lane_knowledge::LaneKnowledge;
use crate::lane::lane_rule::{Adds, LaneRule, SplitOff};
use crate::lane::lost_item::Lost;
use crossbeam_channel::{Pass, RuledSender};
use dsn_outcome::{Carried, NoMemory};
use std::marker::Model;
use std::sync::Wait;

/// The half of a lane by which one agent sends. Contracts see its lane with its capacity, its agent
/// and the items that it has sent, in order.
#[derive(Drop)]
pub struct LaneIn<T: Carried> {
    /// The channel.
    pub(super) sender: RuledSender<T, LaneKnowledge<T>, LaneRule>,
    /// What the half knows.
    pub(super) pass: Pass<T, LaneKnowledge<T>>,
    /// How many items it has sent.
    pub(super) count: u32,
}

impl<T: Carried> Model for LaneIn<T> {
    ghost use Rattle.std.specs.Prelude.{◌≡◌};
    ghost use Rattle.crossbeam_channel.specs.Claims;
    ghost use Rattle.crossbeam_channel.specs.Claims.{IsSeatAt};
    ghost use Rattle.crossbeam_channel.specs.Ends.{sends_on, ruled_capacity};
    ghost use Rattle.dsn_crew.specs.declared.lane.lane_knowledge.LaneKnowledge.TheVariants.{Sends};
    ghost use Rattle.dsn_crew.specs.lane.Halves.{Half};
    ghost use Rattle.dsn_crew.specs.inner.Halves.{IsSending, half_of, sending};

    ghost Value = { Half T };

    ghost view = { λ e. half_of e.pass };

    ghost invariant = { λ e. IsSeatAt (sends_on e.sender) e.pass
        × (Claims.view e.pass
        ≡ Sends (ruled_capacity (sends_on e.sender)) (sending (Claims.view e.pass)))
        × IsSending T.agent T.number (sending (Claims.view e.pass)) e.count };
}

impl<T: Carried> LaneIn<T> {
    /// The half of the next agent, whose pass is split off the receiving half's. Returns `NoMemory`
    /// only if there is no room for one more half.
    #[tactic(auto, using(crate::proofs::lane::RuleLemmas::splits))]
    pub(super) fn split_off(
        sender: &RuledSender<T, LaneKnowledge<T>, LaneRule>,
        pass: &mut Pass<T, LaneKnowledge<T>>,
    ) -> Result<LaneIn<T>, NoMemory>
        requires channel { IsSeatAt (sends_on sender.now) pass.old }
        requires receiver { view pass.old
            ≡ Takes (ruled_capacity (sends_on sender.now)) (taking (view pass.old)) }
        ensures channel { IsSeatAt (sends_on sender.now) pass.new }
        ensures receiver { IfOk result (λ _. view pass.new ≡ after_split (view pass.old)) }
        ensures half { IfOk result
            (λ half. half
            ≡ record {
              lane = lane_at (sends_on sender.now);
              agent = (taking (view pass.old)).made;
              sent = [];
            }) }
    {
        let Ok(own) = sender.try_clone() else {
            return Err(NoMemory);
        };
        let token = sender.another::<SplitOff>(pass);
        Ok(LaneIn {
            sender: own,
            pass: token,
            count: 0,
        })
    }

    /// How many items it has sent.
    pub fn count(&self) -> u32
        ensures { result ≡ length self.now.sent }
    {
        self.count
    }

    /// Sends an item, and waits while the lane is full. Returns `Lost` with the item once the receiving
    /// half is gone; that it does so then, and not before, isn't proved.
    pub fn send(&mut self, rt: &impl Wait, item: T) -> Result<(), Lost<T>>
        requires agent { T.agent item ≡ self.old.agent }
        requires number { T.number item ≡ length self.old.sent }
        requires room { length self.old.sent < most_sent }
        ensures ok { OnOk result (self.new.sent ≡ self.old.sent ++ item ∷ []) }
        ensures lost { IfErr result (λ lost. (lost.item ≡ item) × (self.new.sent ≡ self.old.sent)) }
        ensures numbered { (from_agent T.agent self.new.agent self.new.sent ≡ self.new.sent)
            × IsNumbered T.number self.new.sent }
        ensures same { (self.new.lane ≡ self.old.lane) × (self.new.agent ≡ self.old.agent) }
    {
        match self.sender.send_as::<Adds, _>(rt, &mut self.pass, item) {
            Ok(()) => {
                self.count += 1;
                Ok(())
            }
            Err(refused) => Err(Lost {
                item: refused.into_inner(),
                gone: LaneGone::reported(),
            }),
        }
    }
}
