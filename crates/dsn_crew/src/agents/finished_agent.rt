//! An agent that has said goodbye.
ghost use Rattle.std.specs.Prelude.{◌≡◌, ◌+◌, length};
ghost use Rattle.dsn_crew.specs.agents.Agent.{AreHalves, IsFinished};

use crate::agents::lane_halves::LaneHalves;
use crate::lane::{LaneIn, LaneOut};
use dsn_outcome::{Answer, Request};
use std::marker::Model;

/// An agent that has said goodbye and was heard: its halves, which wait for the crew's close.
#[derive(Drop)]
pub struct Finished {
    halves: LaneHalves,
}

impl Model for Finished {
    ghost use Rattle.dsn_crew.specs.agents.Agent.{LaneHalves, IsFinished};

    ghost Value = { LaneHalves };

    ghost view = { λ f. f.halves };

    ghost invariant = { λ f. IsFinished f.halves };
}

impl Finished {
    pub(crate) fn new(halves: LaneHalves) -> Finished
        requires { IsFinished halves }
        ensures { result ≡ halves }
    {
        Finished { halves }
    }

    /// How many requests the agent made, its goodbye not counted.
    pub fn requests(&self) -> u32
        ensures count { length self.now.requests.sent ≡ result + 1 }
        ensures finished { IsFinished self.now }
    {
        self.halves.requests.count() - 1
    }

    /// Its halves: the one by which it asked, and the one by which it was answered.
    pub fn into_halves(self) -> (LaneIn<Request>, LaneOut<Answer>)
        ensures requests { result.0 ≡ self.requests }
        ensures answers { result.1 ≡ self.answers }
        ensures own { AreHalves self }
        ensures finished { IsFinished self }
    {
        let Finished { halves } = self;
        halves.into_parts()
    }
}
