//! An agent's side of a crew.
ghost use Rattle.std.specs.Prelude.{◌≡◌, ◌≢◌, ◌≤◌, ◌+◌, false, [], IfOk};
ghost use Rattle.dsn_outcome.specs.Body.{body_of};
ghost use Rattle.dsn_outcome.specs.Request.{Bye};
ghost use Rattle.dsn_crew.specs.agents.Agent.{IsAgent, IsAsk, IsFinished, IsGoodbye, most_requests};
ghost use Rattle.dsn_crew.specs.inner.Agent.{IsLeave};

use crate::agents::ask_fault::AskFault;
use crate::agents::finished_agent::Finished;
use crate::agents::lane_halves::LaneHalves;
use crate::agents::unanswered::Unanswered;
use crate::agents::unheard::{Unheard, say_bye};
use crate::lane::{LaneGone, LaneIn, LaneOut};
use dsn_outcome::{Answer, Body, Request};
use std::marker::Model;
use std::sync::Wait;

/// An agent of a crew, on a thread of its own: it asks the collector, and waits for each answer.
#[derive(Drop)]
pub struct Agent {
    pub(crate) halves: LaneHalves,
    pub(crate) limit: u32,
    /// What a lane reported, once one was lost.
    lost: Option<LaneGone>,
}

impl Model for Agent {
    ghost use Rattle.std.specs.Prelude.{is_some};
    ghost use Rattle.dsn_crew.specs.agents.Agent.{Agent, IsAgent};

    ghost Value = { Agent };

    ghost view = { λ a. record { halves = a.halves; limit = a.limit; lost = is_some a.lost } };

    ghost invariant = { λ a. IsAgent
        (record { halves = a.halves; limit = a.limit; lost = is_some a.lost }) };
}

impl Agent {
    /// The agent of this number, which has asked nothing and may make `limit` requests: by the half
    /// by which it asks, and that of an answer lane of its own.
    pub fn new(agent: u32, requests: LaneIn<Request>, answers: LaneOut<Answer>, limit: u32) -> Agent
        requires own { (requests.agent ≡ agent) × (answers.first ≡ agent)
            × (answers.past ≡ agent + 1) }
        requires unused { (requests.sent ≡ []) × (answers.taken ≡ []) }
        requires limit { limit ≤ most_requests }
        ensures { result ≡ record {
          halves = record { requests = requests; answers = answers };
          limit = limit;
          lost = false;
        } }
    {
        Agent {
            halves: LaneHalves::new(agent, requests, answers),
            limit,
            lost: None,
        }
    }

    /// The agent's number, from 0.
    pub fn number(&self) -> u32
        ensures { result ≡ self.now.halves.requests.agent }
    {
        self.halves.agent()
    }

    /// The halves of an agent that leaves without a goodbye.
    pub fn into_halves(self) -> (LaneIn<Request>, LaneOut<Answer>)
        ensures requests { result.0 ≡ self.halves.requests }
        ensures answers { result.1 ≡ self.halves.answers }
    {
        let Agent { halves, .. } = self;
        halves.into_parts()
    }

    /// Asks the collector, and waits for its answer. Requires that the body isn't a goodbye
    /// (`Body::is_bye` is the test).
    ///
    /// Returns `Limit` (44) if the agent has made as many requests as it may; the agent is as it was.
    /// Returns `Lost` (41) if the collector is gone: with the body if the request was not sent, and
    /// at every later ask.
    pub fn ask(&mut self, rt: &impl Wait, body: Body) -> Result<Answer, AskFault>
        requires stays { body_of body ≢ Bye }
        ensures ask { IsAsk self.old (body_of body) self.new result }
        ensures kept { IsAgent self.new }
    {
        // Before the limit: a lost agent's session ends (41), and its requests aren't answered 44.
        if self.lost.is_some() {
            return Err(AskFault::Lost(Some(body)));
        }
        if self.halves.requests.count() >= self.limit {
            return Err(AskFault::Limit(body));
        }
        match self.halves.exchange(rt, body) {
            Ok(answer) => Ok(answer),
            Err(Unanswered { body, gone }) => {
                self.lost = Some(gone);
                Err(AskFault::Lost(body))
            }
        }
    }

    /// Says goodbye, which is allowed at the limit too, and waits until the collector has heard it.
    /// Returns `Lost` (41) if a lane was lost before or is lost now; the agent's halves are dropped.
    /// The agents of `run_crew` leave without it: it is for embedders and tests.
    #[tactic(auto, using(crate::proofs::agents::AgentLemmas::goodbye_fault))]
    pub fn bye(self, rt: &impl Wait) -> Result<Finished, AskFault>
        ensures bye { IsGoodbye self result }
        ensures finished { IfOk result IsFinished }
    {
        match self.leave(rt) {
            Ok(finished) => Ok(finished),
            Err(unheard) => Err(unheard.into_fault()),
        }
    }

    /// Says goodbye, as [`Agent::bye`] does. Returns why if it was not heard.
    pub(crate) fn leave(self, rt: &impl Wait) -> Result<Finished, Unheard>
        ensures leave { IsLeave self result }
        ensures finished { IfOk result IsFinished }
    {
        let Agent { halves, lost, .. } = self;
        match lost {
            Some(gone) => Err(Unheard::unsent(gone)),
            None => say_bye(rt, halves),
        }
    }
}
