//! The two halves by which an agent asks and is answered.
ghost use Rattle.std.specs.Prelude.{◌≡◌, ◌<◌, ◌+◌, [], length};
ghost use Rattle.dsn_crew.specs.lane.Lane.{most_sent};
ghost use Rattle.dsn_outcome.specs.Body.{body_of};
ghost use Rattle.dsn_crew.specs.agents.Agent.{AreHalves};
ghost use Rattle.dsn_crew.specs.inner.Agent.{IsExchange};

use crate::agents::unanswered::Unanswered;
use crate::lane::{LaneIn, LaneOut};
use dsn_outcome::{Answer, Body, Request};
use std::marker::Model;
use std::sync::Wait;

/// An agent's halves: the one by which it asks, and the one by which it is answered.
#[derive(Drop)]
pub(crate) struct LaneHalves {
    /// The agent, from 0.
    agent: u32,
    pub(crate) requests: LaneIn<Request>,
    answers: LaneOut<Answer>,
}

impl Model for LaneHalves {
    ghost use Rattle.std.specs.Prelude.{◌≡◌};
    ghost use Rattle.dsn_crew.specs.agents.Agent.{LaneHalves, AreHalves};

    ghost Value = { LaneHalves };

    ghost view = { λ e. record { requests = e.requests; answers = e.answers } };

    ghost invariant = { λ e. (e.agent ≡ e.requests.agent)
        × AreHalves (record { requests = e.requests; answers = e.answers }) };
}

impl LaneHalves {
    /// The halves of an agent that has asked nothing.
    pub(crate) fn new(agent: u32, requests: LaneIn<Request>, answers: LaneOut<Answer>) -> LaneHalves
        requires own { (requests.agent ≡ agent) × (answers.first ≡ agent)
            × (answers.past ≡ agent + 1) }
        requires unused { answers.taken ≡ [] }
        ensures { result ≡ record { requests = requests; answers = answers } }
    {
        LaneHalves {
            agent,
            requests,
            answers,
        }
    }

    /// The agent, from 0.
    pub(crate) fn agent(&self) -> u32
        ensures { result ≡ self.now.requests.agent }
    {
        self.agent
    }

    /// Takes them apart.
    pub(crate) fn into_parts(self) -> (LaneIn<Request>, LaneOut<Answer>)
        ensures requests { result.0 ≡ self.requests }
        ensures answers { result.1 ≡ self.answers }
        ensures own { AreHalves self }
    {
        let LaneHalves {
            requests,
            answers,
            ..
        } = self;
        (requests, answers)
    }

    /// Sends a body, and waits for the answer to it.
    pub(crate) fn exchange(&mut self, rt: &impl Wait, body: Body) -> Result<Answer, Unanswered>
        requires answered { length self.old.answers.taken ≡ length self.old.requests.sent }
        requires room { length self.old.requests.sent < most_sent }
        ensures { IsExchange self.old (body_of body) self.new result }
    {
        let request = Request {
            agent: self.agent,
            number: self.requests.count(),
            body,
        };
        if let Err(lost) = self.requests.send(rt, request) {
            let Request { body, .. } = lost.item;
            return Err(Unanswered {
                body: Some(body),
                gone: lost.gone,
            });
        }
        match self.answers.take(rt) {
            Ok(answer) => Ok(answer),
            Err(end) => Err(Unanswered {
                body: None,
                gone: end.gone,
            }),
        }
    }
}
