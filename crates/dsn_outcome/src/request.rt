//! A delivery agent's request.
use crate::body::Body;
use crate::lane_item::Carried;
use std::marker::Model;

/// A request of one agent, with its place among the agent's requests.
#[derive(Drop)]
pub struct Request {
    /// The agent, from 0.
    pub agent: u32,
    /// How many requests of the agent were accepted before this one.
    pub number: u32,
    /// What the request asks for.
    pub body: Body,
}

impl Model for Request {
    ghost use Rattle.dsn_outcome.specs.Request.{Request};
    ghost use Rattle.dsn_outcome.specs.Body.{body_of};

    ghost Value = { Request };

    ghost view = { λ r. record { agent = r.agent; number = r.number; body = body_of r.body } };
}

impl Carried for Request {
    ghost agent = { λ request. request.agent };

    ghost number = { λ request. request.number };

    fn agent(&self) -> u32 {
        self.agent
    }

    fn number(&self) -> u32 {
        self.number
    }
}
