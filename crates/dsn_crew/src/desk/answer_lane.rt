//! The collector's side of one agent's answer lane.
ghost use Rattle.std.specs.Prelude.{◌≡◌, ◌<◌, [], ◌∷◌, is_ok, length, OnOk, OnErr, vec_capacity, ◌≤◌};
ghost use Rattle.dsn_crew.specs.lane.Lane.{most_sent};
ghost use Rattle.dsn_crew.specs.desk.Desk.{answered_more};

use crate::lane::{LaneGone, LaneIn};
use dsn_outcome::Answer;
use std::marker::Model;
use std::sync::Wait;

/// The half by which one agent is answered, with room for it at the close.
#[derive(Drop)]
pub(crate) struct AnswerLane {
    pub(crate) half: LaneIn<Answer>,
    pub(crate) room: Vec<LaneIn<Answer>>,
}

impl Model for AnswerLane {
    ghost use Rattle.std.specs.Prelude.{◌≡◌, ◌≤◌, [], vec_capacity};
    ghost use Rattle.dsn_crew.specs.lane.Halves.{Half};
    ghost use Rattle.dsn_outcome.specs.declared.answer.Answer.{Answer};

    ghost Value = { Half Answer };

    ghost view = { λ l. l.half };

    ghost invariant = { λ l. (l.room.items ≡ []) × (1 ≤ vec_capacity l.room) };
}

impl AnswerLane {
    /// The sending half of a lane that has just this one.
    pub(crate) fn new(half: LaneIn<Answer>, room: Vec<LaneIn<Answer>>) -> AnswerLane
        requires { (room.items ≡ []) × (1 ≤ vec_capacity room) }
        ensures { result ≡ half }
    {
        AnswerLane { half, room }
    }

    /// Sends an answer, or says what the lane reported where the agent is gone.
    pub(crate) fn send(&mut self, rt: &impl Wait, answer: Answer) -> Result<(), LaneGone>
        requires agent { answer.agent ≡ self.old.agent }
        requires number { answer.number ≡ length self.old.sent }
        requires room { length self.old.sent < most_sent }
        ensures { self.new ≡ answered_more (is_ok result) self.old answer }
    {
        match self.half.send(rt, answer) {
            Ok(()) => Ok(()),
            Err(lost) => Err(lost.gone),
        }
    }
}
