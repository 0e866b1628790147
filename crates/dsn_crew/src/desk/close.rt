//! The close of a crew.
//! The proof needs only that the collector has not failed. `all_gone` is required so that the
//! collector's own count refuses a close that comes too early.
ghost use Rattle.std.specs.Prelude.{◌≡◌, ◌+◌, List, [], true, All};
ghost use mathlib.Core.List.{IsPrefix};
ghost use Rattle.dsn_outcome.specs.History.{Exchange};
ghost use Rattle.dsn_crew.specs.agents.Agent.{IsFinished};
ghost use Rattle.dsn_crew.specs.desk.Close.{AreCrew, AreOf, IsHeard};
ghost use Rattle.dsn_crew.specs.KeeperHistory.{BeginsWith};
ghost use Rattle.dsn_crew.specs.desk.Desk.{all_gone, history};

use crate::agents::Finished;
use crate::desk::answer_lane::AnswerLane;
use crate::desk::crew_shut::CrewShut;
use crate::desk::desk::Desk;
use crate::lane::{LaneIn, close_lane};
use dsn_book::Keeper;
use dsn_outcome::Request;
use std::snapshot::Snapshot;
use std::sync::Wait;

/// Closes a crew, of which it takes all agents, in their order, and the collector. Each of its
/// lanes is closed, in room that was taken when the crew was opened. Requires that all agents said
/// goodbye and the collector has not failed (`Desk::all_gone`); an agent that never started has no
/// half to give back, so its crew is dropped instead.
#[tactic(auto, using(crate::proofs::desk::Rules::closing))]
pub fn close_crew<B: Keeper>(rt: &impl Wait, crew: Vec<Finished>, desk: Desk<B>) -> CrewShut<B>
    requires crew { AreCrew crew.items desk }
    requires gone { all_gone desk ≡ true }
    ensures heard { (before : List Exchange) → BeginsWith B.Keeper desk.start before
        → All (IsHeard B.Keeper before desk) crew.items }
    ensures finished { All IsFinished crew.items }
    ensures only { AreOf crew.items desk.requests.taken }
    ensures shut { result ≡ record { book = desk.book; crew = crew.items; desk = desk } }
    ensures has { (before : List Exchange) → BeginsWith B.Keeper desk.start before
        → B.has result.book (history B.Keeper before desk) [] }
{
    let agents = Snapshot::of(&crew);
    let collector = Snapshot::of(&desk);
    let Desk {
        book,
        intake,
        lines,
        mut room,
        ..
    } = desk;
    let mut lines = lines.into_iter();
    for finished in crew {
        let Some(line) = lines.next() else {
            unreachable!()
        };
        room.push_reserved(close_answers(rt, finished, line));
    }
    close_lane(rt, room, intake.into_lane());
    CrewShut::new(book, agents, collector)
}

/// Closes an agent's answer lane, and gives the half by which the agent asked.
fn close_answers(rt: &impl Wait, finished: Finished, line: AnswerLane) -> LaneIn<Request>
    requires lane { (line.lane ≡ finished.answers.lane) × (line.agent ≡ finished.requests.agent) }
    ensures half { result ≡ finished.requests }
    ensures got { IsPrefix finished.answers.taken line.sent }
    ensures finished { IsFinished finished }
{
    let (requests, answers) = finished.into_halves();
    let AnswerLane { half, mut room } = line;
    room.push_reserved(half);
    close_lane(rt, room, answers);
    requests
}
