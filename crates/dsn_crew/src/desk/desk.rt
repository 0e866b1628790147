//! The collector of a crew.
ghost use Rattle.std.specs.Prelude.{◌≡◌, ◌≢◌, ◌+◌, ◌^◌, ◌<◌, ◌≤◌, ℕ, List, false, true, [], is_err, is_ok, length, IfErr, OnOk, vec_capacity};
ghost use Rattle.std.specs.List.{slice_index_or};
ghost use Rattle.dsn_crew.specs.lane.Halves.{Half};
ghost use Rattle.dsn_crew.specs.lane.Lane.{most_agents, most_sent};
ghost use Rattle.dsn_outcome.specs.History.{Exchange};
ghost use Rattle.dsn_outcome.specs.declared.answer.Answer.{Answer};
ghost use Rattle.dsn_crew.specs.desk.Open.{AreLines};
ghost use Rattle.dsn_crew.specs.KeeperHistory.{BeginsWith};
ghost use Rattle.dsn_crew.specs.inner.Desk.{HasRoom, IsStopped, MayBeSent, desk_of, with_kept};
ghost use Rattle.dsn_crew.specs.desk.Desk.{HasStopped, IsAnswerSent, IsDesk, IsRequestTaken, IsRun, all_gone, missing, agent_lanes_of, with_failed};
ghost use Rattle.dsn_crew.specs.desk.Intake.{goodbyes, most_taken};

use crate::breach::Breach;
use crate::desk::answer_lane::AnswerLane;
use crate::desk::desk_fault::DeskFault;
use crate::desk::intake::Intake;
use crate::desk::returned_letter::{ReturnedLetter, offer};
use crate::lane::{LaneGone, LaneIn};
use crate::post::Sink;
use dsn_book::{Book, Keeper, Step};
use dsn_outcome::{Answer, Letter, Request};
use std::marker::Model;
use std::snapshot::Snapshot;
use std::sync::Wait;
use std::time::Clock;

/// The collector of a crew. It takes the agents' requests that wait and has its keeper keep them
/// together. The keeper then carries them out by its rules, one after another, and the collector
/// answers them.
///
/// Contracts see the keeper as it was at first and as it is, the requests that were carried out,
/// and those behind them. They see what each agent was answered, whether the collector failed, and
/// why the requests behind were not kept, if they weren't.
#[derive(Drop)]
pub struct Desk<B: Keeper = Book> {
    start: Snapshot<B>,
    pub(crate) book: B,
    pub(crate) intake: Intake,
    pub(crate) lines: Vec<AnswerLane>,
    pub(crate) room: Vec<LaneIn<Request>>,
    /// How many of the requests that it has carried out are goodbyes.
    gone: u32,
    missed: u32,
    /// Why it has failed, if it has.
    stop: Option<Breach>,
}

impl<B: Keeper> Model for Desk<B> {
    ghost use Rattle.std.specs.Prelude.{◌≡◌, IfSome, vec_capacity};
    ghost use Rattle.dsn_crew.specs.desk.Desk.{Desk, IsDesk};
    ghost use Rattle.dsn_crew.specs.inner.Desk.{HasRoom, IsStopped, desk_seen};
    ghost use Rattle.dsn_crew.specs.desk.Intake.{goodbyes};

    ghost Value = { Desk B };

    ghost view = { λ d. desk_seen d.start.value d.book d.stop d.intake d.lines.items d.missed };

    ghost invariant = { λ d. IsDesk B.Keeper
        (desk_seen d.start.value d.book d.stop d.intake d.lines.items d.missed)
        × (d.gone ≡ goodbyes d.intake.requests.taken)
        × HasRoom d.lines.items d.room.items (vec_capacity d.room)
        × IfSome d.stop (IsStopped B.Keeper
        (desk_seen d.start.value d.book d.stop d.intake d.lines.items d.missed)) };
}

impl<B: Keeper> Desk<B> {
    /// A collector that has taken nothing.
    pub(crate) fn new(
        book: B,
        intake: Intake,
        lines: Vec<AnswerLane>,
        room: Vec<LaneIn<Request>>,
    ) -> Desk<B>
        requires begins { (before : List Exchange) × BeginsWith B.Keeper book before }
        requires few { B.sealed book < 2 ^ 63 }
        requires requests { (intake.requests.first ≡ 0)
            × (intake.requests.past ≡ length lines.items) × (intake.requests.taken ≡ [])
            × (intake.behind ≡ []) }
        requires lines { AreLines lines.items × (length lines.items ≤ most_agents) }
        requires room { HasRoom lines.items room.items (vec_capacity room) }
        ensures new { result ≡ desk_of book book intake.requests lines.items 0 false }
        ensures kept { IsDesk B.Keeper result }
    {
        Desk {
            start: Snapshot::of(&book),
            book,
            intake,
            lines,
            room,
            gone: 0,
            missed: 0,
            stop: None,
        }
    }

    /// Whether all agents have said goodbye or never start; false once the collector has failed.
    pub fn all_gone(&self) -> bool
        ensures all { result ≡ all_gone self.now }
        ensures kept { IsDesk B.Keeper self.now }
    {
        self.stop.is_none() && self.gone as usize + self.missed as usize == self.lines.len()
    }

    /// Why it has failed. Requires that it has.
    pub(crate) fn stopped(&self) -> Breach
        requires { self.now.failed ≡ true }
        ensures { IsStopped B.Keeper self.now result }
    {
        match self.stop {
            Some(stop) => stop,
            None => unreachable!(),
        }
    }

    /// Returns its keeper. Its halves are dropped, so that no agent waits for them.
    pub(crate) fn into_book(self) -> B
        ensures { result ≡ self.book }
    {
        self.book
    }

    /// Counts more agents as gone: those whose threads could not be started, so that they will never
    /// say goodbye. Requires that they are among those that haven't, and that nothing is behind, as
    /// before the first request is taken.
    pub fn miss(&mut self, agents: u32)
        requires idle { self.old.behind ≡ [] }
        requires left { goodbyes self.old.requests.taken + self.old.missed + agents ≤ length
            self.old.answers }
        ensures missed { self.new ≡ missing self.old agents }
        ensures kept { IsDesk B.Keeper self.new }
    {
        // Whoever opens a crew starts its threads, and knows of one that could not be started. Its
        // halves are gone, so this crew is dropped and not closed.
        self.missed += agents;
    }

    /// Takes one request and answers it. Returns the letter that it sealed, if it did. If none is
    /// behind, it takes all that wait, up to 16, and has them kept together first.
    ///
    /// Requires that not all agents said goodbye. Returns `Requests` if no agent is left to ask,
    /// once 4,294,967,295 requests were carried out, and once the collector has failed. Returns it
    /// too if the requests weren't kept; none of them is then carried out. Returns `Answers` if the
    /// agent that asked is gone. After an error the collector has failed. If requests weren't kept,
    /// the keeper is as its `refuses` says.
    pub fn take_one<R: Wait + Clock>(&mut self, rt: &R) -> Result<Option<Letter>, DeskFault>
        requires some_left { all_gone self.old ≡ false }
        ensures taken { (before : List Exchange) → BeginsWith B.Keeper self.old.start before
            → IsRequestTaken B.Keeper before self.old self.new result }
        ensures full { most_taken ≤ length self.old.requests.taken
            → self.new ≡ with_failed self.old true }
        ensures start { self.new.start ≡ self.old.start }
        ensures failed { self.new.failed ≡ is_err result }
        ensures kept { IsDesk B.Keeper self.new }
        ensures places { agent_lanes_of self.new ≡ agent_lanes_of self.old }
    {
        if self.stop.is_some() {
            return Err(DeskFault::Requests);
        }
        if self.intake.count() == u32::MAX {
            self.stop = Some(Breach::Full);
            return Err(DeskFault::Requests);
        }
        if self.intake.is_empty() {
            match self.keep_more(rt) {
                Ok(()) => {}
                Err(fault) => return Err(fault),
            }
        }
        self.answer_next(rt)
    }

    /// Takes the requests that wait, and waits for one, and has them kept together.
    ///
    /// Returns `Requests` if no agent is left to ask, and if they weren't kept; then the collector has
    /// failed.
    fn keep_more<R: Wait + Clock>(&mut self, rt: &R) -> Result<(), DeskFault>
        requires some_left { all_gone self.old ≡ false }
        requires going { self.old.failed ≡ false }
        requires idle { self.old.behind ≡ [] }
        ensures more { OnOk result ((1 ≤ length self.new.behind)
            × (self.new ≡ with_kept self.old self.new.behind self.new.book)) }
        ensures stopped { IfErr result (λ fault. (fault ≡ DeskFault.Requests)
            × HasStopped B.Keeper self.old self.new) }
        ensures kept { IsDesk B.Keeper self.new }
    {
        let heard = u64::from(self.gone) + u64::from(self.missed);
        if let Err(gone) = self.intake.fill(rt, heard, self.lines.len() as u64) {
            self.stop = Some(Breach::AgentGone(gone));
            return Err(DeskFault::Requests);
        }
        if let Err(why) = self.intake.keep_by(rt, &mut self.book) {
            // It isn't known which of them are on the disk, so no answer about them would be true.
            self.stop = Some(Breach::Unkept(why));
            return Err(DeskFault::Requests);
        }
        Ok(())
    }

    /// Carries out the first of the requests behind, and answers it. Returns the letter that it
    /// sealed, if it did, and `Answers` if the agent that asked is gone; then the collector has failed.
    fn answer_next(&mut self, rt: &impl Wait) -> Result<Option<Letter>, DeskFault>
        requires going { self.old.failed ≡ false }
        requires some { 1 ≤ length self.old.behind }
        requires few { length self.old.requests.taken < most_taken }
        ensures taken { (before : List Exchange) → BeginsWith B.Keeper self.old.start before
            → IsRequestTaken B.Keeper before self.old self.new result }
        ensures lost { IfErr result (λ fault. fault ≢ DeskFault.Requests) }
        ensures start { self.new.start ≡ self.old.start }
        ensures failed { self.new.failed ≡ is_err result }
        ensures kept { IsDesk B.Keeper self.new }
        ensures places { agent_lanes_of self.new ≡ agent_lanes_of self.old }
    {
        let request = self.intake.next();
        let agent = request.agent;
        self.gone += u32::from(request.body.is_bye());
        let Step { answer, letter } = self.book.apply(request);
        // The letter is given after the answer, so an agent may go on before its notice is written.
        // If the answer is lost, the fault has the letter, which was sealed.
        match send_answer(
            rt,
            &mut self.lines,
            &self.start,
            &self.intake,
            &self.book,
            answer,
        ) {
            Ok(()) => Ok(letter),
            Err(gone) => {
                self.stop = Some(Breach::AgentGone(gone));
                Err(DeskFault::Answers(agent, letter))
            }
        }
    }

    /// Takes the agents' requests, answers each, and passes the letters that they seal to `sink`,
    /// until all agents have said goodbye.
    ///
    /// Returns what [`Desk::take_one`] does if it fails, and `Letters` if the sink is gone or takes no
    /// more. Then the collector has failed.
    #[tactic(auto, using(crate::proofs::desk::Rules::runs))]
    pub fn run<R: Wait + Clock, K: Sink>(&mut self, rt: &R, sink: &mut K) -> Result<(), DeskFault>
        ensures run { (before : List Exchange) → BeginsWith B.Keeper self.old.start before
            → IsRun B.Keeper before K.takes self.old self.new sink.old sink.new result }
        ensures start { self.new.start ≡ self.old.start }
        ensures failed { self.new.failed ≡ is_err result }
        ensures all { OnOk result (all_gone self.new ≡ true) }
        ensures kept { IsDesk B.Keeper self.new }
        ensures places { agent_lanes_of self.new ≡ agent_lanes_of self.old }
    {
        for _ in rt.forever() {
            if self.all_gone() {
                return Ok(());
            }
            match self.hand_one(rt, sink) {
                Ok(()) => {}
                Err(fault) => return Err(fault),
            }
        }
        unreachable!()
    }

    /// Takes one request, answers it, and passes the letter that it sealed to `sink`.
    #[tactic(auto, using(crate::proofs::desk::Rules::takes))]
    fn hand_one<R: Wait + Clock, K: Sink>(&mut self, rt: &R, sink: &mut K) -> Result<(), DeskFault>
        requires some_left { all_gone self.old ≡ false }
        requires kept { IsDesk B.Keeper self.old }
        ensures run { (before : List Exchange) → BeginsWith B.Keeper self.old.start before
            → IsRun B.Keeper before K.takes self.old self.new sink.old sink.new result }
        ensures start { self.new.start ≡ self.old.start }
        ensures failed { self.new.failed ≡ is_err result }
        ensures kept { IsDesk B.Keeper self.new }
        ensures places { agent_lanes_of self.new ≡ agent_lanes_of self.old }
    {
        let taken = match self.take_one(rt) {
            Ok(taken) => taken,
            Err(fault) => return Err(fault),
        };
        let letter = match taken {
            Some(letter) => letter,
            None => return Ok(()),
        };
        match offer(rt, sink, letter) {
            Ok(()) => Ok(()),
            Err(ReturnedLetter { letter, evidence }) => {
                self.stop = Some(Breach::HandedBack(evidence));
                Err(DeskFault::Letters(letter))
            }
        }
    }
}

/// Sends an answer over the lane of its agent. Returns what the lane reported if the agent is gone.
///
/// Requires that the answer is of the last request that was carried out, and that `_book` models
/// the history with it and has kept all behind it that were taken. So a crash leaves each of them:
/// [`Keeper`] says what it leaves.
fn send_answer<B: Keeper>(
    rt: &impl Wait,
    lines: &mut Vec<AnswerLane>,
    _start: &Snapshot<B>,
    _intake: &Intake,
    _book: &B,
    answer: Answer,
) -> Result<(), LaneGone>
    requires kept { (before : List Exchange) → BeginsWith B.Keeper _start.now.value before
        → MayBeSent B.Keeper (B.rules _start.now.value) before _intake.now _book.now answer }
    requires within { answer.agent < length lines.old.items }
    requires agent { (d : Half Answer)
        → (slice_index_or lines.old.items answer.agent d).agent ≡ answer.agent }
    requires number { (d : Half Answer)
        → length (slice_index_or lines.old.items answer.agent d).sent ≡ answer.number }
    requires room { answer.number < most_sent }
    ensures { IsAnswerSent (is_ok result) lines.old.items answer lines.new.items }
{
    // What is sent over a lane has no moment, so no clause on a run says that an answer comes after
    // a sync. This function's premise does.
    lines[answer.agent as usize].send(rt, answer)
}
