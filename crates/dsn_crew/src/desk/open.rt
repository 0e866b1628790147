//! A crew, from its first step on.
ghost use Rattle.std.specs.Prelude.{◌≡◌, ◌^◌, ◌<◌, ◌≤◌, ◌↔◌, ◌⊎◌, List, [], IfOk, IfErr};
ghost use Rattle.dsn_crew.specs.lane.Lane.{most_agents};
ghost use Rattle.dsn_outcome.specs.History.{Exchange};
ghost use Rattle.dsn_crew.specs.KeeperHistory.{BeginsWith};
ghost use Rattle.dsn_crew.specs.desk.Open.{IsLine, IsOpened, IsOpenedEmpty, opened_agent};

use crate::agents::Agent;
use crate::desk::answer_lane::AnswerLane;
use crate::desk::crew_open_fault::CrewOpenFault;
use crate::desk::desk::Desk;
use crate::desk::intake::{Intake, MOST_TOGETHER};
use crate::lane::{LaneIn, open_lane};
use dsn_book::{Book, Keeper, Limits};
use dsn_outcome::{NoMemory, Request};
use std::alloc::Global;
use std::collections::VecDeque;
use std::sync::Wait;

/// How many requests wait at most.
const REQUESTS_WAITING: u32 = 64;

/// A crew of `agents` agents, from agent 0 on, and its collector, over a book that is empty. It is for
/// embedders and tests: `run_crew` opens its crew itself.
///
/// Returns `AgentCount` (43) if there are not 1 to 16 agents, before any memory is taken, and
/// `NoMemory` (42) only if memory is refused.
pub fn open_crew(
    rt: &impl Wait,
    alloc: Global,
    limits: Limits,
    agents: u32,
) -> Result<(Vec<Agent>, Desk), CrewOpenFault>
    ensures opened { IfOk result (λ crew. IsOpenedEmpty limits agents crew.0.items crew.1) }
    ensures count { IfOk result (λ _. (1 ≤ agents) × (agents ≤ most_agents)) }
    ensures refused { IfErr result
        (λ fault. (fault ≡ CrewOpenFault.AgentCount) ↔ ((agents ≡ 0) ⊎ (most_agents < agents))) }
{
    if !(1..=16).contains(&agents) {
        return Err(CrewOpenFault::AgentCount);
    }
    let Ok(book) = Book::new(alloc, limits) else {
        return Err(CrewOpenFault::NoMemory);
    };
    open_room(rt, alloc, book, agents).map_err(|_| CrewOpenFault::NoMemory)
}

/// A crew of `agents` agents, from agent 0 on, and its collector, over what carries their requests
/// out, as [`open_crew`] opens one. Requires that there is a history to begin with, after which nothing
/// is awaited, and that fewer than 2^63 letters were sealed by it.
///
/// Returns `AgentCount` (43) if there are not 1 to 16 agents, before any memory is taken, and
/// `NoMemory` (42) only if memory is refused.
pub fn open_crew_over<B: Keeper + Drop>(
    rt: &impl Wait,
    alloc: Global,
    book: B,
    agents: u32,
) -> Result<(Vec<Agent>, Desk<B>), CrewOpenFault>
    requires begins { (before : List Exchange) × BeginsWith B.Keeper book before }
    requires few { B.sealed book < 2 ^ 63 }
    ensures opened { IfOk result (λ crew. IsOpened B.Keeper book agents crew.0.items crew.1) }
    ensures count { IfOk result (λ _. (1 ≤ agents) × (agents ≤ most_agents)) }
    ensures refused { IfErr result
        (λ fault. (fault ≡ CrewOpenFault.AgentCount) ↔ ((agents ≡ 0) ⊎ (most_agents < agents))) }
{
    if agents == 0 || agents > 16 {
        return Err(CrewOpenFault::AgentCount);
    }
    open_room(rt, alloc, book, agents).map_err(|_| CrewOpenFault::NoMemory)
}

/// The crew itself. Returns what carries the requests out if memory is refused.
#[tactic(auto, using(crate::proofs::OpenLemmas::length_halves))]
pub(crate) fn open_room<B: Keeper + Drop>(
    rt: &impl Wait,
    alloc: Global,
    book: B,
    agents: u32,
) -> Result<(Vec<Agent>, Desk<B>), B>
    requires count { (1 ≤ agents) × (agents ≤ most_agents) }
    requires begins { (before : List Exchange) × BeginsWith B.Keeper book before }
    requires few { B.sealed book < 2 ^ 63 }
    ensures opened { IfOk result (λ crew. IsOpened B.Keeper book agents crew.0.items crew.1) }
    ensures back { IfErr result (λ back. back ≡ book) }
{
    let limits = book.limits();
    let Ok((halves, requests)) = open_lane::<Request>(rt, alloc, 0, agents, REQUESTS_WAITING) else {
        return Err(book);
    };
    let Ok(mut crew) = Vec::with_capacity(alloc, agents as usize) else {
        return Err(book);
    };
    let Ok(mut lines) = Vec::with_capacity(alloc, agents as usize) else {
        return Err(book);
    };
    let Ok(room) = Vec::with_capacity(alloc, agents as usize) else {
        return Err(book);
    };
    let Ok(waiting) = VecDeque::with_capacity(alloc, MOST_TOGETHER) else {
        return Err(book);
    };
    let mut halves = halves.into_iter();
    for agent in 0..agents {
        let Some(half) = halves.next() else {
            unreachable!()
        };
        let Ok((one, line)) = open_agent(rt, alloc, limits, agent, half) else {
            return Err(book);
        };
        crew.push_reserved(one);
        lines.push_reserved(line);
    }
    let intake = Intake::new(requests, waiting);
    Ok((crew, Desk::new(book, intake, lines, room)))
}

/// An agent with this half for its requests, and the collector's half for its answers.
pub(crate) fn open_agent(
    rt: &impl Wait,
    alloc: Global,
    limits: Limits,
    agent: u32,
    requests: LaneIn<Request>,
) -> Result<(Agent, AnswerLane), NoMemory>
    requires agent { (requests.agent ≡ agent) × (agent < most_agents) }
    requires unused { requests.sent ≡ [] }
    ensures agent { IfOk result
        (λ pair. pair.0 ≡ opened_agent limits.requests requests.lane pair.1) }
    ensures line { IfOk result (λ pair. IsLine agent pair.1) }
{
    let (mut halves, answers) = open_lane(rt, alloc, agent, 1, 1)?;
    let Some(half) = halves.pop() else {
        unreachable!()
    };
    let asks = Agent::new(agent, requests, answers, limits.requests());
    Ok((asks, AnswerLane::new(half, halves)))
}
