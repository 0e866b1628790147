//! What comes if one side of a crew is gone.
use super::asks::{Asked, ask_discard, told};
use super::turns::takes_one;
use crate::assert_same::same;
use dsn_book::Limits;
use dsn_crew::{Agent, Desk, open_crew};
use std::alloc::Global;
use std::sync::Wait;
use std::test::Fail;
use std::time::Clock;

/// A crew of two.
fn opened(rt: &impl Wait, alloc: Global) -> Option<(Vec<Agent>, Desk)> {
    let limits = Limits::new(8, 8, 8)?;
    open_crew(rt, alloc, limits, 2).ok()
}

/// The number of the fault with which a goodbye ends, or 0.
fn bye(rt: &impl Wait, agent: Agent) -> u32 {
    match agent.bye(rt) {
        Ok(_) => 0,
        Err(fault) => told(fault).0,
    }
}

/// The results of two asks and a goodbye of an agent whose collector is gone.
fn without_desk(rt: &impl Wait, alloc: Global) -> Option<(Option<Asked>, Option<Asked>, u32)> {
    let (mut agents, desk) = opened(rt, alloc)?;
    drop(desk);
    let mut agent = agents.pop()?;
    let first = ask_discard(rt, alloc, &mut agent);
    let second = ask_discard(rt, alloc, &mut agent);
    Some((first, second, bye(rt, agent)))
}

#[test]
fn agent_without_its_collector_is_lost(rt: HostRuntime) {
    let lost = Some(Err((41, true)));
    let seen = without_desk(&rt, rt.alloc());
    same(&rt, seen, Some((lost, lost, 41)));
}

/// Whether a collector takes a request whose agents are gone without a goodbye, twice, and whether it
/// says then that all said goodbye.
fn without_agents(rt: &(impl Wait + Clock), alloc: Global) -> Option<[bool; 3]> {
    let (agents, mut desk) = opened(rt, alloc)?;
    drop(agents);
    let first = takes_one(rt, &mut desk);
    let second = takes_one(rt, &mut desk);
    Some([first, second, desk.all_gone()])
}

#[test]
fn collector_without_agents_has_failed(rt: HostRuntime) -> Result<(), Fail> {
    same(&rt, without_agents(&rt, rt.alloc()), Some([false; 3]));
    Ok(())
}
