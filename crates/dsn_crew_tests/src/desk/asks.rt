//! What agents ask, for tests, and the results.
ghost use Rattle.std.specs.Prelude.{◌≡◌};
ghost use Rattle.dsn_crew.specs.agents.AgentLanes.{lanes_of};

use crate::bodies::{Kind, body};
use dsn_crew::{Agent, AskFault};
use dsn_outcome::{Body, Reply};
use std::alloc::Global;
use std::sync::Wait;

/// The result of an ask: the reply; or the number of the fault, and whether the body came back.
pub(super) type Asked = Result<Reply, (u32, bool)>;

/// The number of a fault, and whether the body came back. (The fault is taken apart: as a whole it takes
/// long to prove that it is dropped.)
pub(super) fn told(fault: AskFault) -> (u32, bool) {
    let number = fault.code();
    match fault {
        AskFault::Limit(_body) => (number, true),
        AskFault::Lost(body) => (number, body.is_some()),
    }
}

/// Asks for a body that isn't a goodbye, and waits for the answer.
pub(super) fn ask(rt: &impl Wait, agent: &mut Agent, body: Option<Body>) -> Option<Asked>
    ensures { lanes_of agent.new.halves ≡ lanes_of agent.old.halves }
{
    let body = body?;
    if body.is_bye() {
        return None;
    }
    match agent.ask(rt, body) {
        Ok(answer) => Some(Ok(answer.reply)),
        Err(fault) => Some(Err(told(fault))),
    }
}

/// Asks for a discard.
pub(super) fn ask_discard(rt: &impl Wait, alloc: Global, agent: &mut Agent) -> Option<Asked> {
    ask(rt, agent, body(alloc, Kind::Discard, b"K1"))
}
