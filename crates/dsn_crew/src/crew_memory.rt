//! What a run of a crew needs memory for.
ghost use Rattle.std.specs.Prelude.{◌≡◌, ◌^◌, ◌<◌, ◌≤◌, List, [], IfErr, IfOk};
ghost use Rattle.dsn_crew.specs.lane.Lane.{most_agents, most_waiting};
ghost use Rattle.dsn_outcome.specs.History.{Exchange};
ghost use Rattle.dsn_crew.specs.inner.CrewMemory.{IsRoom};
ghost use Rattle.dsn_crew.specs.KeeperHistory.{BeginsWith};

use crate::agent_memory::AgentMemory;
use crate::agents::{Agent, Port};
use crate::desk::{Desk, open_room};
use crate::post::{LetterSink, LetterSource, open_post};
use dsn_book::Keeper;
use std::alloc::Global;
use std::sync::Wait;

/// All that a run needs memory for, except what the system takes to start a thread. So once the
/// first is started no growth of the run's own is refused.
#[derive(Drop)]
pub(crate) struct CrewMemory<P: Port, B: Keeper> {
    pub(crate) agents: Vec<Agent>,
    pub(crate) desk: Desk<B>,
    pub(crate) sink: LetterSink,
    pub(crate) source: LetterSource,
    pub(crate) slots: AgentMemory<P>,
}

impl<P: Port, B: Keeper + Drop> CrewMemory<P, B> {
    /// The room of a run with this number of agents, in which this number of letters may wait. Returns
    /// what carries the requests out if memory is refused.
    pub(crate) fn take(
        rt: &impl Wait,
        alloc: Global,
        book: B,
        agents: u32,
        letters: u32,
    ) -> Result<CrewMemory<P, B>, B>
        requires count { (1 ≤ agents) × (agents ≤ most_agents) }
        requires letters { (1 ≤ letters) × (letters ≤ most_waiting) }
        requires begins { (before : List Exchange) × BeginsWith B.Keeper book before }
        requires few { B.sealed book < 2 ^ 63 }
        ensures room { IfOk result (IsRoom B.Keeper book agents letters) }
        ensures back { IfErr result (λ back. back ≡ book) }
    {
        // On the caller's thread, before the first thread starts.
        let (crew, desk) = open_room(rt, alloc, book, agents)?;
        let Ok((sink, source)) = open_post(rt, alloc, letters) else {
            return Err(desk.into_book());
        };
        let Ok(slots) = AgentMemory::take(alloc, agents) else {
            return Err(desk.into_book());
        };
        Ok(CrewMemory {
            agents: crew,
            desk,
            sink,
            source,
            slots,
        })
    }
}
