//! Memory for the results of the agents' threads.
ghost use Rattle.std.specs.Prelude.{IfOk};
ghost use Rattle.dsn_crew.specs.inner.CrewMemory.{AreSlots};

use crate::agents::{AgentLine, Finished, Port, PortEnd};
use crate::start_serving::Serves;
use dsn_outcome::NoMemory;
use std::alloc::Global;
use std::thread::PromisedHandle;

/// Room for the agents' threads, for their results, and for the two parts of these.
#[derive(Drop)]
pub(crate) struct AgentMemory<P: Port> {
    pub(crate) handles: Vec<Option<PromisedHandle<PortEnd, Serves<P>>>>,
    pub(crate) ends: Vec<Option<PortEnd>>,
    pub(crate) lines: Vec<AgentLine>,
    pub(crate) finished: Vec<Finished>,
}

impl<P: Port> AgentMemory<P> {
    /// Room for this number of agents. Returns `NoMemory` only if memory is refused.
    pub(crate) fn take(alloc: Global, agents: u32) -> Result<AgentMemory<P>, NoMemory>
        ensures { IfOk result (AreSlots agents) }
    {
        let Ok(handles) = Vec::with_capacity(alloc, agents as usize) else {
            return Err(NoMemory);
        };
        let Ok(ends) = Vec::with_capacity(alloc, agents as usize) else {
            return Err(NoMemory);
        };
        let Ok(lines) = Vec::with_capacity(alloc, agents as usize) else {
            return Err(NoMemory);
        };
        let Ok(finished) = Vec::with_capacity(alloc, agents as usize) else {
            return Err(NoMemory);
        };
        Ok(AgentMemory {
            handles,
            ends,
            lines,
            finished,
        })
    }
}
