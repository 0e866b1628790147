//! The results of the agents' threads, taken together.
ghost use Rattle.std.specs.Prelude.{◌≡◌, ◌≤◌, [], length, vec_capacity};
ghost use Rattle.dsn_crew.specs.inner.Gathered.{IsGathered};

use crate::agents::{AgentLine, Finished, PortEnd};
use crate::breach::Breach;

/// The results of agents that all said goodbye, in their order.
#[derive(Drop)]
pub(crate) struct Gathered {
    /// What each of them did.
    pub(crate) lines: Vec<AgentLine>,
    /// The agents.
    pub(crate) agents: Vec<Finished>,
}

/// Puts the results of the agents together. Returns `Unheard` if the goodbye of an agent was not
/// heard; else `Refused` if the thread of an agent could not be made.
#[tactic(auto, using(crate::proofs::GatheredLemmas::ended_all))]
pub(crate) fn gather(
    ends: Vec<Option<PortEnd>>,
    lines: Vec<AgentLine>,
    finished: Vec<Finished>,
) -> Result<Gathered, Breach>
    requires lines { (lines.items ≡ []) × (length ends.items ≤ vec_capacity lines) }
    requires finished { (finished.items ≡ []) × (length ends.items ≤ vec_capacity finished) }
    ensures { IsGathered ends.items result }
{
    let mut lines = lines;
    let mut agents = finished;
    let mut missing = false;
    let mut lost = None;
    for end in ends {
        match end {
            None => missing = true,
            Some(end) => {
                let (line, finished) = end.into_parts();
                lines.push_reserved(line);
                match finished {
                    Err(unheard) => lost = Some(unheard),
                    Ok(agent) => agents.push_reserved(agent),
                }
            }
        }
    }
    if let Some(unheard) = lost {
        Err(Breach::Unheard(unheard))
    } else if missing {
        Err(Breach::Refused)
    } else {
        Ok(Gathered { lines, agents })
    }
}
