//! What an agent's thread gives back.
ghost use Rattle.std.specs.Prelude.{◌≡◌, None, Some};

use crate::agents::agent_line::AgentLine;
use crate::agents::finished_agent::Finished;
use crate::agents::unheard::Unheard;
use std::marker::Model;

/// How an agent that served its port ended. One whose goodbye was not heard keeps why.
#[derive(Drop)]
pub(crate) struct PortEnd {
    /// What the agent did, up to its goodbye.
    pub(crate) line: AgentLine,
    /// The agent, once it said goodbye and was heard; `None` if a lane was lost.
    pub(crate) finished: Option<Finished>,
    /// Why its goodbye was not heard.
    unheard: Option<Unheard>,
}

impl Model for PortEnd {
    ghost use Rattle.std.specs.Prelude.{◌≡◌, is_none, is_some};
    ghost use Rattle.dsn_crew.specs.inner.PortEnd.{PortEnd};

    ghost Value = { PortEnd };

    ghost view = { λ e. record { line = e.line; finished = e.finished } };

    ghost invariant = { λ e. is_some e.unheard ≡ is_none e.finished };
}

impl PortEnd {
    ghost use Rattle.std.specs.Result.{result_ok};

    /// The end of an agent whose goodbye was heard.
    pub(crate) fn heard(line: AgentLine, finished: Finished) -> PortEnd
        ensures { result ≡ record { line = line; finished = Some finished } }
    {
        PortEnd {
            line,
            finished: Some(finished),
            unheard: None,
        }
    }

    /// The end of an agent whose goodbye was not heard.
    pub(crate) fn unheard(line: AgentLine, unheard: Unheard) -> PortEnd
        ensures { result ≡ record { line = line; finished = None } }
    {
        PortEnd {
            line,
            finished: None,
            unheard: Some(unheard),
        }
    }

    /// What the agent did, and the agent, or why it was not heard.
    pub(crate) fn into_parts(self) -> (AgentLine, Result<Finished, Unheard>)
        ensures line { result.0 ≡ self.line }
        ensures finished { result_ok result.1 ≡ self.finished }
    {
        let PortEnd {
            line,
            finished,
            unheard,
        } = self;
        let heard = match finished {
            Some(finished) => Ok(finished),
            None => match unheard {
                Some(unheard) => Err(unheard),
                None => unreachable!(),
            },
        };
        (line, heard)
    }
}
