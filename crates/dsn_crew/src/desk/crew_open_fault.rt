//! Why a crew was not opened.
ghost use Rattle.std.specs.Prelude.{◌≡◌};
ghost use Rattle.dsn_crew.specs.desk.Open.{crew_open_fault_code};

use dsn_text::fault_code;
use thiserror::Error;

/// Why a crew was not opened.
#[derive(Clone, Copy, Debug, PartialEq, Eq, Error)]
pub enum CrewOpenFault {
    /// The memory for the crew was refused.
    #[error("out of memory")]
    NoMemory,
    /// There are not 1 to 16 agents.
    #[error("a crew has 1 to 16 agents")]
    AgentCount,
}

impl CrewOpenFault {
    /// The number of the fault: 42 or 43.
    pub fn code(&self) -> u32
        ensures { result ≡ crew_open_fault_code self.now }
    {
        match self {
            CrewOpenFault::NoMemory => fault_code::CREW_REFUSED,
            CrewOpenFault::AgentCount => fault_code::AGENT_COUNT,
        }
    }
}
