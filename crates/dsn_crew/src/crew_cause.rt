//! Why a run of a crew ended with a fault.
ghost use Rattle.std.specs.Prelude.{◌≡◌};
ghost use Rattle.dsn_crew.specs.Crew.{crew_cause_code};

use dsn_book::NotKept;
use dsn_text::fault_code;
use thiserror::Error;

/// Why a run of a crew ended with a fault.
#[derive(Clone, Copy, Debug, PartialEq, Eq, Error)]
pub enum CrewCause {
    /// A lane was lost: the collector, an agent or the poster was gone before its time.
    #[error("a lane was lost")]
    Lost,
    /// Memory or a thread was refused. If it was the thread of an agent, the other agents were served
    /// to their ends.
    #[error("memory or a thread was refused")]
    Refused,
    /// There are not 1 to 16 ports.
    #[error("a crew has 1 to 16 ports")]
    PortCount,
    /// A request was not kept, for this reason. It was neither carried out nor answered.
    #[error("a request was not kept")]
    Unkept(NotKept),
}

impl CrewCause {
    /// The number of the fault: 41, 42, 43 or 45.
    pub fn code(&self) -> u32
        ensures { result ≡ crew_cause_code self.now }
    {
        match self {
            CrewCause::Lost => fault_code::LANE_LOST,
            CrewCause::Refused => fault_code::CREW_REFUSED,
            CrewCause::PortCount => fault_code::AGENT_COUNT,
            CrewCause::Unkept(why) => why.code(),
        }
    }
}
