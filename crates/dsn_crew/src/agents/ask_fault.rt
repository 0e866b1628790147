//! Why a request has no answer.
ghost use Rattle.std.specs.Prelude.{◌≡◌};
ghost use Rattle.dsn_crew.specs.agents.Agent.{ask_fault_code};

use dsn_outcome::Body;
use dsn_text::fault_code;

/// Why a request has no answer.
#[derive(Drop)]
pub enum AskFault {
    /// The agent's requests are used up: the body is returned, and the agent may say goodbye.
    Limit(Body),
    /// A lane's other half is gone, now or at an earlier request. The body is returned if the request
    /// was not sent.
    Lost(Option<Body>),
}

impl AskFault {
    /// The number of the fault: 44 or 41.
    pub fn code(&self) -> u32
        ensures { result ≡ ask_fault_code self.now }
    {
        match self {
            AskFault::Limit(_) => fault_code::USED_UP,
            AskFault::Lost(_) => fault_code::LANE_LOST,
        }
    }
}
