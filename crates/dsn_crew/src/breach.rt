//! Why a run of a crew ended with a fault, with what shows it.
ghost use Rattle.std.specs.Prelude.{◌≡◌};
ghost use Rattle.dsn_crew.specs.inner.Breach.{cause_of};

use crate::agents::Unheard;
use crate::crew_cause::CrewCause;
use crate::desk::HandedBack;
use crate::lane::LaneGone;
use dsn_book::NotKept;

/// Why a run of a crew ended with a fault, with what shows it.
///
/// Three types are evidence: only a lane makes a `LaneGone`, only a goodbye that was tried an
/// `Unheard`, and only a sink that was asked a `HandedBack`. They aren't one, since no contract says
/// that a lane is lost where a letter comes back, or where a goodbye is answered otherwise.
#[derive(Clone, Copy)]
pub(crate) enum Breach {
    /// A lane reported to the collector that the agents, or one of them, are gone.
    AgentGone(LaneGone),
    /// A lane reported to the poster that the collector is gone.
    CollectorGone(LaneGone),
    /// An agent's goodbye was not heard.
    Unheard(Unheard),
    /// The collector's sink handed a letter back.
    HandedBack(HandedBack),
    /// The collector has carried out 4,294,967,295 requests.
    Full,
    /// Requests were not kept, and so not carried out.
    Unkept(NotKept),
    /// Memory or a thread was refused.
    Refused,
    /// There are not 1 to 16 ports.
    PortCount,
}

impl Breach {
    /// The cause that is named for it.
    pub(crate) fn cause(&self) -> CrewCause
        ensures { result ≡ cause_of self.now }
    {
        match self {
            Breach::AgentGone(_)
            | Breach::CollectorGone(_)
            | Breach::Unheard(_)
            | Breach::HandedBack(_)
            | Breach::Full => CrewCause::Lost,
            Breach::Unkept(why) => CrewCause::Unkept(*why),
            Breach::Refused => CrewCause::Refused,
            Breach::PortCount => CrewCause::PortCount,
        }
    }
}
