//! A goodbye, and why it was not heard.
ghost use Rattle.std.specs.Prelude.{◌≡◌, ◌<◌, length, IfErr, IfOk};
ghost use Rattle.dsn_crew.specs.lane.Lane.{most_sent};
ghost use Rattle.dsn_outcome.specs.History.{plain};
ghost use Rattle.dsn_outcome.specs.declared.answer.Reply.TheVariants.{Gone};
ghost use Rattle.dsn_outcome.specs.Request.{Bye};
ghost use Rattle.dsn_crew.specs.inner.Agent.{IsFaultOf, was_unsent};
ghost use Rattle.dsn_crew.specs.agents.Agent.{IsFinished, Stays, after_reply};

use crate::agents::ask_fault::AskFault;
use crate::agents::finished_agent::Finished;
use crate::agents::lane_halves::LaneHalves;
use crate::agents::unanswered::Unanswered;
use crate::lane::LaneGone;
use dsn_outcome::{Answer, Body, Reply};
use std::sync::Wait;

/// Why a goodbye was not heard.
#[derive(Clone, Copy, Debug, PartialEq, Eq)]
pub(crate) enum Cause {
    /// It was not sent: a lane reported, now or at an earlier request, that the collector is gone.
    Unsent(LaneGone),
    /// It was sent, and a lane reported that the collector is gone.
    Sent(LaneGone),
    /// It was answered by another reply than Gone.
    Answered,
}

/// A goodbye was not heard: a lane reported that the collector is gone, or another reply than Gone
/// came. Only a goodbye that was tried makes it, and an agent to which a lane had reported it before.
#[derive(Clone, Copy, Debug, PartialEq, Eq)]
pub(crate) struct Unheard {
    cause: Cause,
}

impl Unheard {
    /// A goodbye that isn't sent, since a lane reported before that the collector is gone.
    pub(crate) fn unsent(gone: LaneGone) -> Unheard
        ensures { was_unsent result }
    {
        Unheard {
            cause: Cause::Unsent(gone),
        }
    }

    /// The fault that a goodbye answers.
    pub(crate) fn into_fault(self) -> AskFault
        ensures { IsFaultOf self result }
    {
        match self.cause {
            Cause::Unsent(_) => AskFault::Lost(Some(Body::Bye)),
            Cause::Sent(_) => AskFault::Lost(None),
            Cause::Answered => AskFault::Lost(None),
        }
    }
}

/// Says the goodbye of an agent with these halves, and waits until the collector has heard it.
pub(crate) fn say_bye(rt: &impl Wait, halves: LaneHalves) -> Result<Finished, Unheard>
    requires answered { length halves.answers.taken ≡ length halves.requests.sent }
    requires room { length halves.requests.sent < most_sent }
    requires stays { Stays halves.requests.sent }
    ensures heard { IfOk result (λ finished. finished ≡ after_reply halves Bye (plain Gone)) }
    ensures finished { IfOk result IsFinished }
{
    let mut halves = halves;
    match halves.exchange(rt, Body::Bye) {
        Ok(
            Answer {
                reply: Reply::Gone,
                serial: None,
                ..
            },
        ) => Ok(Finished::new(halves)),
        Ok(_) => Err(Unheard {
            cause: Cause::Answered,
        }),
        Err(Unanswered { body, gone }) => Err(Unheard {
            cause: match body {
                Some(_) => Cause::Unsent(gone),
                None => Cause::Sent(gone),
            },
        }),
    }
}
