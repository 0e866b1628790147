//! Why a submission failed.
ghost use Rattle.std.specs.Prelude.{◌≡◌};
ghost use Rattle.dsn_smtp.specs.HandIn.{is_at_sender, is_broken, may_be_taken, is_refused_for_good};

use crate::hand_in_step::HandInStep;
use crate::reply_class::ReplyClass;
use crate::reply_code::ReplyCode;
use crate::reply_fault::ReplyFault;
use thiserror::Error;

/// Why a submission failed: the first step that went wrong, and the reason.
#[derive(Clone, Copy, Debug, PartialEq, Eq, Error)]
pub enum HandInFault {
    /// The reply at the step was of another class than the step wants.
    #[error("refused")]
    Refused(HandInStep, ReplyCode),
    /// No reply could be received at the step.
    #[error("no reply was heard")]
    Unheard(HandInStep, ReplyFault),
    /// The device failed before the step's command was sent whole.
    #[error("a command was not said")]
    Unsaid(HandInStep),
    /// The message has bytes above 127, and the server doesn't offer 8BITMIME (RFC 6152 section 3).
    /// Nothing was sent for it.
    #[error("the server has no 8BITMIME, and the notice has 8bit bytes")]
    NotOffered,
}

impl HandInFault {
    /// Whether the server may have accepted the message despite this fault (RFC 5321 section
    /// 4.2.5): it was sent, in whole or in part, and no refusal was received.
    pub fn may_be_taken(&self) -> bool
        ensures { result ≡ may_be_taken self.now }
    {
        matches!(
            self,
            HandInFault::Unheard(HandInStep::Message, _) | HandInFault::Unsaid(HandInStep::Message)
        )
    }

    /// Whether the server refused for good, by 5yz, or lacks what the message needs. After every
    /// other fault, a later attempt may end differently.
    pub fn is_refused_for_good(&self) -> bool
        ensures { result ≡ is_refused_for_good self.now }
    {
        match self {
            // At any step: the first digit alone counts.
            HandInFault::Refused(_, code) => matches!(code.class(), ReplyClass::RefusedForGood),
            HandInFault::Unheard(..) | HandInFault::Unsaid(_) => false,
            HandInFault::NotOffered => true,
        }
    }

    /// Whether a transaction failed at its first command: nothing after MAIL was sent in it.
    pub fn is_at_sender(&self) -> bool
        ensures { result ≡ is_at_sender self.now }
    {
        matches!(
            self,
            HandInFault::Refused(HandInStep::Sender, _)
                | HandInFault::Unheard(HandInStep::Sender, _)
                | HandInFault::Unsaid(HandInStep::Sender)
        )
    }

    /// Whether the device failed, so that nothing more can be sent over it.
    pub(crate) fn is_broken(&self) -> bool
        ensures { result ≡ is_broken (Some self.now) }
    {
        matches!(
            self,
            HandInFault::Unsaid(_) | HandInFault::Unheard(_, ReplyFault::Read)
        )
    }
}
