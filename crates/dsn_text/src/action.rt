//! The action that a delivery agent took for a recipient (RFC 3464 section 2.3.3).
//! Implements noticed-protocol(5).
ghost use Rattle.std.specs.Prelude.{◌≡◌};
ghost use Rattle.dsn_text.specs.Action.{action_byte, action_of_byte, action_of_word, action_word};
ghost use Rattle.dsn_text.specs.Action.{fits_class, fits_retry};

use crate::stamp::Stamp;

/// The action of a recipient's outcome (RFC 3464 section 2.3.3).
#[derive(Clone, Copy, Debug, PartialEq, Eq, PartialOrd, Ord, Hash)]
pub enum Action {
    /// The message could not be delivered to the recipient.
    Failed,
    /// The message could not be delivered so far, and delivery is retried.
    Delayed,
    /// The message was delivered to the recipient.
    Delivered,
    /// The message was relayed to a system that doesn't report successful delivery.
    Relayed,
    /// The message was delivered and forwarded to several recipients.
    Expanded,
}

impl Action {
    /// The action of a request's byte, 1 to 5 in the order of the variants. Returns `None` for any
    /// other byte.
    pub fn from_byte(byte: u8) -> Option<Action>
        ensures { result ≡ action_of_byte byte }
    {
        match byte {
            1 => Some(Action::Failed),
            2 => Some(Action::Delayed),
            3 => Some(Action::Delivered),
            4 => Some(Action::Relayed),
            5 => Some(Action::Expanded),
            _ => None,
        }
    }

    /// The action's byte in a request.
    pub fn byte(self) -> u8
        ensures { result ≡ action_byte self }
    {
        match self {
            Action::Failed => 1,
            Action::Delayed => 2,
            Action::Delivered => 3,
            Action::Relayed => 4,
            Action::Expanded => 5,
        }
    }

    /// The action's word in a notice.
    pub fn word(self) -> &'static [u8]
        ensures { result.now ≡ action_word self }
    {
        match self {
            Action::Failed => b"failed",
            Action::Delayed => b"delayed",
            Action::Delivered => b"delivered",
            Action::Relayed => b"relayed",
            Action::Expanded => b"expanded",
        }
    }

    /// The action with this word in a notice. Returns `None` for any other word.
    pub fn from_word(word: &[u8]) -> Option<Action>
        ensures { result ≡ action_of_word word.now }
    {
        if word == b"failed".as_slice() {
            Some(Action::Failed)
        } else if word == b"delayed".as_slice() {
            Some(Action::Delayed)
        } else if word == b"delivered".as_slice() {
            Some(Action::Delivered)
        } else if word == b"relayed".as_slice() {
            Some(Action::Relayed)
        } else if word == b"expanded".as_slice() {
            Some(Action::Expanded)
        } else {
            None
        }
    }

    /// Whether a status of this class, `2`, `4` or `5`, fits the action (this project's profile).
    pub fn fits_class(self, class: u8) -> bool
        ensures { result ≡ fits_class self class }
    {
        match self {
            Action::Failed => class == b'4' || class == b'5',
            Action::Delayed => class == b'4',
            Action::Delivered | Action::Relayed | Action::Expanded => class == b'2',
        }
    }

    /// Whether an outcome of this action may have this value of retry-until. Only a delayed
    /// recipient may have a moment until which delivery is retried (RFC 3464 section 2.3.9).
    ///
    /// The daemon reads no clock, and either of an outcome's two moments may be the earlier one.
    pub fn fits_retry(self, retry_until: Option<Stamp>) -> bool
        ensures { result ≡ fits_retry self retry_until }
    {
        match self {
            Action::Delayed => true,
            Action::Failed | Action::Delivered | Action::Relayed | Action::Expanded => {
                retry_until.is_none()
            }
        }
    }
}
