//! The body of a delivery agent's request.
//! Implements noticed-protocol(5).
use crate::draft::Draft;
use crate::letter_cell::DraftTerms;
use crate::outcome::Outcome;
use crate::outcome_node::Node;
use dsn_text::{Key, QueueId};

/// The body of a request: what a delivery agent asks the daemon to do.
#[derive(Drop)]
pub enum Body {
    /// Log this outcome of the message with this queue id. The outcome names the service.
    Append(QueueId, Box<Node>),
    /// Seal this log and make a notice of it.
    Flush(Key, Draft),
    /// Drop this log.
    Discard(Key),
    /// Release this key if its log is closed.
    Forget(Key),
    /// The agent leaves.
    Bye,
}

/// The body of a request about a key, with borrowed parts.
#[derive(Clone, Copy)]
pub enum BodyRef<'a> {
    /// Log this outcome of the message with this queue id. The outcome names the service.
    Append(&'a QueueId, &'a Outcome),
    /// Seal this log and make a notice of it.
    Flush(&'a Key, &'a DraftTerms),
    /// Drop this log.
    Discard(&'a Key),
    /// Release this key if its log is closed.
    Forget(&'a Key),
}

impl Body {
    ghost use Rattle.std.specs.Prelude.{◌≡◌, ◌↔◌, IsTrue, IfSome, IfNone};
    ghost use Rattle.dsn_outcome.specs.Request.{key_of, Bye};
    ghost use Rattle.dsn_outcome.specs.Body.{body_of, body_lent};

    /// Returns the key of the log that the request is about, or `None` for `Bye`.
    pub fn key(&self) -> Option<Key>
        ensures { result ≡ key_of (body_of self.now) }
    {
        match self {
            Body::Append(id, node) => Some(Key {
                service: node.outcome().service(),
                id: *id,
            }),
            Body::Flush(key, _) | Body::Discard(key) | Body::Forget(key) => Some(*key),
            Body::Bye => None,
        }
    }

    /// Whether the request is `Bye`.
    pub fn is_bye(&self) -> bool
        ensures { IsTrue result ↔ (body_of self.now ≡ Bye) }
    {
        matches!(self, Body::Bye)
    }

    /// Returns the same body with borrowed parts, or `None` for `Bye`.
    pub fn lent(&self) -> Option<BodyRef<'_>>
        ensures same { IfSome result (λ lent. body_lent lent ≡ body_of self.now) }
        ensures none { IfNone result (body_of self.now ≡ Bye) }
    {
        match self {
            Body::Append(id, node) => Some(BodyRef::Append(id, node.outcome())),
            Body::Flush(key, draft) => Some(BodyRef::Flush(key, draft.terms())),
            Body::Discard(key) => Some(BodyRef::Discard(key)),
            Body::Forget(key) => Some(BodyRef::Forget(key)),
            Body::Bye => None,
        }
    }
}
