//! Bodies for tests.
use dsn_outcome::{
    Address, Body, Draft, Key, Node, Outcome, Parts, QueueId, RawHeader, Service, Stamp, Types,
    Wishes,
};
use std::alloc::Global;

/// What is asked for.
#[derive(Clone, Copy)]
pub(crate) enum Kind {
    /// An append of a failed recipient.
    Append,
    /// A flush for the sender.
    Flush,
    Discard,
}

/// A failed recipient.
fn failed(alloc: Global) -> Option<Box<Node>> {
    let parts = Parts {
        recipient: b"x@y",
        original: b"",
        action: 1,
        status: b"5.0.0",
        mta: b"",
        diagnostic: b"",
        reason: b"",
        last_attempt: None,
        retry_until: None,
        types: Types::usual(),
        extensions: b"",
    };
    Outcome::new(alloc, Service::Bounce, parts).ok()
}

/// A draft for the sender.
fn draft(alloc: Global) -> Option<Draft> {
    let moment = Stamp::new(1_700_000_000)?;
    let arrival = Stamp::new(1_699_996_400)?;
    let sender = Address::new(alloc, b"ann@example.com").ok()?;
    let header = RawHeader::new(alloc, b"").ok()?;
    Draft::new(
        alloc,
        moment,
        arrival,
        Some(sender),
        None,
        header,
        Wishes::usual(),
    )
    .ok()
}

/// The bounce log of this message.
fn log(id: QueueId) -> Key {
    Key {
        service: Service::Bounce,
        id,
    }
}

/// A body of this kind, about the bounce log of this message.
pub(crate) fn body(alloc: Global, kind: Kind, message: &[u8]) -> Option<Body> {
    let id = QueueId::new(message)?;
    match kind {
        Kind::Append => Some(Body::Append(id, failed(alloc)?)),
        Kind::Flush => Some(Body::Flush(log(id), draft(alloc)?)),
        Kind::Discard => Some(Body::Discard(log(id))),
    }
}
