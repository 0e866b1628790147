//! What is asked: fields, texts and bodies.
use dsn_outcome::{
    Address, Body, Draft, DraftParts, EnvelopeId, Key, Node, Outcome, OutcomeFault, Parts, QueueId,
    RawHeader, Service, Stamp, Types,
};
use std::alloc::Global;

/// The header of a message.
const HEADER: &[u8] = b"Subject: hi\nX: y\n";

/// What became of a failed recipient, with all the texts that there may be.
pub(crate) fn outcome(alloc: Global) -> Result<Box<Node>, OutcomeFault> {
    let parts = Parts {
        recipient: b"bob@example.org",
        original: b"bob.alias@example.org",
        action: 1,
        status: b"5.1.1",
        mta: b"mail.example.org",
        diagnostic: b"550 5.1.1 no such user",
        reason: b"host said:\nno such user",
        last_attempt: None,
        retry_until: None,
        types: Types::usual(),
        extensions: b"",
    };
    Outcome::new(alloc, Service::Bounce, parts)
}

/// A return path.
pub(crate) fn return_path(alloc: Global) -> Option<Address> {
    Address::new(alloc, b"ann@example.com").ok()
}

/// An envelope id.
pub(crate) fn envelope_id(alloc: Global) -> Option<EnvelopeId> {
    EnvelopeId::new(alloc, b"QQ314159").ok()
}

/// A header of two lines.
pub(crate) fn header(alloc: Global) -> Option<RawHeader> {
    RawHeader::new(alloc, HEADER).ok()
}

/// The extension fields of a message.
const EXTENSIONS: &[u8] = b"X-Postfix-Queue-ID: 4F9D195432C\n";

/// A draft of a notice to the return path.
pub(crate) fn draft(alloc: Global) -> Option<Draft> {
    let moment = Stamp::new(1_700_000_000)?;
    let mut fields = DraftParts::usual(b"ann@example.com", b"", HEADER);
    fields.extensions = EXTENSIONS;
    Draft::read(alloc, moment, moment, fields).ok()
}

/// The key of a message's bounce log.
pub(crate) fn key(message: &[u8]) -> Option<Key> {
    let id = QueueId::new(message)?;
    Some(Key {
        service: Service::Bounce,
        id,
    })
}

/// An append to a message's log.
pub(crate) fn append(alloc: Global, message: &[u8]) -> Option<Body> {
    let id = QueueId::new(message)?;
    let node = outcome(alloc).ok()?;
    Some(Body::Append(id, node))
}

/// A flush of a message's log.
pub(crate) fn flush(alloc: Global, message: &[u8]) -> Option<Body> {
    let key = key(message)?;
    let draft = draft(alloc)?;
    Some(Body::Flush(key, draft))
}
