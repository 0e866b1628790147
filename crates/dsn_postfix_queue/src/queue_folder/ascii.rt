//! ASCII bytes as a text.
use dsn_text::QueueId;

/// ASCII bytes as a text. Returns an empty text if the bytes are not UTF-8.
pub fn ascii_text(bytes: &[u8]) -> &str {
    str::from_utf8(bytes).unwrap_or("")
}

/// The beginning of a line about a request: the queue id of its message, or `no request`.
pub fn asked_text(asked: &Option<QueueId>) -> &str {
    match asked {
        Some(id) => ascii_text(id.bytes()),
        None => "no request",
    }
}
