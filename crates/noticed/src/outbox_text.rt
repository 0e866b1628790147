//! An outbox, taken apart into its mail transactions.
//! Implements noticed-notice(5).
use bstr::ByteSlice;
use dsn_smtp::Body;

/// A mail transaction in an outbox.
#[derive(Clone, Copy)]
pub(crate) struct OutboxTransaction<'a> {
    /// The path of its recipient, without angle brackets.
    pub(crate) path: &'a [u8],
    /// The message, with leading dots doubled and with the line of one dot that ends it.
    pub(crate) message: &'a [u8],
    /// What is behind it.
    pub(crate) rest: &'a [u8],
}

/// What the text of an outbox begins with, behind its greeting.
pub(crate) enum OutboxPart<'a> {
    Transaction(OutboxTransaction<'a>),
    /// QUIT, and nothing behind it.
    End,
    /// Anything else: a whole outbox doesn't end there.
    CutShort,
}

/// The end of a message (RFC 5321 section 4.1.1.4).
const MESSAGE_END: &[u8] = b"\r\n.\r\n";

/// The host of an outbox's greeting, and what is behind the greeting. Returns `None` if it has none.
pub(crate) fn greeting_of(text: &[u8]) -> Option<(&[u8], &[u8])> {
    let (line, rest) = text.split_once_str(b"\r\n")?;
    let host = line.strip_prefix(b"EHLO ")?;
    Some((host, rest))
}

/// What a text begins with, behind the greeting. Lines of NOOP, as a refused notice has them, are
/// passed over.
pub(crate) fn part_of(text: &[u8]) -> OutboxPart<'_> {
    let text = without_noops(text);
    if text == b"QUIT\r\n".as_slice() {
        return OutboxPart::End;
    }
    match transaction_of(text) {
        Some(transaction) => OutboxPart::Transaction(transaction),
        None => OutboxPart::CutShort,
    }
}

/// A text without the lines of NOOP that it begins with.
fn without_noops(text: &[u8]) -> &[u8] {
    let mut rest = text;
    for _ in 0..text.len() {
        match noop_line(rest) {
            Some(behind) => rest = behind,
            None => return rest,
        }
    }
    rest
}

/// What is behind the line of NOOP that a text begins with, if it begins with one.
fn noop_line(text: &[u8]) -> Option<&[u8]> {
    if !text.starts_with(b"NOOP ") {
        return None;
    }
    let (_, behind) = text.split_once_str(b"\n")?;
    Some(behind)
}

/// What is behind the line of MAIL that a text begins with. It may say BODY=8BITMIME (RFC 6152).
fn behind_sender(text: &[u8]) -> Option<&[u8]> {
    text.strip_prefix(Body::SevenBit.sender_line())
        .or(text.strip_prefix(Body::EightBit.sender_line()))
}

/// The transaction that a text begins with, if it is whole.
fn transaction_of(text: &[u8]) -> Option<OutboxTransaction<'_>> {
    let envelope = behind_sender(text)?.strip_prefix(b"RCPT TO:<")?;
    let (path, data) = envelope.split_once_str(b">\r\nDATA\r\n")?;
    let end = data.find(MESSAGE_END)?;
    let (message, rest) = data.split_at_checked(end.saturating_add(MESSAGE_END.len()))?;
    Some(OutboxTransaction {
        path,
        message,
        rest,
    })
}
