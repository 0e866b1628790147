//! The queue id that a mail server reports when it accepts a message.
//! Implements docs/postfix-internals.md, "Lines on standard error".
ghost use Rattle.std.specs.Prelude.{◌≡◌, ◌==◌, ℕ, List, Some, IfSome};
ghost use Rattle.std.specs.List.{after_last};
ghost use Rattle.dsn_smtp.specs.QueueIdIn.{TellsQueueId};

use dsn_text::QueueId;

/// The text before the queue id in a reply, as Postfix writes it.
const QUEUED_AS: &[u8] = b"queued as ";

/// The queue id at the end of a reply's text: 1 to 32 letters and digits behind `queued as `, as
/// Postfix writes it (`2.0.0 Ok: queued as 4F9D195432C`). Returns `None` if there is no such id, as
/// with other mail servers.
pub fn queue_id_in(text: &[u8]) -> Option<QueueId>
    ensures found { IfSome result (λ id. TellsQueueId text.now id) }
    ensures only { (id : List ℕ) → TellsQueueId text.now id → result ≡ Some id }
{
    let id = after_last_byte(text, b' ');
    let before = &text[..text.len() - id.len()];
    if !before.ends_with(QUEUED_AS) {
        return None;
    }
    QueueId::new(id)
}

/// The bytes after the last occurrence of `byte`, or all bytes if it doesn't occur.
pub fn after_last_byte(bytes: &[u8], byte: u8) -> &[u8]
    ensures { result.now ≡ after_last (λ b. b == byte) bytes.now }
{
    let mut start = bytes.len();
    while start > 0 && bytes[start - 1] != byte {
        start -= 1;
    }
    &bytes[start..]
}
