//! The name of a queue.
//! Implements docs/postfix-internals.md, "What Postfix's programs send".
ghost use Rattle.std.specs.Prelude.{◌≡◌, ◌↔◌, IsSome, IfSome};
ghost use Rattle.std.specs.List.{list_all};
ghost use Rattle.dsn_text.specs.Text.{is_letter_or_digit};
ghost use Rattle.dsn_postfix.specs.AttributeValues.{IsQueueName};

use std::marker::Model;

/// The longest name of a queue, in bytes.
const LONGEST_QUEUE_NAME: usize = 100;

/// The name of a queue, borrowed: 1 to 100 ASCII letters and digits. The queue's folder has this
/// name.
#[derive(Debug, Drop)]
pub struct QueueName<'a> {
    bytes: &'a [u8],
}

impl<'a> Model for QueueName<'a> {
    ghost use Rattle.std.specs.Prelude.{ℕ, List};
    ghost use Rattle.dsn_postfix.specs.AttributeValues.{IsQueueName};

    ghost Value = { List ℕ };

    ghost view = { λ n. n.bytes.now };

    ghost invariant = { λ n. IsQueueName n.bytes.now };
}

impl<'a> QueueName<'a> {
    /// The name in these bytes. Returns `None` if they are not a valid name.
    pub fn new(bytes: &'a [u8]) -> Option<QueueName<'a>>
        ensures some { IsSome result ↔ IsQueueName bytes.now }
        ensures kept { IfSome result (λ name. name ≡ bytes.now) }
    {
        if bytes.is_empty() || LONGEST_QUEUE_NAME < bytes.len() || !has_letters_and_digits(bytes) {
            return None;
        }
        Some(QueueName { bytes })
    }

    /// The name.
    pub fn bytes(&self) -> &'a [u8]
        ensures same { result.now ≡ self.now }
        ensures legal { IsQueueName self.now }
    {
        self.bytes
    }

    /// The same name, borrowed from the same bytes.
    pub fn lent(&self) -> QueueName<'a>
        ensures { result ≡ self.now }
    {
        QueueName { bytes: self.bytes }
    }
}

fn has_letters_and_digits(bytes: &[u8]) -> bool
    ensures { result ≡ list_all is_letter_or_digit bytes.now }
{
    let mut all = true;
    for byte in bytes {
        all &= byte.is_ascii_alphanumeric();
    }
    all
}
