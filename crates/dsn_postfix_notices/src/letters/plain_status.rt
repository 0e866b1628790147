//! Removes the leading zeros from the numbers of a log record's status.
//! RFC 3463 section 2 allows no such zeros, but Postfix accepts them.
//! Implements docs/postfix-internals.md, "The notice of a Postfix log".
ghost use Rattle.std.specs.Prelude.{◌≡◌, IfOk};
ghost use Rattle.dsn_postfix_notices.specs.letters.PlainStatus.{begins_with_digit, is_spare_zero, plain_status};

use std::alloc::{AllocError, Global};

fn begins_with_digit(text: &[u8]) -> bool
    ensures { result ≡ begins_with_digit text.now }
{
    match text {
        [byte, ..] => byte.is_ascii_digit(),
        [] => false,
    }
}

/// Whether a byte is a leading zero of a number that has more digits.
fn is_spare_zero(at_front: bool, byte: u8, after: &[u8]) -> bool
    ensures { result ≡ is_spare_zero at_front byte after.now }
{
    at_front && byte == b'0' && begins_with_digit(after)
}

/// A status without leading zeros in its numbers, as RFC 3463 section 2 writes it.

pub(super) fn plain_status(alloc: Global, status: &[u8]) -> Result<Vec<u8>, AllocError>
    ensures { IfOk result (λ plain. plain.items ≡ plain_status status.now) }
{
    let mut plain = Vec::new(alloc);
    let mut at_front = true;
    let mut rest = status;
    while let [byte, after @ ..] = rest {
        if !is_spare_zero(at_front, *byte, after) {
            plain.push(*byte)?;
            at_front = *byte == b'.';
        }
        rest = after;
    }
    Ok(plain)
}
