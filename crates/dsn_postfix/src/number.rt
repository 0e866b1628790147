//! Numbers in decimal.
//! Implements docs/postfix-internals.md, "What Postfix's programs send".
ghost use Rattle.std.specs.Prelude.{◌≡◌, ℕ, ◌<◌, ◌==◌, Some, decimal, IfSome};
ghost use Rattle.std.specs.Cmp.Lexicographic.{pointwise};
ghost use Rattle.dsn_postfix.specs.Attribute.{number_in, number_limit, offset_limit};

use dsn_text::ShortText;
use std::str;

/// The 64-bit number that a text writes: digits alone, without leading zeros. Returns `None` for
/// any other text.
pub(crate) fn number_in(text: &[u8]) -> Option<u64>
    ensures { result ≡ number_in offset_limit text.now }
{
    match parsed(text) {
        Some(number) if writes(number, text) => Some(number),
        _ => None,
    }
}

/// The 32-bit number that a text writes: digits alone, without leading zeros. Returns `None` for
/// any other text.
pub(crate) fn short_number_in(text: &[u8]) -> Option<u32>
    ensures { result ≡ number_in number_limit text.now }
{
    match number_in(text) {
        Some(number) if number <= u32::MAX as u64 => Some(number as u32),
        _ => None,
    }
}

/// The number whose text this is. The result for any other text is not specified.
fn parsed(text: &[u8]) -> Option<u64>
    ensures known { (n : ℕ) → n < offset_limit → text.now ≡ decimal n → result ≡ Some n }
    ensures bounded { IfSome result (λ n. n < offset_limit) }
{
    match str::from_utf8(text) {
        Ok(digits) => digits.parse::<u64>().ok(),
        Err(_) => None,
    }
}

/// Whether `text` is the text of `number`.
fn writes(number: u64, text: &[u8]) -> bool
    ensures { result ≡ pointwise ◌==◌ (decimal number) text.now }
{
    let mut written = ShortText::new();
    written.push_number(number);
    written.bytes() == text
}
