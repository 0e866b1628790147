//! Status codes, such as `5.1.1`.
//! Implements RFC 3463 section 2 and RFC 3464 section 2.3.4.
ghost use Rattle.std.specs.Prelude.{◌≡◌, ◌↔◌, ◌≤◌, length, IsTrue, IsSome, IfSome, Some, is_some};
ghost use Rattle.std.specs.List.{before_first, after_first, position_or_len};
ghost use Rattle.dsn_text.specs.Status.{IsStatusCode, is_class, is_class_text, is_dot, is_number_pair, is_number_text, is_status_code, has_leading_zero, status_class};

use crate::text::{Alphabet, has_form};
use std::marker::Model;
use std::{fmt, str};

/// The length limit of a status code, in bytes.
pub const LONGEST_STATUS: usize = 9;

/// A status code (RFC 3463 section 2): class `2`, `4` or `5`, subject and detail, joined by dots.
/// Subject and detail have one to three digits and no leading zero.
#[derive(Clone, Copy, Debug)]
pub struct Status {
    buffer: [u8; 9],
    len: u8,
}

impl Model for Status {
    ghost use Rattle.std.specs.Prelude.{ℕ, List, ◌++◌, ◌-◌, take, length, replicate, IsTrue};
    ghost use Rattle.std.proofs.Common.{arith};
    ghost use Rattle.dsn_text.specs.inner.Kept.{IsPadded};
    ghost use Rattle.dsn_text.specs.Status.{is_status_code};
    ghost use Rattle.dsn_text.specs.inner.Kept.{longest_status};

    ghost Value = { List ℕ };

    ghost view = { λ s. take s.len s.buffer };

    ghost invariant = { λ s. IsTrue (is_status_code (take s.len s.buffer))
        × IsPadded longest_status s.buffer s.len };

    ghost inverse = { λ t. record {
      buffer = t ++ replicate (longest_status - length t) 0;
      len = length t;
    } };

    ghost inverse_ok = { λ a h. Prim.grind arith };
}

impl Status {
    /// Whether a text is a valid status code.
    pub fn is_valid(text: &[u8]) -> bool
        ensures code { IsTrue result ↔ IsStatusCode text.now }
        ensures test { result ≡ is_status_code text.now }
        ensures short { IsTrue result → length text.now ≤ LONGEST_STATUS }
    {
        is_status_code(text)
    }

    /// Returns the status code with this text, or `None` if the text isn't valid. It takes no
    /// memory.
    pub fn read(text: &[u8]) -> Option<Status>
        ensures some { IsSome result ↔ IsStatusCode text.now }
        ensures test { is_some result ≡ is_status_code text.now }
        ensures kept { IfSome result (λ status. status ≡ text.now) }
    {
        if !Status::is_valid(text) {
            return None;
        }
        let mut buffer = [0; 9];
        buffer[..text.len()].copy_from_slice(text);
        Some(Status {
            buffer,
            len: text.len() as u8,
        })
    }

    /// The status code's text.
    pub fn bytes(&self) -> &[u8]
        ensures same { result.now ≡ self.now }
        ensures legal { IsStatusCode self.now }
    {
        &self.buffer[..self.len as usize]
    }

    /// The status code's text.
    pub fn as_str(&self) -> &str
        ensures { result.now ≡ self.now }
    {
        match str::from_utf8(self.bytes()) {
            Ok(text) => text,
            Err(_) => unreachable!(),
        }
    }

    /// The class: `2`, `4` or `5` as a byte.
    pub fn class(&self) -> u8
        ensures class { result ≡ status_class self.now }
        ensures known { IsTrue (is_class result) }
    {
        self.buffer[0]
    }
}

impl fmt::Display for Status {
    ghost output = { λ status. Some status };

    fn fmt<W: fmt::Write>(&self, f: &mut fmt::Formatter<W>) -> fmt::Result {
        f.write_str(self.as_str())
    }
}

/// Whether a text is a valid status code.
fn is_status_code(text: &[u8]) -> bool
    ensures { result ≡ is_status_code text.now }
{
    let (class, numbers) = split_at_dot(text);
    is_class_text(class) && is_number_pair(numbers)
}

/// Whether a text is a class only.
fn is_class_text(text: &[u8]) -> bool
    ensures { result ≡ is_class_text text.now }
{
    matches!(text, [b'2' | b'4' | b'5'])
}

/// Whether a text is two numbers with a dot between them.
fn is_number_pair(text: &[u8]) -> bool
    ensures { result ≡ is_number_pair text.now }
{
    let (subject, detail) = split_at_dot(text);
    is_number_text(subject) && is_number_text(detail)
}

/// Whether a text is a number of one to three digits without a leading zero. Most numbers have one
/// digit, and cost one comparison.
fn is_number_text(text: &[u8]) -> bool
    ensures { result ≡ is_number_text text.now }
{
    match text {
        [digit] => digit.is_ascii_digit(),
        _ => has_form(text, 1, 3, Alphabet::Digits) && !has_leading_zero(text),
    }
}

/// Whether a text begins with `0` and has more bytes.
fn has_leading_zero(text: &[u8]) -> bool
    ensures { result ≡ has_leading_zero text.now }
{
    matches!(text, [b'0', _, ..])
}

/// The text before the first dot, and the text after it. If there is no dot, the whole text is
/// before it.
fn split_at_dot(text: &[u8]) -> (&[u8], &[u8])
    ensures before { result.0.now ≡ before_first is_dot text.now }
    ensures after { result.1.now ≡ after_first is_dot text.now }
{
    let dot = first_dot(text);
    if dot < text.len() {
        (&text[..dot], &text[dot + 1..])
    } else {
        (text, &text[dot..])
    }
}

/// The place of the first dot, or the length of a text without a dot.
fn first_dot(text: &[u8]) -> usize
    ensures place { result ≡ position_or_len is_dot text.now }
    ensures within { result ≤ length text.now }
{
    text.iter()
        .position(|&byte| byte == b'.')
        .unwrap_or(text.len())
}
