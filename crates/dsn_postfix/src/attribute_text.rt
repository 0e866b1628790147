//! The value of an attribute.
//! Implements docs/postfix-internals.md, "What Postfix's programs send".
ghost use Rattle.std.specs.Prelude.{◌≡◌, ◌↔◌, ◌+◌, ◌<◌, drop, length, IsSome, IfSome, MatchOption};
ghost use Rattle.dsn_postfix.specs.Attribute.{zero_ended_at};
ghost use Rattle.dsn_postfix_files.specs.ZeroFree.{IsZeroFree, is_zero_free};

use dsn_postfix_files::is_zero_free;
use memchr::memchr;
use std::marker::Model;

/// The value of an attribute, borrowed: any bytes except zero.
#[derive(Debug, Drop)]
pub struct AttributeText<'a> {
    bytes: &'a [u8],
}

impl<'a> Model for AttributeText<'a> {
    ghost use Rattle.std.specs.Prelude.{ℕ, List};
    ghost use Rattle.dsn_postfix_files.specs.ZeroFree.{IsZeroFree};

    ghost Value = { List ℕ };

    ghost view = { λ t. t.bytes.now };

    ghost invariant = { λ t. IsZeroFree t.bytes.now };
}

impl<'a> AttributeText<'a> {
    /// The text of these bytes. Returns `None` if one of them is zero.
    pub fn new(bytes: &'a [u8]) -> Option<AttributeText<'a>>
        ensures some { IsSome result ↔ IsZeroFree bytes.now }
        ensures kept { IfSome result (λ text. text ≡ bytes.now) }
    {
        if !is_zero_free(bytes) {
            return None;
        }
        Some(AttributeText { bytes })
    }

    /// The text before the first zero. Returns `None` if there is no zero.
    pub(crate) fn before_zero(bytes: &'a [u8]) -> Option<AttributeText<'a>>
        ensures text { MatchOption result (zero_ended_at bytes.now ≡ None)
            (λ text. zero_ended_at bytes.now ≡ Some (text, drop (length text + 1) bytes.now)) }
        ensures within { IfSome result (λ text. length text < length bytes.now) }
    {
        match memchr(0, bytes) {
            Some(end) => Some(AttributeText {
                bytes: &bytes[..end],
            }),
            None => None,
        }
    }

    /// The text.
    pub fn bytes(&self) -> &'a [u8]
        ensures same { result.now ≡ self.now }
        ensures legal { IsZeroFree self.now }
    {
        self.bytes
    }

    /// The same text, borrowed from the same bytes.
    pub fn lent(&self) -> AttributeText<'a>
        ensures { result ≡ self.now }
    {
        AttributeText { bytes: self.bytes }
    }
}
