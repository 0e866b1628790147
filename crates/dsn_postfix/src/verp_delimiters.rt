//! The delimiters of a recipient in a return path.
//! Implements docs/postfix-internals.md, "What Postfix's programs send".
ghost use Rattle.std.specs.Prelude.{◌≡◌, ◌↔◌, IsSome, IfSome};
ghost use Rattle.dsn_postfix.specs.AttributeValues.{AreDelimiters};

use dsn_postfix_files::is_zero_free;
use std::marker::Model;

/// Two bytes, borrowed, neither of them zero. The first precedes the recipient in a return path,
/// and the second replaces the recipient's `@`.
#[derive(Debug, Drop)]
pub struct VerpDelimiters<'a> {
    bytes: &'a [u8],
}

impl<'a> Model for VerpDelimiters<'a> {
    ghost use Rattle.std.specs.Prelude.{ℕ, List};
    ghost use Rattle.dsn_postfix.specs.AttributeValues.{AreDelimiters};

    ghost Value = { List ℕ };

    ghost view = { λ d. d.bytes.now };

    ghost invariant = { λ d. AreDelimiters d.bytes.now };
}

impl<'a> VerpDelimiters<'a> {
    /// The delimiters in these bytes. Returns `None` unless they are two, neither of them zero.
    pub fn new(bytes: &'a [u8]) -> Option<VerpDelimiters<'a>>
        ensures some { IsSome result ↔ AreDelimiters bytes.now }
        ensures kept { IfSome result (λ delimiters. delimiters ≡ bytes.now) }
    {
        if bytes.len() != 2 || !is_zero_free(bytes) {
            return None;
        }
        Some(VerpDelimiters { bytes })
    }

    /// The two bytes.
    pub fn bytes(&self) -> &'a [u8]
        ensures same { result.now ≡ self.now }
        ensures legal { AreDelimiters self.now }
    {
        self.bytes
    }

    /// The same delimiters, borrowed from the same bytes.
    pub fn lent(&self) -> VerpDelimiters<'a>
        ensures { result ≡ self.now }
    {
        VerpDelimiters { bytes: self.bytes }
    }
}
