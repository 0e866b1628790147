//! The common part of all kinds of text: their fault, their allowed bytes, and how they are copied.
ghost use Rattle.std.specs.Prelude.{◌≡◌, IfOk};
ghost use Rattle.std.specs.List.{list_all};
ghost use Rattle.dsn_text.specs.inner.Kept.{allows};
ghost use Rattle.dsn_text.specs.Text.{is_mail_special, is_text, is_visible, is_printable};

use crate::no_memory::NoMemory;
use std::alloc::Global;
use thiserror::Error;

/// Why a text was refused.
#[derive(Clone, Copy, Debug, PartialEq, Eq, Error)]
pub enum TextFault {
    /// The text is too short or too long, or has a byte that its kind doesn't allow.
    #[error("not a legal text")]
    Bad,
    /// Memory for the text was refused.
    #[error("out of memory")]
    NoMemory,
}

impl From<NoMemory> for TextFault {
    ghost use Rattle.dsn_text.specs.declared.text.TextFault.{TextFault};

    ghost from_gives = { λ _ refusal. refusal ≡ TextFault.NoMemory };

    fn from(_: NoMemory) -> TextFault {
        TextFault::NoMemory
    }
}

/// A set of allowed bytes.
#[derive(Clone, Copy)]
pub(crate) enum Alphabet {
    /// ASCII digits.
    Digits,
    /// ASCII letters and digits.
    LettersAndDigits,
    /// Printable ASCII without the space, `<` and `>`.
    AddressBytes,
    /// The bytes of an atom: printable ASCII without the space and `()<>[]:;@\\,."`.
    AtomBytes,
    /// Printable ASCII without the space.
    Visible,
    /// Printable ASCII.
    Printable,
}

impl Alphabet {
    /// Whether the byte is allowed.
    pub(crate) fn allows(self, byte: u8) -> bool
        ensures { result ≡ allows self byte }
    {
        match self {
            Alphabet::Digits => byte.is_ascii_digit(),
            Alphabet::LettersAndDigits => matches!(byte, b'0'..=b'9' | b'A'..=b'Z' | b'a'..=b'z'),
            Alphabet::AddressBytes => matches!(byte, b'!'..=b'~') && byte != b'<' && byte != b'>',
            Alphabet::AtomBytes => matches!(byte, b'!'..=b'~') && !is_mail_special(byte),
            Alphabet::Visible => matches!(byte, b'!'..=b'~'),
            Alphabet::Printable => matches!(byte, b' '..=b'~'),
        }
    }

    /// Whether all bytes of a text are allowed. It doesn't stop at the first one that isn't, so
    /// that several bytes are checked at once.
    fn allows_all(self, text: &[u8]) -> bool
        ensures { result ≡ list_all (allows self) text.now }
    {
        let mut all = true;
        for byte in text {
            all &= self.allows(*byte);
        }
        all
    }

    /// Like `allows_all`, for texts that are mostly long. It checks all full groups of eight bytes,
    /// and then the last eight bytes, of which some are checked twice.
    fn allows_by_eights(self, text: &[u8]) -> bool
        ensures { result ≡ list_all (allows self) text.now }
    {
        if text.len() < 8 {
            return self.allows_all(text);
        }
        // A loop over groups of eight is compiled to vector code. The last one to seven bytes alone
        // would be checked one by one. A queue id of twelve bytes gains nothing by it.
        let whole = text.len() / 8 * 8;
        self.allows_all(&text[..whole]) & self.allows_all(&text[text.len() - 8..])
    }
}

/// Whether a byte is a special, which no atom may have (RFC 5322 section 3.2.3).
fn is_mail_special(byte: u8) -> bool
    ensures { result ≡ is_mail_special byte }
{
    matches!(
        byte,
        b'"' | b'('..=b')' | b',' | b'.' | b':'..=b'<' | b'>' | b'@' | b'['..=b']'
    )
}

/// Whether a text's length is from `least` to `most`, and its bytes are allowed.
pub(crate) fn has_form(text: &[u8], least: usize, most: usize, alphabet: Alphabet) -> bool
    ensures { result ≡ is_text (allows alphabet) least most text.now }
{
    least <= text.len() && text.len() <= most && alphabet.allows_all(text)
}

/// Like `has_form`, for texts that are mostly long.
pub(crate) fn has_long_form(text: &[u8], least: usize, most: usize, alphabet: Alphabet) -> bool
    ensures { result ≡ is_text (allows alphabet) least most text.now }
{
    least <= text.len() && text.len() <= most && alphabet.allows_by_eights(text)
}

/// A copy of the text. Returns `NoMemory` if memory for it was refused.
pub(crate) fn copied(alloc: Global, text: &[u8]) -> Result<Vec<u8>, NoMemory>
    ensures { IfOk result (λ copy. copy.items ≡ text.now) }
{
    text.to_vec(alloc).map_err(|_| NoMemory)
}
