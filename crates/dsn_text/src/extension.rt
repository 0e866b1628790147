//! Extension fields, in which a mail system reports more on a message or a recipient than the
//! fields of RFC 3464 do (RFC 3464 section 2.4).
//! Implements noticed-protocol(5).
ghost use Rattle.std.specs.Prelude.{◌≡◌, ◌<◌, ◌≤◌, ◌==◌, [], ◌∷◌, length, IsTrue, IfSome, MatchOption};
ghost use Rattle.std.specs.List.{after_first, before_first, position_or_len};
ghost use Rattle.dsn_text.specs.Extension.{IsExtensionText, are_extension_lines, lines_ended_by_lf, is_extension_line, is_extension_name, is_extension_rest, is_extension_text, is_feed, most_extensions};

use crate::text::{Alphabet, has_form};

/// The length limit of an extension field's name, in bytes with its `X-` (this project's profile).
pub const LONGEST_EXTENSION_NAME: usize = 64;

/// The length limit of an extension field's value, in bytes (this project's profile).
pub const LONGEST_EXTENSION_VALUE: usize = 255;

/// The limit of extension fields in a text (this project's profile).
///
/// The limits are small so that a log of 1,000 outcomes stays small.
pub const MOST_EXTENSIONS: usize = 8;

/// The length limit of a text of extension fields, in bytes. Each field has a colon, a space and LF
/// as well.
pub const LONGEST_EXTENSION_TEXT: usize = 2576;

/// Whether a text is extension fields (RFC 3464 section 2.4): at most 8 lines, each ended by LF
/// alone, and nothing after them. A line is a name, a colon, a space and a value. The name is an
/// atom (RFC 5322 section 3.2.3) of 3 to 64 bytes that begins with `X-`. The value is 1 to 255
/// printable bytes. It takes no memory.
pub fn is_extension_text(text: &[u8]) -> bool
    ensures test { result ≡ is_extension_text text.now }
    ensures fields { IsTrue result → IsExtensionText text.now }
{
    is_empty_or_lines(text)
}

/// Whether a text is extension fields. Most texts are empty, and cost one comparison.
#[tactic(auto, unfolding(crate::specs::Extension::are_extension_lines))]
fn is_empty_or_lines(text: &[u8]) -> bool
    ensures { result ≡ is_extension_text text.now }
{
    text.is_empty() || are_extension_lines(text)
}

/// Whether a text is at most 8 extension fields, one line after another.
#[inline(never)]
fn are_extension_lines(text: &[u8]) -> bool
    ensures { result ≡ are_extension_lines most_extensions text.now }
{
    let mut rest = text;
    for _ in 0..MOST_EXTENSIONS {
        let Some((line, after)) = first_ended_line(rest) else {
            return rest.is_empty();
        };
        if !is_extension_line(line) {
            return false;
        }
        rest = after;
    }
    rest.is_empty()
}

/// Returns the first line that ends with LF, without the LF, and the text after it. Returns `None`
/// if the text has no LF.
///
/// A CR is never part of a line end, so no CR from a client can end a line of the notice early.
#[tactic(auto, using(crate::proofs::ExtensionLemmas::lines_ended_by_lf_first, crate::proofs::ExtensionLemmas::lines_ended_by_lf_none, crate::proofs::ExtensionLemmas::feed_before))]
pub fn first_ended_line(text: &[u8]) -> Option<(&[u8], &[u8])>
    ensures lines { MatchOption result (lines_ended_by_lf text.now ≡ [])
        (λ cut. lines_ended_by_lf text.now ≡ cut.0.now ∷ lines_ended_by_lf cut.1.now) }
    ensures place { MatchOption result (length text.now ≤ position_or_len is_feed text.now)
        (λ cut. position_or_len is_feed text.now < length text.now) }
    ensures before { IfSome result (λ cut. cut.0.now ≡ before_first is_feed text.now) }
    ensures after { IfSome result (λ cut. cut.1.now ≡ after_first is_feed text.now) }
{
    let (line, rest) = split_at_first(text, b'\n');
    if line.len() == text.len() {
        return None;
    }
    Some((line, rest))
}

/// Whether a line is a valid extension field.
#[tactic(auto, unfolding(crate::specs::Extension::is_extension_line))]
fn is_extension_line(line: &[u8]) -> bool
    ensures { result ≡ is_extension_line line.now }
{
    let (name, rest) = split_at_first(line, b':');
    is_extension_name(name) && is_extension_rest(rest)
}

/// Whether a text is a valid name of an extension field.
///
/// Names with `X-` are for experiments and for the fields of one mail system. Any other name must
/// be registered (RFC 3464 section 2.4), and the daemon may write a field of that name itself.
fn is_extension_name(name: &[u8]) -> bool
    ensures { result ≡ is_extension_name name.now }
{
    name.starts_with(b"X-") && has_form(name, 3, LONGEST_EXTENSION_NAME, Alphabet::AtomBytes)
}

/// Whether a text is a space and a valid value of an extension field.
fn is_extension_rest(rest: &[u8]) -> bool
    ensures { result ≡ is_extension_rest rest.now }
{
    rest.starts_with(b" ") && has_form(&rest[1..], 1, LONGEST_EXTENSION_VALUE, Alphabet::Printable)
}

/// The text before the first occurrence of a byte, and the text after it. If the byte doesn't
/// occur, the whole text is before it.
fn split_at_first(text: &[u8], sought: u8) -> (&[u8], &[u8])
    ensures before { result.0.now ≡ before_first (λ byte. byte == sought) text.now }
    ensures after { result.1.now ≡ after_first (λ byte. byte == sought) text.now }
{
    let place = first_place(text, sought);
    if place < text.len() {
        (&text[..place], &text[place + 1..])
    } else {
        (text, &text[place..])
    }
}

/// The place of the first occurrence of a byte, or the length of the text if the byte doesn't
/// occur.
fn first_place(text: &[u8], sought: u8) -> usize
    ensures place { result ≡ position_or_len (λ byte. byte == sought) text.now }
    ensures within { result ≤ length text.now }
{
    text.iter()
        .position(|&byte| byte == sought)
        .unwrap_or(text.len())
}
