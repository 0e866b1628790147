//! The text that a notice returns of a message.
//! Implements RFC 2045 sections 2.7 and 2.8, RFC 3461 section 4.3, and noticed-notice(5).
ghost use Rattle.std.specs.Prelude.{◌≡◌, ◌==◌, ◌&&◌, length, nat_lt};
ghost use Rattle.std.specs.List.{list_all, list_any};
ghost use Rattle.std.specs.Str.Lines.{lines};
ghost use Rattle.dsn_report.specs.Boundary.{returned_lines, returns_eight_bit, returns_message};
ghost use Rattle.dsn_report.specs.LegalLines.{has_high_byte, is_eight_bit_byte, is_eight_bit_line, is_mail_byte, is_mail_line};
ghost use Rattle.dsn_report.specs.inner.NoticeLines.{lines_shown};

use crate::returned_lines::{LONGEST_LINE, ReturnedLines, first_line};
use dsn_outcome::{Letter, Returned};

/// The text that a notice returns of a message: all its lines, or those of its header.
#[derive(Clone, Copy)]
pub(crate) struct ReturnedText<'a> {
    /// The text as it came.
    pub(crate) bytes: &'a [u8],
    /// Whether all lines are returned unchanged.
    pub(crate) whole: bool,
    /// Whether some line has a byte above 127, so that the notice is an 8bit mail.
    pub(crate) eight_bit: bool,
}

impl<'a> ReturnedText<'a> {
    /// The text that the notice of a letter returns (RFC 3461 section 4.3).
    pub(crate) fn of(letter: &'a Letter) -> ReturnedText<'a>
        ensures whole { result.whole ≡ returns_message letter.now.draft }
        ensures eight_bit { result.eight_bit ≡ returns_eight_bit letter.now.draft }
        ensures bytes { result.bytes.now ≡ letter.now.draft.header }
        ensures lines { lines_shown result.whole result.bytes.now
            ≡ returned_lines letter.now.draft }
    {
        let bytes = letter.header().bytes();
        let carriage = carriage_of(letter, bytes);
        ReturnedText {
            bytes,
            whole: carriage.whole,
            eight_bit: carriage.eight_bit,
        }
    }

    /// Whether there are no returned lines.
    #[tactic(auto, using(crate::proofs::HeaderLemmas::none_shown))]
    pub(crate) fn is_empty(self) -> bool
        ensures { result ≡ (length (lines_shown self.entry.whole self.entry.bytes.now) == 0) }
    {
        let (line, _) = first_line(self.bytes);
        if self.whole {
            self.bytes.is_empty()
        } else {
            line.is_empty()
        }
    }

    /// An iterator over the returned lines.
    pub(crate) fn lines(self) -> ReturnedLines<'a>
        ensures rest { result.rest.now ≡ self.entry.bytes.now }
        ensures whole { result.whole ≡ self.entry.whole }
    {
        ReturnedLines {
            rest: self.bytes,
            whole: self.whole,
        }
    }
}

/// How a notice returns a text.
#[derive(Clone, Copy)]
struct Carriage {
    /// Whether all lines are returned unchanged.
    whole: bool,
    /// Whether some returned line has a byte above 127.
    eight_bit: bool,
}

/// How the notice of a letter returns its text. Requires that it is the letter's text.
fn carriage_of(letter: &Letter, text: &[u8]) -> Carriage
    requires { text.now ≡ letter.now.draft.header }
    ensures whole { result.whole ≡ returns_message letter.now.draft }
    ensures eight_bit { result.eight_bit ≡ returns_eight_bit letter.now.draft }
{
    // Only the client can know whether the next servers offer 8BITMIME, since the outbox is written
    // without waiting for replies. Without 8BITMIME no 8bit line may be sent (RFC 6152). A cleaned
    // or cut message would be another message.
    match letter.terms().returned() {
        Returned::Header => Carriage {
            whole: false,
            eight_bit: false,
        },
        Returned::Message => Carriage {
            whole: is_seven_bit(text),
            eight_bit: false,
        },
        Returned::EightBitMessage => carriage_in_eight_bits(text),
    }
}

/// Whether each line of a text can be in a 7bit mail unchanged (RFC 2045 section 2.7).
fn is_seven_bit(text: &[u8]) -> bool
    ensures { result ≡ list_all is_mail_line (lines text.now) }
{
    let lines = ReturnedLines {
        rest: text,
        whole: true,
    };
    for line in lines {
        if !is_mail_line(line) {
            return false;
        }
    }
    true
}

/// How a notice that may be an 8bit mail returns a message: whole if each line can be in an 8bit
/// mail unchanged (RFC 2045 section 2.8).
fn carriage_in_eight_bits(text: &[u8]) -> Carriage
    ensures whole { result.whole ≡ list_all is_eight_bit_line (lines text.now) }
    ensures eight_bit { result.eight_bit
        ≡ (result.whole && list_any has_high_byte (lines text.now)) }
{
    let lines = ReturnedLines {
        rest: text,
        whole: true,
    };
    let mut eight_bit = false;
    for line in lines {
        if !is_eight_bit_line(line) {
            return Carriage {
                whole: false,
                eight_bit: false,
            };
        }
        eight_bit = eight_bit || has_high_byte(line);
    }
    Carriage {
        whole: true,
        eight_bit,
    }
}

/// Whether a line can be in a 7bit mail unchanged.
fn is_mail_line(line: &[u8]) -> bool
    ensures { result ≡ is_mail_line line.now }
{
    line.len() <= LONGEST_LINE && has_mail_bytes(line)
}

/// Whether a line of a 7bit mail may hold each of the bytes. It doesn't stop at the first one that
/// fails, so that several bytes are checked at once.
fn has_mail_bytes(line: &[u8]) -> bool
    ensures { result ≡ list_all is_mail_byte line.now }
{
    let mut all = true;
    for byte in line {
        all &= is_mail_byte(*byte);
    }
    all
}

/// Whether a line of a 7bit mail may hold the byte.
///
/// Escape (27) is allowed, since ISO-2022-JP uses it. So a returned message may have bytes that no
/// other line of a notice has.
fn is_mail_byte(byte: u8) -> bool
    ensures { result ≡ is_mail_byte byte }
{
    matches!(byte, 1..=127) && byte != b'\n' && byte != b'\r'
}

/// Whether a line can be in an 8bit mail unchanged.
pub(crate) fn is_eight_bit_line(line: &[u8]) -> bool
    ensures { result ≡ is_eight_bit_line line.now }
{
    line.len() <= LONGEST_LINE && has_eight_bit_bytes(line)
}

/// Whether a line of an 8bit mail may hold each of the bytes. It doesn't stop at the first one that
/// fails, so that several bytes are checked at once.
fn has_eight_bit_bytes(line: &[u8]) -> bool
    ensures { result ≡ list_all is_eight_bit_byte line.now }
{
    let mut all = true;
    for byte in line {
        all &= is_eight_bit_byte(*byte);
    }
    all
}

/// Whether a line of an 8bit mail may hold the byte.
fn is_eight_bit_byte(byte: u8) -> bool
    ensures { result ≡ is_eight_bit_byte byte }
{
    byte != 0 && byte != b'\n' && byte != b'\r'
}

/// Whether a line has a byte above 127.
pub(crate) fn has_high_byte(line: &[u8]) -> bool
    ensures { result ≡ list_any (nat_lt 127) line.now }
{
    line.iter().any(|byte| *byte > 127)
}
