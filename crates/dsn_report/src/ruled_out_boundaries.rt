//! The numbers that returned lines rule out for a notice's boundary.
//! Implements noticed-notice(5).
ghost use Rattle.std.specs.Prelude.{◌≡◌, ◌≢◌, ◌+◌, ◌*◌, ◌<◌, ℕ, ◌++◌, IsTrue, IsFalse, IfNone, IfSome, slice_index_or, nat_eq, false, not, position};
ghost use Rattle.std.specs.List.{starts_with};
ghost use Rattle.dsn_report.specs.Boundary.{boundary_front, boundary_numbers, four_digits, is_delimiter};
ghost use Rattle.dsn_report.specs.inner.Boundary.{rules_out};
ghost use Rattle.dsn_report.specs.inner.NoticeLines.{lines_shown};

use crate::letter_boundary::boundary_front;
use crate::returned_text::ReturnedText;
use dsn_outcome::Letter;

/// More numbers than returned lines can rule out. The proof bounds them by 2,979, since a line that
/// rules one out takes at least eleven bytes with its line feed. (The shortest takes thirteen, so
/// 2,520 is the actual maximum.)
pub(crate) const NUMBERS: usize = 2_980;

/// Which numbers the returned lines rule out for the boundary of a letter.
pub(crate) fn numbers_ruled_out(letter: &Letter, returned: ReturnedText<'_>) -> [bool; NUMBERS]
    ensures { (number : ℕ) → number < NUMBERS
        → slice_index_or result number false
        ≡ rules_out (boundary_front letter.now)
        (lines_shown returned.entry.whole returned.entry.bytes.now) number }
{
    let front = boundary_front(letter);
    let mut ruled_out = [false; NUMBERS];
    for line in returned.lines() {
        // The line is compared as it came. A notice shows each byte of a delimiter unchanged, and
        // no other byte as one of them.
        if let Some(number) = number_ruled_out(front.bytes(), line) {
            if number < NUMBERS {
                ruled_out[number] = true;
            }
        }
    }
    ruled_out
}

/// Returns the least number that isn't ruled out, if there is one.
pub(crate) fn first_free(ruled_out: &[bool; NUMBERS]) -> Option<usize>
    ensures first { result ≡ position not ruled_out.now }
    ensures within { IfSome result (λ number. number < NUMBERS) }
{
    ruled_out.iter().position(|ruled_out| !ruled_out)
}

/// Returns the number that a line rules out, if it rules one out.
///
/// A line rules out a number if it begins with the delimiter, whatever follows (RFC 2046 section
/// 5.1.1).
fn number_ruled_out(front: &[u8], line: &[u8]) -> Option<usize>
    ensures some { IfSome result
        (λ number. (number < boundary_numbers)
        × IsTrue (is_delimiter (front.now ++ four_digits number) line.now)) }
    ensures none { IfNone result
        ((number : ℕ) → number < boundary_numbers
        → IsFalse (is_delimiter (front.now ++ four_digits number) line.now)) }
{
    leading_number(line.strip_prefix(b"--")?.strip_prefix(front)?)
}

/// Returns the number of four digits that a text begins with, if it begins with four digits.
fn leading_number(text: &[u8]) -> Option<usize>
    ensures some { IfSome result
        (λ number. (number < boundary_numbers)
        × IsTrue (starts_with nat_eq text.now (four_digits number))) }
    ensures none { IfNone result
        ((number : ℕ) → number < boundary_numbers
        → IsFalse (starts_with nat_eq text.now (four_digits number))) }
{
    let [thousands, hundreds, tens, ones, ..] = *text else {
        return None;
    };
    Some(
        digit_value(thousands)? * 1000
            + digit_value(hundreds)? * 100
            + digit_value(tens)? * 10
            + digit_value(ones)?,
    )
}

/// Returns the value of a digit, or `None` if the byte isn't a digit.
fn digit_value(byte: u8) -> Option<usize>
    ensures some { IfSome result (λ value. (value < 10) × (byte ≡ 48 + value)) }
    ensures none { IfNone result ((value : ℕ) → value < 10 → byte ≢ 48 + value) }
{
    if byte.is_ascii_digit() {
        Some((byte - b'0') as usize)
    } else {
        None
    }
}
