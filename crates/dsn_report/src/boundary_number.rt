//! The number of a notice's boundary.
//! Implements RFC 2046 section 5.1.1 and noticed-notice(5).
ghost use Rattle.std.specs.Prelude.{◌≡◌, ◌<◌};
ghost use Rattle.std.specs.List.{list_any};
ghost use Rattle.dsn_report.specs.Boundary.{IsBoundaryNumber, boundary_number, boundary_numbers, returned_lines};
ghost use Rattle.dsn_report.specs.inner.Boundary.{is_dashed};
ghost use Rattle.dsn_report.specs.inner.NoticeLines.{lines_shown, taken_lines};

use crate::returned_text::ReturnedText;
use crate::ruled_out_boundaries::{first_free, numbers_ruled_out};
use dsn_outcome::Letter;

/// Returns the number of the boundary of a letter's notice, which is the least that no returned
/// line rules out. It takes no memory. It is for embedders and tests.
pub fn boundary(letter: &Letter) -> u16
    ensures least { IsBoundaryNumber letter.now result }
    ensures number { result ≡ boundary_number letter.now }
    ensures four_digits { result < boundary_numbers }
{
    boundary_beside(letter, ReturnedText::of(letter))
}

/// Returns the number of the boundary of a letter's notice. Requires that `returned` is what the
/// notice returns.
pub(crate) fn boundary_beside(letter: &Letter, returned: ReturnedText<'_>) -> u16
    requires { lines_shown returned.whole returned.bytes.now ≡ returned_lines letter.now.draft }
    ensures least { IsBoundaryNumber letter.now result }
    ensures number { result ≡ boundary_number letter.now }
    ensures four_digits { result < boundary_numbers }
{
    letter.header().bytes();
    least_number(letter, returned)
}

/// Returns the least number that no returned line rules out. Few messages have a line that rules
/// one out; for the others no table is made.
#[tactic(auto, using(crate::proofs::BoundaryLemmas::none_ruled_out))]
fn least_number(letter: &Letter, returned: ReturnedText<'_>) -> u16
    requires { lines_shown returned.whole returned.bytes.now ≡ returned_lines letter.now.draft }
    ensures { IsBoundaryNumber letter.now result }
{
    if has_dashed_line(returned) {
        least_free(letter, returned)
    } else {
        0
    }
}

/// Whether some returned line begins with two dashes, as every delimiter does.
fn has_dashed_line(returned: ReturnedText<'_>) -> bool
    ensures { result
        ≡ list_any is_dashed (taken_lines returned.entry.whole returned.entry.bytes.now) }
{
    // Without a dash there is no such line, so the text isn't split into lines.
    if !returned.bytes.contains(&b'-') {
        return false;
    }
    for line in returned.lines() {
        if line.starts_with(b"--") {
            return true;
        }
    }
    false
}

/// Returns the least number that no returned line rules out, in one pass over the lines.
fn least_free(letter: &Letter, returned: ReturnedText<'_>) -> u16
    requires { lines_shown returned.whole returned.bytes.now ≡ returned_lines letter.now.draft }
    ensures { IsBoundaryNumber letter.now result }
{
    letter.header().bytes();
    let ruled_out = numbers_ruled_out(letter, returned);
    match first_free(&ruled_out) {
        Some(number) => number as u16,
        // The text has too few bytes to rule out every number of the table.
        None => unreachable!(),
    }
}
