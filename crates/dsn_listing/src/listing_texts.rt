//! The texts of the lines of a listing.
#![tactic(auto, unfolding(dsn_notes::specs::Notes::key_words, crate::specs::ListingLines::closed_line, crate::specs::ListingLines::unmarked_key, crate::specs::ListingLines::unmarked_counts, crate::specs::ListingLines::marked_line, crate::specs::ListingLines::sealed_line, crate::specs::ListingLines::bytes_line))]

ghost use Rattle.std.specs.Prelude.{◌≡◌, ◌+◌, ◌++◌, length};
ghost use Rattle.dsn_listing.specs.ListingLines.{closed_line, unmarked_key, unmarked_counts, marked_line, sealed_line, bytes_line, told};

use dsn_notes::push_key;
use dsn_outcome::{Key, Letter, ShortText};

/// Returns the line of a closed key.
pub(crate) fn closed_line(key: &Key) -> ShortText
    ensures { result ≡ closed_line key.now }
{
    let mut line = ShortText::new();
    line.push(b"closed ");
    push_key(&mut line, key);
    line.push(b"\n");
    line
}

/// Returns the first part of the line of a letter that no mark counts, up to its key. The line is
/// in two parts since it may be longer than a short text.
pub(crate) fn unmarked_key(letter: &Letter) -> ShortText
    ensures { result ≡ unmarked_key letter.now }
{
    let mut line = ShortText::new();
    line.push(b"unmarked ");
    push_key(&mut line, &letter.key());
    line
}

/// Returns the rest of that line: how many outcomes the letter has, and its serial.
pub(crate) fn unmarked_counts(letter: &Letter) -> ShortText
    ensures { result ≡ unmarked_counts letter.now }
{
    let mut line = ShortText::new();
    line.push(b" ");
    line.push_number(count_outcomes(letter));
    line.push(b" ");
    line.push_number(letter.serial());
    line.push(b"\n");
    line
}

/// Returns how many outcomes a letter has. `u64::MAX` means that number or more.
fn count_outcomes(letter: &Letter) -> u64
    ensures { result ≡ told (length letter.now.outcomes) }
{
    let mut count = 0u64;
    for _ in letter.outcomes() {
        count = count.saturating_add(1);
    }
    count
}

/// Returns the line of the mark.
pub(crate) fn marked_line(mark: u64) -> ShortText
    ensures { result ≡ marked_line mark }
{
    let mut line = ShortText::new();
    line.push(b"marked ");
    line.push_number(mark);
    line.push(b"\n");
    line
}

/// Returns the line of the number of sealed letters: those of the base, and those of the book.
pub(crate) fn sealed_line(base: u64, sealed: u64) -> ShortText
    ensures { result ≡ sealed_line (base + sealed) }
{
    let mut line = ShortText::new();
    line.push(b"sealed ");
    line.push_number(base.saturating_add(sealed));
    line.push(b"\n");
    line
}

/// Returns the line of the bytes that the records take, and of the bytes of the file.
pub(crate) fn bytes_line(used: usize, size: usize) -> ShortText
    ensures { result ≡ bytes_line used size }
{
    let mut line = ShortText::new();
    line.push(b"bytes ");
    line.push_number(used as u64);
    line.push(b" ");
    line.push_number(size as u64);
    line.push(b"\n");
    line
}
