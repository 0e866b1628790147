//! The lines of a listing, written one after another.
ghost use Rattle.std.specs.Prelude.{◌≡◌, ◌+◌, IfErr, is_err, false, length};
ghost use Rattle.dsn_device.specs.Failures.{counted};
ghost use Rattle.dsn_device.specs.UntilFailure.{WritesUntilFailure, WrittenAndFlushed};
ghost use Rattle.dsn_journal.specs.SettledLetters.{first_edge};
ghost use Rattle.dsn_listing.specs.CopiedDisk.{copied_seen};
ghost use Rattle.dsn_listing.specs.ListingLines.{bytes_line, closed_lines, last_lines, listing_lines, sealed_line, unmarked_line, unmarked_lines};

use crate::copied_disk::CopiedDisk;
use crate::listing_fault::ListingFault;
use crate::listing_texts::{
    bytes_line, closed_line, marked_line, sealed_line, unmarked_counts, unmarked_key,
};
use dsn_book::OpenLine;
use dsn_device::{Drain, UntilFailure};
use dsn_journal::{Disk, SettledLetters};
use dsn_ledger::{Ledger, Opened};
use dsn_notes::write_open_lines;
use dsn_outcome::{Key, Letter, ShortText};

/// Writes all lines of a listing, and then flushes, once: those of these open logs and closed keys,
/// of the letters of `opened` that aren't settled, and the last ones. After a line that could not be
/// written, nothing more is written, and nothing is flushed. Returns `NotWritten` then, or if the
/// flush fails.
pub(crate) fn write_listing<N: Drain>(
    lines: &mut N,
    opened: &Opened<CopiedDisk>,
    settled: &SettledLetters,
    logs: &[OpenLine],
    closed: &[Key],
) -> Result<(), ListingFault>
    ensures written { WrittenAndFlushed N.Drain false (is_err result) lines.old lines.new
        (listing_lines logs.now closed.now settled.now opened.now.letters.items
        (last_lines (first_edge settled.now) (opened.now.ledger.base + opened.now.ledger.book.book.sealed)
        opened.now.ledger.journal.used (length (copied_seen opened.now.ledger.journal.disk)))) }
    ensures refused { IfErr result (λ fault. fault ≡ ListingFault.NotWritten) }
    ensures count { N.failures lines.new ≡ counted (is_err result) (N.failures lines.old) }
{
    let mut writing = UntilFailure::new();
    write_open_lines(lines, &mut writing, logs);
    write_closed_lines(lines, &mut writing, closed);
    write_unmarked_lines(lines, &mut writing, settled, opened.letters.as_slice());
    write_counts(lines, &mut writing, &opened.ledger, settled.mark());
    writing.flush(lines);
    if writing.failed {
        return Err(ListingFault::NotWritten);
    }
    Ok(())
}

fn write_closed_lines<N: Drain>(lines: &mut N, writing: &mut UntilFailure, keys: &[Key])
    ensures { WritesUntilFailure N.Drain writing.old.failed writing.new.failed lines.old lines.new
        (closed_lines keys.now) }
{
    for key in keys {
        writing.write(lines, closed_line(key).bytes());
    }
}

fn write_unmarked_lines<N: Drain>(
    lines: &mut N,
    writing: &mut UntilFailure,
    settled: &SettledLetters,
    letters: &[Letter],
)
    ensures { WritesUntilFailure N.Drain writing.old.failed writing.new.failed lines.old lines.new
        (unmarked_lines settled.now letters.now) }
{
    for letter in letters {
        write_unmarked_line(lines, writing, settled, letter);
    }
}

/// Writes the line of a letter, unless it is settled.
fn write_unmarked_line<N: Drain>(
    lines: &mut N,
    writing: &mut UntilFailure,
    settled: &SettledLetters,
    letter: &Letter,
)
    ensures { WritesUntilFailure N.Drain writing.old.failed writing.new.failed lines.old lines.new
        (unmarked_line settled.now letter.now) }
{
    if settled.is_settled(letter.serial()) {
        return;
    }
    writing.write(lines, unmarked_key(letter).bytes());
    writing.write(lines, unmarked_counts(letter).bytes());
}

/// Writes the last lines: the mark, how many letters were sealed, and the bytes.
fn write_counts<N: Drain>(
    lines: &mut N,
    writing: &mut UntilFailure,
    ledger: &Ledger<CopiedDisk>,
    mark: u64,
)
    ensures { WritesUntilFailure N.Drain writing.old.failed writing.new.failed lines.old lines.new
        (last_lines mark (ledger.now.base + ledger.now.book.book.sealed) ledger.now.journal.used
        (length (copied_seen ledger.now.journal.disk))) }
{
    writing.write(lines, marked_line(mark).bytes());
    writing.write(lines, sealed_in(ledger).bytes());
    writing.write(lines, bytes_in(ledger).bytes());
}

/// Returns the line of the number of sealed letters, with those that the base counts.
fn sealed_in(ledger: &Ledger<CopiedDisk>) -> ShortText
    ensures { result ≡ sealed_line (ledger.now.base + ledger.now.book.book.sealed) }
{
    sealed_line(ledger.base(), ledger.book().sealed())
}

/// Returns the line of the bytes of a ledger's records, and of its file.
fn bytes_in(ledger: &Ledger<CopiedDisk>) -> ShortText
    ensures { result ≡ bytes_line ledger.now.journal.used
        (length (copied_seen ledger.now.journal.disk)) }
{
    bytes_line(ledger.used(), ledger.disk().size())
}
