//! Lines that are written to a drain in pieces.
//! Implements RFC 5321 section 4.5.2.
ghost use Rattle.std.specs.Prelude.{◌≡◌, ◌<◌, false, ℕ, List, [], ◌∷◌, ◌++◌, codes, length};
ghost use Rattle.std.specs.List.{flat_map};
ghost use Rattle.dsn_device.specs.QuietWriter.{Flushes, MarksLetter};
ghost use Rattle.dsn_report.specs.inner.LineWriter.{IsBlock, Settled, Took, Wrote, sent_of_dotted};

use crate::pending_bytes::PendingBytes;
use dsn_device::{Drain, QuietWriter};

/// Writes lines that end with CRLF to a drain. It buffers texts until the buffer is full or
/// `settle` is called. It writes nothing after the drain's first failure, so callers need not check
/// each line.
#[derive(Drop)]
pub(crate) struct LineWriter<W> {
    pub(crate) writer: QuietWriter<W>,
    /// Whether a line that begins with a dot gets another dot in front (RFC 5321 section 4.5.2).
    pub(crate) dots: bool,
    /// The buffer.
    pub(crate) pending: PendingBytes,
}

impl<W: Drain> LineWriter<W> {
    /// Writes the text as it is.
    #[inline(always)]
    pub(crate) fn piece(&mut self, text: &[u8])
        ensures { Took W.Drain self.old self.new text.now }
    {
        if !self.pending.push(text) {
            self.write_through(text);
        }
    }

    /// Writes the buffer, and then the text.
    #[inline(never)]
    fn write_through(&mut self, text: &[u8])
        ensures { Took W.Drain self.old self.new text.now }
    {
        self.settle();
        self.writer.write(text);
    }

    /// Writes the buffer.
    pub(crate) fn settle(&mut self)
        ensures { Settled W.Drain self.old self.new }
    {
        self.writer.write(self.pending.bytes());
        self.pending.clear();
    }

    /// Flushes the drain.
    pub(crate) fn flush(&mut self)
        ensures flushes { Flushes W.Drain self.old.writer self.new.writer }
        ensures dots { self.new.dots ≡ self.old.dots }
        ensures pending { self.new.pending ≡ self.old.pending }
    {
        self.writer.flush();
    }

    /// Has the drain mark the letter with this serial. Requires that the drain has failed or has
    /// taken no bytes since its last flush.
    pub(crate) fn mark_letter(&mut self, serial: u64)
        requires flushed { self.old.writer.failed ≡ false
            → W.unflushed self.old.writer.drain ≡ false }
        ensures marks { MarksLetter W.Drain self.old.writer self.new.writer serial }
        ensures dots { self.new.dots ≡ self.old.dots }
        ensures pending { self.new.pending ≡ self.old.pending }
    {
        self.writer.mark_letter(serial);
    }

    /// Writes lines with their CRLFs, as pieces of their text. A piece may contain several lines.
    /// It adds no dots, so none of the lines may begin with one.
    ///
    /// The constant text between two values of a notice is one piece, even across lines, and costs
    /// one copy.
    pub(crate) fn block(&mut self, pieces: &[&[u8]])
        ensures { (lines : List (List ℕ))
            → IsBlock lines (flat_map (λ piece. piece.now) pieces.now)
            → Wrote W.Drain self.old self.new lines }
    {
        for piece in pieces {
            self.piece(piece);
        }
    }

    /// Writes a line that is passed with its CRLF after a dot. The dot is written if the line
    /// begins with a dot and dots are added. Requires that the text is not empty.
    pub(crate) fn dotted_line(&mut self, dotted: &[u8])
        requires { 0 < length dotted.now }
        ensures { (line : List ℕ) → dotted.now ≡ codes "." ++ line ++ codes "\r\n"
            → Wrote W.Drain self.old self.new (line ∷ []) }
    {
        self.piece(sent(self.dots, dotted));
    }
}

/// The text to be sent for a line that is passed with its CRLF after a dot.
#[tactic(auto, using(crate::proofs::LineWriterLemmas::after_dot))]
fn sent(dots: bool, dotted: &[u8]) -> &[u8]
    requires { 0 < length dotted.now }
    ensures { result.now ≡ sent_of_dotted dots dotted.now }
{
    let line = &dotted[1..];
    if dots && line.starts_with(b".") {
        dotted
    } else {
        line
    }
}
