//! Posts notices to an outbox, as one mail transaction after another.
//! Implements noticed-notice(5).
ghost use Rattle.std.specs.Prelude.{◌≡◌, true, false, not, IsTrue, IsFalse, Err, OnOk, OnErr, IfErr, is_err};
ghost use Rattle.std.specs.Io.KnownBytes.{Appends};
ghost use Rattle.dsn_device.specs.Transfer.{AppendsFront};
ghost use Rattle.dsn_device.specs.UntilFailure.{TakesNoTime, WrittenAndFlushed, WrittenAndMarked, counts_failure};
ghost use Rattle.dsn_report.specs.Poster.{post_fault, post_text, finish_text};

use crate::line_writer::LineWriter;
use crate::mail_transaction::{send_goodbye, send_letter};
use crate::pending_bytes::PendingBytes;
use crate::post_fault::PostFault;
use crate::site::Site;
use dsn_device::{Drain, QuietWriter};
use dsn_outcome::Letter;
use std::marker::Model;

/// Posts letters to an outbox. It writes nothing before the first letter, buffers nothing between
/// calls, and writes nothing after the outbox's first failure.
#[derive(Drop)]
pub struct Poster<W> {
    site: Site,
    lines: LineWriter<W>,
    greeted: bool,
}

impl<W> Model for Poster<W> {
    ghost use Rattle.std.specs.Prelude.{◌≡◌, true, []};
    ghost use Rattle.dsn_report.specs.Poster.{Poster};

    ghost Value = { Poster W };

    ghost view = { λ p. record {
      site = p.site;
      outbox = p.lines.writer.drain;
      greeted = p.greeted;
      failed = p.lines.writer.failed;
    } };

    ghost invariant = { λ p. (p.lines.dots ≡ true) × (p.lines.pending ≡ []) };
}

/// The state of a poster at its end.
#[derive(Drop)]
pub struct Ended<W> {
    /// The outbox.
    pub outbox: W,
    /// Whether nothing failed. Then the outbox has the notice of each letter, and QUIT.
    pub whole: bool,
}

impl<W> Poster<W> {
    /// A poster for this site. It writes nothing.
    pub fn new(site: Site, outbox: W) -> Poster<W>
        ensures { result ≡ record {
          site = site;
          outbox = outbox;
          greeted = false;
          failed = false;
        } }
    {
        Poster {
            site,
            lines: LineWriter {
                writer: QuietWriter::new(outbox),
                dots: true,
                pending: PendingBytes::new(),
            },
            greeted: false,
        }
    }

    /// Whether the outbox has failed.
    pub fn has_failed(&self) -> bool
        ensures { result ≡ self.now.failed }
    {
        self.lines.writer.has_failed()
    }

    /// Returns the outbox as it is, without QUIT.
    pub fn into_outbox(self) -> W
        ensures { result ≡ self.outbox }
    {
        self.lines.writer.into_parts().0
    }
}

impl<W: Drain> Poster<W> {
    /// Writes the letter's notice, after the greeting if that isn't written yet. Then it flushes
    /// the outbox once and has it mark the letter. It takes no memory.
    ///
    /// Returns `Write` with the letter if the outbox fails in this call, and `Failed` with the
    /// letter if it failed before.
    #[tactic(auto, using(crate::proofs::PosterLemmas::marked_by_serial), unfolding(crate::specs::Poster::post_text))]
    pub fn post(&mut self, letter: Letter) -> Result<(), PostFault>
        ensures sent { OnOk result
            (Appends (W.contents self.old.outbox) (W.contents self.new.outbox)
            (post_text self.old letter)) }
        ensures front { OnErr result
            (AppendsFront (W.contents self.old.outbox) (W.contents self.new.outbox)
            (post_text self.old letter)) }
        ensures marked { WrittenAndMarked W.Drain self.old.failed self.new.failed self.old.outbox
            self.new.outbox (post_text self.old letter) letter.serial }
        ensures fault { IfErr result (λ fault. fault ≡ post_fault self.old.failed letter) }
        ensures failed { self.new.failed ≡ is_err result }
        ensures greeted { OnOk result (self.new.greeted ≡ true) }
        ensures site { self.new.site ≡ self.old.site }

        // After a failure, later calls return the letter at once and write nothing.
        ensures later { IsTrue self.old.failed → result ≡ Err (PostFault.Failed letter) }
        ensures nothing { IsTrue self.old.failed → self.new ≡ self.old }

        // Exactly the call in which the outbox fails returns `Write`. It raises the outbox's count
        // of failures by one, unless the count is at its maximum. No other call changes the count.
        ensures count { W.failures self.new.outbox
            ≡ counts_failure self.old.failed (is_err result) (W.failures self.old.outbox) }
        ensures steady { W.steady self.old.outbox
            → W.steady self.new.outbox × (W.failures self.new.outbox ≡ W.failures self.old.outbox) }
    {
        if self.lines.writer.has_failed() {
            return Err(PostFault::Failed(letter));
        }
        send_letter(&mut self.lines, &self.site, &letter, self.greeted);
        self.greeted = true;
        self.lines.flush();
        // Only this function fixes the order of text, flush and mark, for `batch`, `serve` and a
        // run over a journal.
        self.lines.mark_letter(letter.serial());
        if self.lines.writer.has_failed() {
            return Err(PostFault::Write(letter));
        }
        Ok(())
    }

    /// Ends the session. It writes the greeting if that isn't written yet, and QUIT, and then
    /// flushes the outbox once. After a failure it does nothing.
    #[tactic(auto, unfolding(crate::specs::Poster::finish_text))]
    pub fn finish(self) -> Ended<W>
        ensures sent { IsTrue result.whole
            → Appends (W.contents self.outbox) (W.contents result.outbox) (finish_text self) }
        ensures front { IsFalse result.whole
            → AppendsFront (W.contents self.outbox) (W.contents result.outbox) (finish_text self) }
        ensures flushed { WrittenAndFlushed W.Drain self.failed
            (not result.whole) self.outbox result.outbox (finish_text self) }
        ensures marked { W.marked result.outbox ≡ W.marked self.outbox }
        ensures no_moment { TakesNoTime W.Drain self.outbox result.outbox }
        ensures nothing { IsTrue self.failed
            → result ≡ record { outbox = self.outbox; whole = false } }

        // If nothing failed before, `whole` is false if and only if the outbox fails in this call.
        ensures count { W.failures result.outbox
            ≡ counts_failure self.failed (not result.whole) (W.failures self.outbox) }
        ensures steady { W.steady self.outbox
            → W.steady result.outbox × (W.failures result.outbox ≡ W.failures self.outbox) }
    {
        let Poster {
            site,
            mut lines,
            greeted,
        } = self;
        send_goodbye(&mut lines, &site, greeted);
        // Dropped at the function's end, each of its templates would double the cases of the proof.
        drop(site);
        lines.flush();
        let LineWriter {
            writer,
            dots: _,
            pending: _,
        } = lines;
        let (outbox, failed) = writer.into_parts();
        Ended {
            outbox,
            whole: !failed,
        }
    }
}
