//! Letters that are written to the outbox.
//! Implements noticed-notice(5).
ghost use Rattle.std.specs.Prelude.{◌≡◌, ◌+◌, ◌≤◌, List, [], ◌∷◌, ◌++◌, length};
ghost use Rattle.std.specs.Option.{option_to_list};
ghost use Rattle.dsn_report.specs.Outgoing.{Delivered, IsOutbox, begun};
ghost use Rattle.dsn_report.specs.Site.{Site};

use crate::outbox_end::OutboxEnd;
use crate::poster::{Ended, Poster};
use crate::site::Site;
use dsn_device::Drain;
use dsn_outcome::{Letter, Letters};
use std::marker::Model;

/// A poster, and the letters that it could not write.
#[derive(Drop)]
pub struct Outgoing<W> {
    poster: Poster<W>,
    unsent: Letters,
}

impl<W> Model for Outgoing<W> {
    ghost use Rattle.dsn_report.specs.Outgoing.{Outgoing};

    ghost Value = { Outgoing W };

    ghost view = { λ out. record { poster = out.poster; unsent = out.unsent } };
}

impl<W: Drain> Outgoing<W> {
    /// An outbox to which nothing is written yet.
    pub fn new(site: Site, outbox: W) -> Self
        ensures delivered { Delivered W.Drain site outbox result [] }
        ensures new { result ≡ begun site outbox }
    {
        Outgoing {
            poster: Poster::new(site, outbox),
            unsent: Letters::new(),
        }
    }

    /// Whether the outbox has failed.
    pub fn has_failed(&self) -> bool
        ensures { result ≡ self.now.poster.failed }
    {
        self.poster.has_failed()
    }

    /// Posts a letter. If the outbox fails or has failed before, keeps the letter as unsent.
    pub fn hand(&mut self, letter: Letter)
        ensures delivered { (site : Site) (start : W) (letters : List _)
            → Delivered W.Drain site start self.old letters
            → Delivered W.Drain site start self.new (letters ++ letter ∷ []) }
        ensures few { length self.new.unsent ≤ length self.old.unsent + 1 }
    {
        if let Err(fault) = self.poster.post(letter) {
            // The log stays closed and its answer stays `Sealed`. The notes report the letter as
            // unsent.
            self.unsent.push(fault.into_letter());
        }
    }

    /// Posts the letter that a request sealed, if there is one.
    pub fn hand_any(&mut self, letter: Option<Letter>)
        ensures { (site : Site) (start : W) (letters : List _)
            → Delivered W.Drain site start self.old letters
            → Delivered W.Drain site start self.new (letters ++ option_to_list letter) }
    {
        if let Some(letter) = letter {
            self.hand(letter);
        }
    }

    /// Returns the outbox as it is, without QUIT. Letters that could not be written are dropped.
    pub fn into_outbox(self) -> W
        ensures { result ≡ self.poster.outbox }
    {
        self.poster.into_outbox()
    }

    /// Ends the session with QUIT, and returns the outbox and the unsent letters.
    pub fn finish(self) -> OutboxEnd<W>
        ensures outbox { (site : Site) (start : W) (letters : List _)
            → Delivered W.Drain site start self letters
            → IsOutbox W.Drain site start result.outbox result.whole result.unsent letters }
        ensures unsent { result.unsent ≡ self.unsent }
    {
        let Outgoing { poster, unsent } = self;
        let Ended { outbox, whole } = poster.finish();
        OutboxEnd {
            outbox,
            whole,
            unsent,
        }
    }
}
