//! A sealed log with the draft of its notice.
ghost use Rattle.std.specs.Prelude.{◌≡◌, ◌≢◌, ◌+◌, ◌^◌, ◌<◌, false, [], length, IsSome, All, Some};
ghost use Rattle.std.specs.Option.{option_copied};

use crate::chain::Chain;
use crate::draft::Draft;
use crate::letter_cell::{DraftTerms, LetterCell, Sealed};
use crate::outcome_links::Outcomes;
use dsn_text::{Address, EnvelopeId, Key, RawHeader, Stamp};
use std::marker::Model;

/// A sealed log, of which a notice is made. It has a return path and at least one outcome. All
/// outcomes belong to its key's service, and there are as many as its flush expects.
#[derive(Drop)]
pub struct Letter {
    pub(crate) cell: Box<LetterCell>,
}

impl Model for Letter {
    ghost use Rattle.dsn_outcome.specs.Letter.{Letter, IsLetter};
    ghost use Rattle.dsn_outcome.specs.inner.LetterCell.{letter_in, IsUnlinked};

    ghost Value = { Letter };

    ghost view = { λ l. letter_in l.cell.value };

    ghost invariant = { λ l. IsLetter (letter_in l.cell.value) × IsUnlinked l.cell.value };
}

impl Letter {
    ghost use Rattle.dsn_outcome.specs.Draft.{differs};
    ghost use Rattle.dsn_outcome.specs.Letter.{IsLetter};
    ghost use Rattle.dsn_outcome.specs.Outcomes.{outcomes_left};

    /// Seals a log. The draft's cell becomes the letter's, so no memory is taken. The serial is how
    /// many letters were sealed before.
    ///
    /// Requires that the draft has a return path. Requires that the log is not empty, has as many
    /// outcomes as the draft expects, and has outcomes of the key's service only.
    pub fn seal(key: Key, draft: Draft, chain: Chain, serial: u64) -> Letter
        requires reports { chain ≢ [] }
        requires of_service { All (λ outcome. outcome.service ≡ key.service) chain }
        requires returns { IsSome draft.return_path }
        requires counted { differs draft.expected (length chain) ≡ false }
        ensures key { result.key ≡ key }
        ensures draft { result.draft ≡ draft }
        ensures outcomes { result.outcomes ≡ chain }
        ensures serial { result.serial ≡ serial }
    {
        let Draft { mut cell } = draft;
        cell.sealed = Some(Sealed {
            key,
            outcomes: chain.oldest_first(),
            serial,
        });
        Letter { cell }
    }

    /// Returns the same letter with `base` added to its serial. Requires that the sum is below
    /// 2^64.
    pub fn counted_on_from(self, base: u64) -> Letter
        requires room { base + self.serial < 2 ^ 64 }
        ensures { result ≡ record self { serial = base + self.serial } }
    {
        let Letter { mut cell } = self;
        match &mut cell.sealed {
            Some(sealed) => sealed.serial += base,
            None => unreachable!(),
        }
        Letter { cell }
    }

    /// The log's key.
    pub fn key(&self) -> Key
        ensures same { result ≡ self.now.key }
        ensures legal { IsLetter self.now }
    {
        match &self.cell.sealed {
            Some(sealed) => sealed.key,
            None => unreachable!(),
        }
    }

    /// How many letters of all keys were sealed before this one. It is in the notice's Message-ID.
    pub fn serial(&self) -> u64
        ensures { result ≡ self.now.serial }
    {
        match &self.cell.sealed {
            Some(sealed) => sealed.serial,
            None => unreachable!(),
        }
    }

    /// The terms of its flush.
    pub fn terms(&self) -> &DraftTerms
        ensures { result.now ≡ self.now.draft }
    {
        &self.cell.terms
    }

    /// The moment of the flush. It is in the boundaries and is the notice's date.
    pub fn moment(&self) -> Stamp
        ensures { result ≡ self.now.draft.moment }
    {
        self.cell.terms.moment
    }

    /// When the message arrived.
    pub fn arrival(&self) -> Stamp
        ensures { result ≡ self.now.draft.arrival }
    {
        self.cell.terms.arrival
    }

    /// The address that the notice is sent to.
    pub fn return_path(&self) -> &Address
        ensures { self.now.draft.return_path ≡ Some result.now }
    {
        match &self.cell.terms.return_path {
            Some(address) => address,
            None => unreachable!(),
        }
    }

    /// The sender's envelope id, if there is one.
    pub fn envelope_id(&self) -> Option<&EnvelopeId>
        ensures { option_copied result ≡ self.now.draft.envelope_id }
    {
        self.cell.terms.envelope_id.as_ref()
    }

    /// The message's header as it came, or the whole message.
    pub fn header(&self) -> &RawHeader
        ensures { result.now ≡ self.now.draft.header }
    {
        &self.cell.terms.header
    }

    /// The outcomes, oldest first.
    pub fn outcomes(&self) -> Outcomes<'_>
        ensures { outcomes_left result ≡ self.now.outcomes }
    {
        match &self.cell.sealed {
            Some(sealed) => sealed.outcomes.iter(),
            None => unreachable!(),
        }
    }
}
