//! The one piece of memory that is first a draft, then a letter, then a letter in a queue. So
//! sealing and queueing take no memory.
ghost use Rattle.std.specs.Prelude.{◌≡◌, IsTrue};
ghost use Rattle.std.specs.Option.{option_copied};
ghost use Rattle.dsn_outcome.specs.Draft.{is_count};
ghost use Rattle.dsn_text.specs.Extension.{is_extension_text};
ghost use Rattle.dsn_text.specs.Optional.{is_none_or};

use crate::extension_fields::ExtensionFields;
use crate::outcome_links::OutcomeLinks;
use crate::returned::Returned;
use crate::wording::Wording;
use dsn_text::{Address, EnvelopeId, Key, RawHeader, Stamp};
use std::marker::Model;

/// The terms of a notice, which a flush carries: its recipient, and what it quotes of the message.
/// A draft and a letter expose them by reference.
#[derive(Drop)]
pub struct DraftTerms {
    pub(crate) moment: Stamp,
    pub(crate) arrival: Stamp,
    pub(crate) return_path: Option<Address>,
    pub(crate) envelope_id: Option<EnvelopeId>,
    pub(crate) header: RawHeader,
    pub(crate) extensions: ExtensionFields,
    pub(crate) expected: Option<u32>,
    pub(crate) returned: Returned,
    pub(crate) wording: Wording,
}

impl Model for DraftTerms {
    ghost use Rattle.std.specs.Prelude.{IsTrue};
    ghost use Rattle.dsn_outcome.specs.Draft.{Draft, is_count};
    ghost use Rattle.dsn_text.specs.Optional.{is_none_or};

    ghost Value = { Draft };

    ghost view = { λ t. record {
      moment = t.moment;
      arrival = t.arrival;
      return_path = t.return_path;
      envelope_id = t.envelope_id;
      header = t.header;
      extensions = t.extensions;
      expected = t.expected;
      returned = t.returned;
      wording = t.wording;
    } };

    ghost invariant = { λ t. IsTrue (is_none_or is_count t.expected) };
}

impl DraftTerms {
    /// The moment of the flush, which is the notice's date.
    pub fn moment(&self) -> Stamp
        ensures { result ≡ self.now.moment }
    {
        self.moment
    }

    /// When the message arrived.
    pub fn arrival(&self) -> Stamp
        ensures { result ≡ self.now.arrival }
    {
        self.arrival
    }

    /// The address that the notice is sent to; `None` is the null path.
    pub fn return_path(&self) -> Option<&Address>
        ensures { option_copied result ≡ self.now.return_path }
    {
        self.return_path.as_ref()
    }

    /// The sender's envelope id, if there is one.
    pub fn envelope_id(&self) -> Option<&EnvelopeId>
        ensures { option_copied result ≡ self.now.envelope_id }
    {
        self.envelope_id.as_ref()
    }

    /// The message's header as it came, or the whole message.
    pub fn header(&self) -> &RawHeader
        ensures { result.now ≡ self.now.header }
    {
        &self.header
    }

    /// The extension fields of the message (RFC 3464 section 2.4), each a line that ends with LF.
    /// Empty for none.
    pub fn extensions(&self) -> &[u8]
        ensures same { result.now ≡ self.now.extensions }
        ensures legal { IsTrue (is_extension_text result.now) }
    {
        self.extensions.bytes()
    }

    /// The expected number of outcomes in the log; `None` accepts any.
    pub fn expected(&self) -> Option<u32>
        ensures same { result ≡ self.now.expected }
        ensures counted { IsTrue (is_none_or is_count self.now.expected) }
    {
        self.expected
    }

    /// What the header field holds, which is what the notice returns.
    pub fn returned(&self) -> Returned
        ensures { result ≡ self.now.returned }
    {
        self.returned
    }

    /// How the notice's words are chosen.
    pub fn wording(&self) -> Wording
        ensures { result ≡ self.now.wording }
    {
        self.wording
    }
}

/// The log that a letter reports.
#[derive(Drop)]
pub(crate) struct Sealed {
    pub(crate) key: Key,
    pub(crate) outcomes: OutcomeLinks,
    pub(crate) serial: u64,
}

/// A draft. A sealed one is a letter, and one with a link is a letter in a queue.
#[derive(Drop)]
pub(crate) struct LetterCell {
    pub(crate) terms: DraftTerms,
    pub(crate) sealed: Option<Sealed>,
    pub(crate) next: Option<Box<LetterCell>>,
}
