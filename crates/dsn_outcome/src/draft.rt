//! The draft of a notice, which a flush carries. Implements noticed-protocol(5).
ghost use Rattle.std.specs.Prelude.{◌≡◌, ◌≤◌, ◌↔◌, [], length, IsTrue, IsSome, IfOk, IfErr, OnOk, Some, None, unwrap_or};
ghost use Rattle.dsn_outcome.specs.Draft.{first_draft_fault, is_count};
ghost use Rattle.dsn_outcome.specs.DraftParts.{draft_fields_of};
ghost use Rattle.dsn_text.specs.Extension.{is_extension_text};
ghost use Rattle.dsn_text.specs.Optional.{is_none_or, unless_empty};
ghost use Rattle.dsn_text.specs.Text.{is_address, is_envelope_id};

use crate::draft_fault::DraftFault;
use crate::draft_parts::{DraftParts, Wishes};
use crate::extension_fields::ExtensionFields;
use crate::letter_cell::{DraftTerms, LetterCell};
use crate::optional_texts::{
    is_optional_address, is_optional_envelope_id, optional_address, optional_envelope_id,
};
use crate::returned::Returned;
use crate::wording::Wording;
use dsn_text::{
    Address, EnvelopeId, LONGEST_HEADER, NoMemory, RawHeader, Stamp, is_extension_text,
};
use std::alloc::Global;
use std::marker::Model;

/// The draft of a notice, which a flush carries: its recipient, and what it quotes of the message.
#[derive(Drop)]
pub struct Draft {
    pub(crate) cell: Box<LetterCell>,
}

impl Model for Draft {
    ghost use Rattle.dsn_outcome.specs.Draft.{Draft};
    ghost use Rattle.dsn_outcome.specs.inner.LetterCell.{letter_in, IsUnlinked};

    ghost Value = { Draft };

    ghost view = { λ d. (letter_in d.cell.value).draft };

    ghost invariant = { λ d. IsUnlinked d.cell.value };
}

impl Draft {
    /// A draft without extension fields, for embedders and tests; the daemon uses [`Draft::read`].
    /// `None` as return path is the null path, to which no notice is sent (RFC 5321 section 4.5.5).
    ///
    /// Requires that the expected count, if there is one, is below 2^32 - 1. Returns `NoMemory`
    /// only if memory for the draft was refused.
    pub fn new(
        alloc: Global,
        moment: Stamp,
        arrival: Stamp,
        return_path: Option<Address>,
        envelope_id: Option<EnvelopeId>,
        header: RawHeader,
        wishes: Wishes,
    ) -> Result<Draft, NoMemory>
        requires counted { IsTrue (is_none_or is_count wishes.expected) }
        ensures moment { IfOk result (λ draft. draft.moment ≡ moment) }
        ensures arrival { IfOk result (λ draft. draft.arrival ≡ arrival) }
        ensures return_path { IfOk result (λ draft. draft.return_path ≡ return_path) }
        ensures envelope_id { IfOk result (λ draft. draft.envelope_id ≡ envelope_id) }
        ensures header { IfOk result (λ draft. draft.header ≡ header) }
        ensures extensions { IfOk result (λ draft. draft.extensions ≡ []) }
        ensures expected { IfOk result (λ draft. draft.expected ≡ wishes.expected) }
        ensures returned { IfOk result (λ draft. draft.returned ≡ wishes.returned) }
        ensures wording { IfOk result (λ draft. draft.wording ≡ wishes.wording) }
    {
        let terms = DraftTerms {
            moment,
            arrival,
            return_path,
            envelope_id,
            header,
            extensions: ExtensionFields::none(alloc),
            expected: wishes.expected,
            returned: wishes.returned,
            wording: wishes.wording,
        };
        Draft::of(alloc, terms)
    }

    /// A draft of these terms, in an unlinked cell of its own.
    fn of(alloc: Global, terms: DraftTerms) -> Result<Draft, NoMemory>
        ensures { IfOk result (λ draft. draft ≡ terms) }
    {
        let cell = LetterCell {
            terms,
            sealed: None,
            next: None,
        };
        match Box::new(alloc, cell) {
            Ok(cell) => Ok(Draft { cell }),
            Err(_) => Err(NoMemory),
        }
    }

    /// Returns the draft with these fields, or the first fault in the order of [`DraftFault`]. All
    /// fields are checked before memory is taken. Requires that the expected count, if there is
    /// one, is below 2^32 - 1.
    pub fn read(
        alloc: Global,
        moment: Stamp,
        arrival: Stamp,
        parts: DraftParts<'_>,
    ) -> Result<Draft, DraftFault>
        requires counted { IsTrue (is_none_or is_count parts.expected) }
        ensures moment { IfOk result (λ draft. draft.moment ≡ moment) }
        ensures arrival { IfOk result (λ draft. draft.arrival ≡ arrival) }
        ensures return_path { IfOk result
            (λ draft. draft.return_path ≡ unless_empty parts.entry.return_path.now) }
        ensures envelope_id { IfOk result
            (λ draft. draft.envelope_id ≡ unless_empty parts.entry.envelope_id.now) }
        ensures header { IfOk result (λ draft. draft.header ≡ parts.entry.header.now) }
        ensures extensions { IfOk result
            (λ draft. draft.extensions ≡ parts.entry.extensions.now) }
        ensures expected { IfOk result (λ draft. draft.expected ≡ parts.entry.expected) }
        ensures returned { IfOk result
            (λ draft. parts.entry.returned ≡ Some draft.returned) }
        ensures wording { IfOk result
            (λ draft. parts.entry.wording ≡ Some draft.wording) }
        ensures accepted { OnOk result (first_draft_fault (draft_fields_of parts.entry) ≡ None) }
        ensures refused { IfErr result
            (λ fault. fault
            ≡ unwrap_or (first_draft_fault (draft_fields_of parts.entry)) DraftFault.NoMemory) }
    {
        let (returned, wording) = check(parts)?;
        let return_path = optional_address(alloc, parts.return_path)?;
        let envelope_id = optional_envelope_id(alloc, parts.envelope_id)?;
        let header = RawHeader::kept(alloc, parts.header)?;
        let extensions = ExtensionFields::kept(alloc, parts.extensions)?;
        let terms = DraftTerms {
            moment,
            arrival,
            return_path,
            envelope_id,
            header,
            extensions,
            expected: parts.expected,
            returned,
            wording,
        };
        Ok(Draft::of(alloc, terms)?)
    }

    /// Whether the return path is not null, so that a notice can be sent.
    pub fn has_return(&self) -> bool
        ensures { IsTrue result ↔ IsSome self.now.return_path }
    {
        self.cell.terms.return_path.is_some()
    }

    /// The terms of the draft.
    pub fn terms(&self) -> &DraftTerms
        ensures { result.now ≡ self.now }
    {
        &self.cell.terms
    }
}

/// Returns what is returned and the wording, or the first fault of the fields.
fn check(parts: DraftParts<'_>) -> Result<(Returned, Wording), DraftFault>
    ensures accepted { OnOk result (first_draft_fault (draft_fields_of parts.entry) ≡ None) }
    ensures header { OnOk result (length parts.entry.header.now ≤ LONGEST_HEADER) }
    ensures return_path { OnOk result
        (IsTrue (is_none_or is_address (unless_empty parts.entry.return_path.now))) }
    ensures envelope_id { OnOk result
        (IsTrue (is_none_or is_envelope_id (unless_empty parts.entry.envelope_id.now))) }
    ensures extensions { OnOk result (IsTrue (is_extension_text parts.entry.extensions.now)) }
    ensures returned { IfOk result (λ read. parts.entry.returned ≡ Some read.0) }
    ensures wording { IfOk result (λ read. parts.entry.wording ≡ Some read.1) }
    ensures refused { IfErr result
        (λ fault. first_draft_fault (draft_fields_of parts.entry) ≡ Some fault) }
{
    // The two moments are not compared, since the clocks of two machines differ.
    if !RawHeader::is_valid(parts.header) {
        return Err(DraftFault::Header);
    }
    if !is_optional_address(parts.return_path) {
        return Err(DraftFault::ReturnPath);
    }
    if !is_optional_envelope_id(parts.envelope_id) {
        return Err(DraftFault::EnvelopeId);
    }
    let returned = parts.returned.ok_or(DraftFault::Returned)?;
    let wording = parts.wording.ok_or(DraftFault::Wording)?;
    if !is_extension_text(parts.extensions) {
        return Err(DraftFault::Extensions);
    }
    Ok((returned, wording))
}
