//! The texts of an outcome, in one piece of memory.
ghost use Rattle.std.specs.Prelude.{◌≡◌, ◌+◌, ◌≤◌, ◌++◌, length, IfOk, IfErr};
ghost use Rattle.std.specs.Vec.{vec_len, vec_capacity};
ghost use Rattle.dsn_text.specs.Extension.{longest_extension_text};
ghost use Rattle.dsn_text.specs.Text.{clean_text, longest_address, longest_clean, longest_mta_name, longest_type_name};

use crate::outcome_fault::OutcomeFault;
use crate::outcome_parts::Types;
use dsn_text::replace_unprintable;
use std::alloc::Global;
use std::marker::Model;

/// The end of each text except the last. The next text begins there.
#[derive(Clone, Copy)]
struct Offsets {
    recipient: u16,
    original: u16,
    mta: u16,
    recipient_type: u16,
    original_type: u16,
    diagnostic_type: u16,
    extensions: u16,
    diagnostic: u16,
}

/// The texts of an outcome one after another. An empty text means a missing one.
///
/// All texts share one piece of memory, so an outcome takes two pieces of memory instead of up to
/// six.
#[derive(Drop)]
pub(crate) struct OutcomeTexts {
    bytes: Vec<u8>,
    offsets: Offsets,
}

impl Model for OutcomeTexts {
    ghost use Rattle.dsn_outcome.specs.inner.OutcomeTexts.{OutcomeTexts, AreInOrder, texts_in};

    ghost Value = { OutcomeTexts };

    ghost view = { λ t. texts_in t.bytes.items t.offsets };

    ghost invariant = { λ t. AreInOrder t.bytes.items t.offsets };
}

impl OutcomeTexts {
    /// Copies these texts into one piece of memory, with the diagnostic and the reason cleaned.
    /// Requires that no text is over its limit. Returns `NoMemory` if memory was refused.
    pub(crate) fn new(
        alloc: Global,
        recipient: &[u8],
        original: &[u8],
        mta: &[u8],
        types: Types<'_>,
        extensions: &[u8],
        diagnostic: &[u8],
        reason: &[u8],
    ) -> Result<OutcomeTexts, OutcomeFault>
        requires recipient { length recipient.now ≤ longest_address }
        requires original { length original.now ≤ longest_address }
        requires mta { length mta.now ≤ longest_mta_name }
        requires recipient_type { length types.recipient.now ≤ longest_type_name }
        requires original_type { length types.original.now ≤ longest_type_name }
        requires diagnostic_type { length types.diagnostic.now ≤ longest_type_name }
        requires extensions { length extensions.now ≤ longest_extension_text }
        requires diagnostic { length diagnostic.now ≤ longest_clean }
        requires reason { length reason.now ≤ longest_clean }
        ensures recipient { IfOk result (λ texts. texts.recipient ≡ recipient.now) }
        ensures original { IfOk result (λ texts. texts.original ≡ original.now) }
        ensures mta { IfOk result (λ texts. texts.mta ≡ mta.now) }
        ensures recipient_type { IfOk result
            (λ texts. texts.recipient_type ≡ types.entry.recipient.now) }
        ensures original_type { IfOk result
            (λ texts. texts.original_type ≡ types.entry.original.now) }
        ensures diagnostic_type { IfOk result
            (λ texts. texts.diagnostic_type ≡ types.entry.diagnostic.now) }
        ensures extensions { IfOk result (λ texts. texts.extensions ≡ extensions.now) }
        ensures diagnostic { IfOk result (λ texts. texts.diagnostic ≡ clean_text diagnostic.now) }
        ensures reason { IfOk result (λ texts. texts.reason ≡ clean_text reason.now) }
        ensures memory { IfErr result (λ fault. fault ≡ OutcomeFault.NoMemory) }
    {
        let after_recipient = recipient.len();
        let after_original = after_recipient + original.len();
        let after_mta = after_original + mta.len();
        let after_recipient_type = after_mta + types.recipient.len();
        let after_original_type = after_recipient_type + types.original.len();
        let after_diagnostic_type = after_original_type + types.diagnostic.len();
        let after_extensions = after_diagnostic_type + extensions.len();
        let after_diagnostic = after_extensions + diagnostic.len();
        let offsets = Offsets {
            recipient: after_recipient as u16,
            original: after_original as u16,
            mta: after_mta as u16,
            recipient_type: after_recipient_type as u16,
            original_type: after_original_type as u16,
            diagnostic_type: after_diagnostic_type as u16,
            extensions: after_extensions as u16,
            diagnostic: after_diagnostic as u16,
        };
        let mut bytes = Vec::with_capacity(alloc, after_diagnostic + reason.len()).map_err(
            |_| OutcomeFault::NoMemory,
        )?;
        append(&mut bytes, recipient);
        append(&mut bytes, original);
        append(&mut bytes, mta);
        append(&mut bytes, types.recipient);
        append(&mut bytes, types.original);
        append(&mut bytes, types.diagnostic);
        append(&mut bytes, extensions);
        append_cleaned(&mut bytes, diagnostic);
        append_cleaned(&mut bytes, reason);
        Ok(OutcomeTexts { bytes, offsets })
    }

    /// The final recipient.
    pub(crate) fn recipient(&self) -> &[u8]
        ensures { result.now ≡ self.now.recipient }
    {
        &self.bytes[..self.offsets.recipient as usize]
    }

    /// The recipient as the sender gave it.
    pub(crate) fn original(&self) -> &[u8]
        ensures { result.now ≡ self.now.original }
    {
        &self.bytes[self.offsets.recipient as usize..self.offsets.original as usize]
    }

    /// The remote system.
    pub(crate) fn mta(&self) -> &[u8]
        ensures { result.now ≡ self.now.mta }
    {
        &self.bytes[self.offsets.original as usize..self.offsets.mta as usize]
    }

    /// The response of the remote system.
    pub(crate) fn diagnostic(&self) -> &[u8]
        ensures { result.now ≡ self.now.diagnostic }
    {
        &self.bytes[self.offsets.extensions as usize..self.offsets.diagnostic as usize]
    }

    /// The type of the final recipient.
    pub(crate) fn recipient_type(&self) -> &[u8]
        ensures { result.now ≡ self.now.recipient_type }
    {
        &self.bytes[self.offsets.mta as usize..self.offsets.recipient_type as usize]
    }

    /// The type of the recipient as the sender gave it.
    pub(crate) fn original_type(&self) -> &[u8]
        ensures { result.now ≡ self.now.original_type }
    {
        &self.bytes[self.offsets.recipient_type as usize..self.offsets.original_type as usize]
    }

    /// The type of the diagnostic.
    pub(crate) fn diagnostic_type(&self) -> &[u8]
        ensures { result.now ≡ self.now.diagnostic_type }
    {
        &self.bytes[self.offsets.original_type as usize..self.offsets.diagnostic_type as usize]
    }

    /// The extension fields.
    pub(crate) fn extensions(&self) -> &[u8]
        ensures { result.now ≡ self.now.extensions }
    {
        &self.bytes[self.offsets.diagnostic_type as usize..self.offsets.extensions as usize]
    }

    /// The agent's own explanation.
    pub(crate) fn reason(&self) -> &[u8]
        ensures { result.now ≡ self.now.reason }
    {
        &self.bytes[self.offsets.diagnostic as usize..]
    }
}

/// Appends a text. Requires that there is room for it, so it takes no memory. Most texts of an
/// outcome are empty, and cost one comparison.
fn append(bytes: &mut Vec<u8>, text: &[u8])
    requires { vec_len bytes.old + length text.now ≤ vec_capacity bytes.old }
    ensures items { bytes.new.items ≡ bytes.old.items ++ text.now }
    ensures len { vec_len bytes.new ≡ vec_len bytes.old + length text.now }
    ensures room { vec_capacity bytes.old ≤ vec_capacity bytes.new }
{
    if !text.is_empty() {
        bytes.extend_from_slice(text).unwrap();
    }
}

/// Appends a text with `?` in place of each byte that isn't printable. Requires that there is room
/// for it, so it takes no memory.
fn append_cleaned(bytes: &mut Vec<u8>, text: &[u8])
    requires { vec_len bytes.old + length text.now ≤ vec_capacity bytes.old }
    ensures items { bytes.new.items ≡ bytes.old.items ++ clean_text text.now }
    ensures len { vec_len bytes.new ≡ vec_len bytes.old + length text.now }
    ensures room { vec_capacity bytes.old ≤ vec_capacity bytes.new }
{
    if text.is_empty() {
        return;
    }
    let start = bytes.len();
    append(bytes, text);
    replace_unprintable(&mut bytes[start..]);
}
