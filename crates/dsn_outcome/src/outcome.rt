//! The outcome of one recipient's delivery (RFC 3464 section 2.3).
//! Implements noticed-protocol(5).
ghost use Rattle.std.specs.Prelude.{◌≡◌, [], IsTrue, IfOk, IfErr, OnOk, unwrap_or};
ghost use Rattle.dsn_text.specs.Action.{action_of_byte};

use crate::optional_texts::{
    is_optional_address, is_optional_mta_name, is_optional_type_name, is_type_of, unless_empty,
};
use crate::outcome_fault::OutcomeFault;
use crate::outcome_node::Node;
use crate::outcome_parts::{Parts, Types};
use crate::outcome_texts::OutcomeTexts;
use dsn_text::{Action, Address, Clean, PackedStamp, Service, Stamp, Status, is_extension_text};
use std::alloc::Global;
use std::marker::Model;

/// A legal outcome. Its service takes its action, its status fits the action, and its texts are
/// within their bounds. Only a delayed recipient has a time until which delivery is retried. Each
/// type belongs to a text that is present, and the extension fields are valid.
#[derive(Drop)]
pub struct Outcome {
    texts: OutcomeTexts,
    last_attempt: PackedStamp,
    retry_until: PackedStamp,
    service: Service,
    action: Action,
    status: Status,
}

impl Model for Outcome {
    ghost use Rattle.dsn_outcome.specs.Outcome.{Outcome, IsLegalOutcome};
    ghost use Rattle.dsn_outcome.specs.inner.OutcomeTexts.{outcome_of};

    ghost Value = { Outcome };

    ghost view = { λ o. outcome_of o.texts o.service o.action o.status o.last_attempt
        o.retry_until };

    ghost invariant = { λ o. IsLegalOutcome
        (outcome_of o.texts o.service o.action o.status o.last_attempt o.retry_until) };
}

impl Outcome {
    ghost use Rattle.std.specs.Option.{option_copied};
    ghost use Rattle.dsn_outcome.specs.Outcome.{IsLegalOutcome, IsOutcomeOf, first_outcome_fault};
    ghost use Rattle.dsn_text.specs.Extension.{is_extension_text};
    ghost use Rattle.dsn_text.specs.Optional.{is_none_or};
    ghost use Rattle.dsn_outcome.specs.OutcomeParts.{fields_of};
    ghost use Rattle.dsn_text.specs.Text.{IsAddress, is_address, is_mta_name, is_remark, is_type_name};

    /// Returns an outcome of this service with these fields, in an unlinked node that is ready for
    /// its log. Otherwise returns the first fault in the order of [`OutcomeFault`]. All fields are
    /// checked before memory is taken.
    #[tactic(auto, using(crate::proofs::OutcomeLemmas::short_none))]
    pub fn new(alloc: Global, service: Service, parts: Parts<'_>) -> Result<Box<Node>, OutcomeFault>
        ensures kept { IfOk result
            (λ node. IsOutcomeOf service (fields_of parts.entry) node.value.outcome) }
        ensures accepted { IfOk result
            (λ node. first_outcome_fault service (fields_of parts.entry) ≡ None) }
        ensures legal { IfOk result (λ node. IsLegalOutcome node.value.outcome) }
        ensures unlinked { IfOk result (λ node. node.value.linked ≡ []) }
        ensures refused { IfErr result
            (λ fault. fault
            ≡ unwrap_or
            (first_outcome_fault service (fields_of parts.entry)) OutcomeFault.NoMemory) }
    {
        // The fields are named one by one because the kit can't lend a whole `Parts` and then read
        // it again.
        let Parts {
            recipient,
            original,
            action,
            status,
            mta,
            diagnostic,
            reason,
            last_attempt,
            retry_until,
            types,
            extensions,
        } = parts;
        let (action, status) = check(
            service,
            Parts {
                recipient,
                original,
                action,
                status,
                mta,
                diagnostic,
                reason,
                last_attempt,
                retry_until,
                types,
                extensions,
            },
        )?;
        let outcome = Outcome {
            texts: OutcomeTexts::new(
                alloc, recipient, original, mta, types, extensions, diagnostic, reason,
            )?,
            last_attempt: PackedStamp::new(last_attempt),
            retry_until: PackedStamp::new(retry_until),
            service,
            action,
            status,
        };
        linked(alloc, outcome)
    }

    /// The service whose log the outcome belongs to.
    pub fn service(&self) -> Service
        ensures same { result ≡ self.now.service }
        ensures legal { IsLegalOutcome self.now }
    {
        self.service
    }

    /// The final recipient, an address.
    pub fn recipient(&self) -> &[u8]
        ensures same { result.now ≡ self.now.recipient }
        ensures legal { IsAddress result.now }
    {
        self.texts.recipient()
    }

    /// The recipient as the sender gave it, an address, if the agent knows it.
    pub fn original(&self) -> Option<&[u8]>
        ensures same { option_copied result ≡ self.now.original }
        ensures legal { IsTrue (is_none_or is_address (option_copied result)) }
    {
        unless_empty(self.texts.original())
    }

    /// The action that was taken.
    pub fn action(&self) -> Action
        ensures { result ≡ self.now.action }
    {
        self.action
    }

    /// The status code.
    pub fn status(&self) -> &Status
        ensures { result.now ≡ self.now.status }
    {
        &self.status
    }

    /// The remote system's name, if there is one.
    pub fn mta(&self) -> Option<&[u8]>
        ensures same { option_copied result ≡ self.now.mta }
        ensures legal { IsTrue (is_none_or is_mta_name (option_copied result)) }
    {
        unless_empty(self.texts.mta())
    }

    /// The response of the remote system, cleaned, if there is one.
    pub fn diagnostic(&self) -> Option<&[u8]>
        ensures same { option_copied result ≡ self.now.diagnostic }
        ensures legal { IsTrue (is_none_or is_remark (option_copied result)) }
    {
        unless_empty(self.texts.diagnostic())
    }

    /// The agent's own explanation, cleaned, if there is one.
    pub fn reason(&self) -> Option<&[u8]>
        ensures same { option_copied result ≡ self.now.reason }
        ensures legal { IsTrue (is_none_or is_remark (option_copied result)) }
    {
        unless_empty(self.texts.reason())
    }

    /// When delivery was last tried (RFC 3464 section 2.3.7), if the agent said it.
    pub fn last_attempt(&self) -> Option<Stamp>
        ensures { result ≡ self.now.last_attempt }
    {
        self.last_attempt.get()
    }

    /// The type of the final recipient, if it isn't the usual `rfc822` (RFC 3464 section 2.3.2).
    pub fn recipient_type(&self) -> Option<&[u8]>
        ensures same { option_copied result ≡ self.now.recipient_type }
        ensures legal { IsTrue (is_none_or is_type_name (option_copied result)) }
    {
        unless_empty(self.texts.recipient_type())
    }

    /// The type of the original recipient, if it isn't the usual `rfc822` (RFC 3464 section 2.3.1).
    /// `None` if there is no original recipient.
    pub fn original_type(&self) -> Option<&[u8]>
        ensures same { option_copied result ≡ self.now.original_type }
        ensures legal { IsTrue (is_none_or is_type_name (option_copied result)) }
    {
        unless_empty(self.texts.original_type())
    }

    /// The type of the diagnostic, if it isn't the usual `smtp` (RFC 3464 section 2.3.6). `None` if
    /// there is no diagnostic.
    pub fn diagnostic_type(&self) -> Option<&[u8]>
        ensures same { option_copied result ≡ self.now.diagnostic_type }
        ensures legal { IsTrue (is_none_or is_type_name (option_copied result)) }
    {
        unless_empty(self.texts.diagnostic_type())
    }

    /// The extension fields (RFC 3464 section 2.4), each a line that ends with LF. Empty for none.
    pub fn extensions(&self) -> &[u8]
        ensures same { result.now ≡ self.now.extensions }
        ensures legal { IsTrue (is_extension_text result.now) }
    {
        self.texts.extensions()
    }

    /// Until when delivery is retried (RFC 3464 section 2.3.9), if the agent said it.
    pub fn retry_until(&self) -> Option<Stamp>
        ensures { result ≡ self.now.retry_until }
    {
        self.retry_until.get()
    }
}

ghost use Rattle.dsn_outcome.specs.Outcome.{IsLegalOutcome, IsOutcomeOf, first_failed, first_outcome_fault, later_checks};
ghost use Rattle.dsn_outcome.specs.OutcomeParts.{fields_of};

/// Puts an outcome into an unlinked node of its own. Returns `NoMemory` if memory was refused.
fn linked(alloc: Global, outcome: Outcome) -> Result<Box<Node>, OutcomeFault>
    requires { IsLegalOutcome outcome }
    ensures kept { IfOk result (λ node. node.value.outcome ≡ outcome) }
    ensures legal { IfOk result (λ node. IsLegalOutcome node.value.outcome) }
    ensures unlinked { IfOk result (λ node. node.value.linked ≡ []) }
    ensures memory { IfErr result (λ fault. fault ≡ OutcomeFault.NoMemory) }
{
    let node = Node {
        outcome,
        next: None,
    };
    match Box::new(alloc, node) {
        Ok(node) => Ok(node),
        Err(_) => Err(OutcomeFault::NoMemory),
    }
}

/// Returns the action and the status of valid fields, or their first fault. It takes no memory.
#[tactic(auto, unfolding(crate::specs::Outcome::first_outcome_fault))]
fn check(service: Service, parts: Parts<'_>) -> Result<(Action, Status), OutcomeFault>
    ensures none { IfOk result
        (λ found. first_outcome_fault service (fields_of parts.entry) ≡ None) }
    ensures action { IfOk result (λ found. action_of_byte parts.entry.action ≡ Some found.0) }
    ensures status { IfOk result (λ found. found.1 ≡ parts.entry.status.now) }
    ensures first { IfErr result
        (λ fault. first_outcome_fault service (fields_of parts.entry) ≡ Some fault) }
{
    // The final recipient is checked before the original one, though it comes later in a frame.
    if !Address::is_valid(parts.recipient) {
        return Err(OutcomeFault::BadRecipient);
    }
    if !is_optional_address(parts.original) {
        return Err(OutcomeFault::BadOriginal);
    }
    let Some(action) = Action::from_byte(parts.action) else {
        return Err(OutcomeFault::BadAction);
    };
    if !service.takes(action) {
        return Err(OutcomeFault::BadAction);
    }
    let Some(status) = Status::read(parts.status) else {
        return Err(OutcomeFault::BadStatus);
    };
    if !action.fits_class(status.class()) {
        return Err(OutcomeFault::StatusClass);
    }
    if !is_optional_mta_name(parts.mta) {
        return Err(OutcomeFault::BadMta);
    }
    if !Clean::is_valid(parts.diagnostic) {
        return Err(OutcomeFault::LongDiagnostic);
    }
    if !Clean::is_valid(parts.reason) {
        return Err(OutcomeFault::LongReason);
    }
    if !action.fits_retry(parts.retry_until) {
        return Err(OutcomeFault::RetryUntil);
    }
    check_later(
        parts.original,
        parts.diagnostic,
        parts.types,
        parts.extensions,
    )?;
    Ok((action, status))
}

/// Returns the first fault of the types or of the extension fields, if they have one. Most outcomes
/// have none of these texts, and cost four comparisons. It takes no memory.
#[tactic(auto, unfolding(dsn_text::specs::Extension::are_extension_lines))]
fn check_later(
    original: &[u8],
    diagnostic: &[u8],
    types: Types<'_>,
    extensions: &[u8],
) -> Result<(), OutcomeFault>
    ensures none { OnOk result
        (first_failed (later_checks original.now diagnostic.now types.entry.recipient.now
        types.entry.original.now types.entry.diagnostic.now extensions.now) ≡ None) }
    ensures first { IfErr result
        (λ fault. first_failed (later_checks original.now diagnostic.now types.entry.recipient.now
        types.entry.original.now types.entry.diagnostic.now extensions.now) ≡ Some fault) }
{
    if types.recipient.is_empty()
        && types.original.is_empty()
        && types.diagnostic.is_empty()
        && extensions.is_empty()
    {
        return Ok(());
    }
    check_said(original, diagnostic, types, extensions)
}

/// The checks of `check_later`, for a call in which at least one of these texts is not empty.
#[inline(never)]
fn check_said(
    original: &[u8],
    diagnostic: &[u8],
    types: Types<'_>,
    extensions: &[u8],
) -> Result<(), OutcomeFault>
    ensures none { OnOk result
        (first_failed (later_checks original.now diagnostic.now types.entry.recipient.now
        types.entry.original.now types.entry.diagnostic.now extensions.now) ≡ None) }
    ensures first { IfErr result
        (λ fault. first_failed (later_checks original.now diagnostic.now types.entry.recipient.now
        types.entry.original.now types.entry.diagnostic.now extensions.now) ≡ Some fault) }
{
    if !is_optional_type_name(types.recipient) {
        return Err(OutcomeFault::RecipientType);
    }
    if !is_type_of(original, types.original) {
        return Err(OutcomeFault::OriginalType);
    }
    if !is_type_of(diagnostic, types.diagnostic) {
        return Err(OutcomeFault::DiagnosticType);
    }
    if !is_extension_text(extensions) {
        return Err(OutcomeFault::Extension);
    }
    Ok(())
}
