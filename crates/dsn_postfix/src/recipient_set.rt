//! Sets in which outcomes and recipients are looked up, so that the time for a log doesn't grow
//! with the square of its records.
//! Implements docs/postfix-internals.md, "The notice of a Postfix log".
ghost use Rattle.std.specs.Prelude.{◌≡◌, ◌∷◌, List, map, IfOk, OnOk};
ghost use Rattle.std.specs.List.{list_any};
ghost use Rattle.dsn_text.specs.declared.service.Service.TheVariants.{Defer};
ghost use Rattle.dsn_postfix_files.specs.LogRecord.{LoggedFields, logged_fields_in};
ghost use Rattle.dsn_postfix.specs.NoticePlan.{is_same_outcome};
ghost use Rattle.dsn_postfix_files.specs.QueueRecipients.{recipient_facts_in};
ghost use Rattle.dsn_postfix.specs.inner.RecipientSet.{HasOutcomes, HasPast};

use dsn_postfix_files::{LogRecord, QueuedRecipient, RecipientState};
use dsn_text::Service;
use std::alloc::{AllocError, Global};
use std::collections::BTreeSet;

/// What identifies an outcome: the recipient's place in the queue file and its address, the status,
/// the action and the reason.
pub(crate) type OutcomeKey<'a> = (u64, &'a [u8], &'a [u8], &'a [u8], &'a [u8]);

/// Adds the outcome of a record to those of the records after it. Returns whether one of these has
/// it too.
pub(crate) fn is_outcome_again<'a>(
    seen: &mut BTreeSet<OutcomeKey<'a>>,
    found: &LogRecord<'a>,
) -> Result<bool, AllocError>
    ensures again { (later : List LoggedFields) → HasOutcomes seen.old later
        → IfOk result (λ again. again ≡ list_any (is_same_outcome (logged_fields_in found.now)) later) }
    ensures seen { (later : List LoggedFields) → HasOutcomes seen.old later
        → OnOk result (HasOutcomes seen.new (logged_fields_in found.now ∷ later)) }
{
    // Without a place, each record is an outcome of its own.
    if found.offset == 0 {
        return Ok(false);
    }
    // Place and address alone aren't enough: local(8) logs two commands of one alias with the
    // alias's address and place. bounce(8) reports a repeated outcome twice.
    let outcome = (
        found.offset,
        found.recipient,
        found.status,
        found.action,
        found.reason,
    );
    let is_new = seen.insert(outcome)?;
    Ok(!is_new)
}

/// The places of the recipients that a service's log no longer reports, since the queue file has
/// them as done.
pub(crate) fn past_places(
    alloc: Global,
    service: Service,
    queued: &[QueuedRecipient<'_>],
) -> Result<BTreeSet<u64>, AllocError>
    ensures { IfOk result (λ past. HasPast past service (map recipient_facts_in queued.now)) }
{
    match service {
        Service::Bounce | Service::Trace => Ok(BTreeSet::new(alloc)),
        // The notice of an expired message is requested with the flag that marks its recipients as
        // done. If Postfix repeats the request after a crash, they aren't reported twice. The
        // recipients of the other logs are done because they are logged.
        Service::Defer => done_places(alloc, queued),
    }
}

/// The places of the recipients that are done.
fn done_places(alloc: Global, queued: &[QueuedRecipient<'_>]) -> Result<BTreeSet<u64>, AllocError>
    ensures { IfOk result (λ past. HasPast past Defer (map recipient_facts_in queued.now)) }
{
    let mut done = BTreeSet::new(alloc);
    let mut rest = queued;
    while let [recipient, after @ ..] = rest {
        if recipient.place > 0 && recipient.state != RecipientState::Waiting {
            done.insert(recipient.place)?;
        }
        rest = after;
    }
    Ok(done)
}
