//! Which outcomes of a log the notices of a request report.
//! Implements docs/postfix-internals.md, "The notice of a Postfix log".
ghost use Rattle.std.specs.Prelude.{◌≡◌, ◌&&◌, ◌∷◌, not, List, map, IfOk, OnOk, if◌then◌else◌};
ghost use Rattle.std.specs.List.{list_all, list_any};
ghost use Rattle.dsn_postfix_files.specs.LogRecord.{LoggedFields, logged_fields_in};
ghost use Rattle.dsn_postfix.specs.NoticePlan.{has_known_action, is_known_action, is_same_outcome, is_wanted, told_as, told_of};
ghost use Rattle.dsn_postfix_files.specs.QueueRecipients.{RecipientFacts, recipient_facts_in};
ghost use Rattle.dsn_postfix.specs.inner.RecipientSet.{HasOutcomes, HasPast};

use crate::postfix_request::PostfixRequest;
use crate::recipient_set::{OutcomeKey, is_outcome_again, past_places};
use dsn_postfix_files::{LogRecord, QueuedRecipient};
use dsn_text::Service;
use std::alloc::{AllocError, Global};
use std::collections::BTreeSet;

/// A record as a notice of a request reports it.
fn told_as<'a>(request: &PostfixRequest<'_>, found: LogRecord<'a>) -> LogRecord<'a>
    ensures { logged_fields_in result ≡ told_as request.now (logged_fields_in found.entry) }
{
    match request {
        PostfixRequest::Flush(_) | PostfixRequest::Verp(..) | PostfixRequest::One(..) => {
            // As bounce(8) does, even for an expired message whose log has delays. The status stays
            // the log's.
            LogRecord {
                action: b"failed",
                ..found
            }
        }
        PostfixRequest::Append(_) | PostfixRequest::Warn(_) | PostfixRequest::Trace(_) => found,
    }
}

/// Whether an outcome is wanted. `past` has the places of the recipients that are done.
fn is_wanted(request: &PostfixRequest<'_>, past: &BTreeSet<u64>, found: &LogRecord<'_>) -> bool
    ensures { (service : Service) (queued : List RecipientFacts) → HasPast past.now service queued
        → result ≡ is_wanted service request.now queued (logged_fields_in found.now) }
{
    request.wants(found.notify_flags as u32) && !past.contains(&found.offset)
}

/// Whether an outcome is reported: it is wanted, and no later wanted outcome is the same. Adds it
/// to the later ones if it is wanted.
fn is_told<'a>(
    request: &PostfixRequest<'_>,
    past: &BTreeSet<u64>,
    seen: &mut BTreeSet<OutcomeKey<'a>>,
    found: &LogRecord<'a>,
) -> Result<bool, AllocError>
    ensures told { (service : Service) (queued : List RecipientFacts) (later : List LoggedFields)
        → HasPast past.now service queued → HasOutcomes seen.old later
        → IfOk result (λ told. told ≡ (is_wanted service request.now queued (logged_fields_in found.now)
        && not (list_any (is_same_outcome (logged_fields_in found.now)) later))) }
    ensures seen { (service : Service) (queued : List RecipientFacts) (later : List LoggedFields)
        → HasPast past.now service queued → HasOutcomes seen.old later
        → OnOk result (HasOutcomes seen.new
        (if is_wanted service request.now queued (logged_fields_in found.now)
        then logged_fields_in found.now ∷ later else later)) }
{
    if !is_wanted(request, past, found) {
        return Ok(false);
    }
    let again = is_outcome_again(seen, found)?;
    Ok(!again)
}

/// The outcomes of a log's records that the notices of a request report, in their order. Goes
/// through the records from the last to the first, since the last of two records of one outcome is
/// reported.
pub(crate) fn told_of<'a>(
    alloc: Global,
    service: Service,
    request: &PostfixRequest<'_>,
    queued: &[QueuedRecipient<'_>],
    records: &[LogRecord<'a>],
) -> Result<Vec<LogRecord<'a>>, AllocError>
    ensures { IfOk result (λ told. map logged_fields_in told.items
        ≡ told_of service request.now (map recipient_facts_in queued.now)
        (map logged_fields_in records.now)) }
{
    let past = past_places(alloc, service, queued)?;
    let mut seen = BTreeSet::new(alloc);
    let mut told = Vec::new(alloc);
    let mut left = records.len();
    while left > 0 {
        left -= 1;
        let found = told_as(request, records[left]);
        let tells = is_told(request, &past, &mut seen, &found)?;
        if tells {
            told.push(found)?;
        }
    }
    told.reverse();
    Ok(told)
}

/// Whether an action is one of RFC 3464 section 2.3.3.
fn is_known_action(action: &[u8]) -> bool
    ensures { result ≡ is_known_action action.now }
{
    action == b"failed".as_slice()
        || action == b"delayed".as_slice()
        || action == b"delivered".as_slice()
        || action == b"relayed".as_slice()
        || action == b"expanded".as_slice()
}

/// Whether each record has such an action.
pub(crate) fn have_known_actions(told: &[LogRecord<'_>]) -> bool
    ensures { result ≡ list_all has_known_action (map logged_fields_in told.now) }
{
    let mut rest = told;
    while let [found, after @ ..] = rest {
        if !is_known_action(found.action) {
            return false;
        }
        rest = after;
    }
    true
}
