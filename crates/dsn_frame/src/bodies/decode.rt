//! Requests from bodies.
//! Implements noticed-protocol(5).
ghost use Rattle.std.specs.Prelude.{◌≡◌, ◌≢◌, ◌&&◌, nat_le, [], true, false, IsTrue, IfOk, IfErr, OnOk, Some, None, unwrap_or};
ghost use Rattle.std.specs.Option.{option_map};
ghost use Rattle.dsn_outcome.specs.Body.{body_of};
ghost use Rattle.dsn_outcome.specs.Draft.{is_count};
ghost use Rattle.dsn_outcome.specs.Outcome.{IsOutcomeOf, first_failed, first_outcome_fault};
ghost use Rattle.dsn_text.specs.Optional.{is_none_or};
ghost use Rattle.dsn_outcome.specs.Request.{Bye};
ghost use Rattle.dsn_text.specs.Stamp.{is_moment, last_moment};
ghost use Rattle.dsn_frame.specs.bodies.BodyFault.{outcome_refusal};
ghost use Rattle.dsn_frame.specs.inner.BodyParts.{head_in, recipient_fields_in, retry_fields_in, type_fields_in, flush_fields_in, wish_fields_in, wire_body_in};
ghost use Rattle.dsn_frame.specs.bodies.Wire.{body_at, head_of};
ghost use Rattle.dsn_frame.specs.bodies.Request.{Encodes, IsKeyOf, StandsFor, count_if_any, draft_of, first_body_fault, first_own_fault, flush_checks, moment_if_any, outcome_fields, retry_checks, has_kind, head_checks, layout_checks};
ghost use Rattle.dsn_frame.specs.inner.BodyParts.{IsWhole};

use crate::bodies::body_fault::BodyFault;
use crate::bodies::body_parts::{
    ANY_COUNT, BodyParts, FlushParts, HeadParts, NO_MOMENT, RecipientParts, RetryParts, TypeParts,
    WishParts,
};
use crate::bodies::{THIRD_VERSION, VERSION, read_fields};
use dsn_outcome::{
    Body, Draft, DraftParts, Key, Node, Outcome, Parts, QueueId, Returned, Service, Stamp, Wording,
};
use std::alloc::Global;

/// The request that a body encodes, with its number on the connection. It is never a goodbye.
/// Returns the first fault in the order of `BodyFault`'s variants. Memory is allocated after all
/// other checks, so `NoMemory` means that a body without a fault met a refused allocation.
#[tactic(auto, unfolding(crate::specs::bodies::Request::first_body_fault))]
pub fn decode_request(alloc: Global, bytes: &[u8]) -> Result<(u32, Body), BodyFault>
    ensures encoded { IfOk result (λ read. Encodes bytes.now read.0 (body_of read.1)) }
    ensures no_goodbye { IfOk result (λ read. body_of read.1 ≢ Bye) }
    ensures accepted { OnOk result (first_body_fault bytes.now ≡ None) }
    ensures refused { IfErr result
        (λ fault. fault ≡ unwrap_or (first_body_fault bytes.now) BodyFault.NoMemory) }
{
    let parts = whole_body(bytes)?;
    let head = parts.head();
    let key = key_of(head)?;
    let body = body_about(alloc, key, parts)?;
    Ok((head.number, body))
}

/// The fields of a body, if nothing follows them.
fn whole_body(bytes: &[u8]) -> Result<BodyParts<'_>, BodyFault>
    ensures accepted { OnOk result (first_failed (layout_checks bytes.now) ≡ None) }
    ensures read { IfOk result (λ parts. body_at bytes.now ≡ Some (wire_body_in parts, [])) }
    ensures refused { IfErr result (λ fault. first_failed (layout_checks bytes.now) ≡ Some fault) }
{
    if bytes
        .first()
        .is_some_and(|version| *version < VERSION || THIRD_VERSION < *version)
    {
        return Err(BodyFault::Version);
    }
    if !has_kind(bytes) {
        return Err(BodyFault::Kind);
    }
    let (parts, rest) = read_fields::body_of(bytes).ok_or(BodyFault::Short)?;
    if !rest.is_empty() {
        return Err(BodyFault::Extra);
    }
    Ok(parts)
}

/// Whether the second byte, if there is one, is a kind of the version in the first byte.
#[tactic(auto, unfolding(crate::specs::bodies::Request::has_kind))]
fn has_kind(bytes: &[u8]) -> bool
    ensures { result ≡ has_kind bytes.now }
{
    match bytes {
        [VERSION, kind, ..] => 1 <= *kind && *kind <= 3,
        [_, kind, ..] => 1 <= *kind && *kind <= 4,
        _ => true,
    }
}

/// The key that a body is about.
fn key_of(head: HeadParts<'_>) -> Result<Key, BodyFault>
    ensures key { IfOk result (λ key. IsKeyOf (head_in head.entry) key) }
    ensures accepted { OnOk result (first_failed (head_checks (head_in head.entry)) ≡ None) }
    ensures refused { IfErr result
        (λ fault. first_failed (head_checks (head_in head.entry)) ≡ Some fault) }
{
    let service = Service::from_byte(head.service).ok_or(BodyFault::Service)?;
    let id = QueueId::new(head.id).ok_or(BodyFault::QueueId)?;
    Ok(Key { service, id })
}

/// The body that these fields encode, about their key.
#[tactic(auto, unfolding(crate::specs::bodies::Request::first_own_fault, crate::specs::bodies::Request::StandsFor))]
fn body_about(alloc: Global, key: Key, parts: BodyParts<'_>) -> Result<Body, BodyFault>
    requires { IsKeyOf (head_of (wire_body_in parts)) key }
    ensures body { IfOk result (λ body. StandsFor (wire_body_in parts.entry) (body_of body)) }
    ensures accepted { OnOk result (first_own_fault (wire_body_in parts.entry) ≡ None) }
    ensures refused { IfErr result
        (λ fault. fault
        ≡ unwrap_or (first_own_fault (wire_body_in parts.entry)) BodyFault.NoMemory) }
{
    match parts {
        BodyParts::Append(_, fields) => {
            let node = outcome_from(alloc, key.service, fields, TypeParts::usual(), (None, None))?;
            Ok(Body::Append(key.id, node))
        }
        BodyParts::DatedAppend(_, fields, dates) => {
            let dates = checked_dates(dates)?;
            let node = outcome_from(alloc, key.service, fields, TypeParts::usual(), dates)?;
            Ok(Body::Append(key.id, node))
        }
        BodyParts::TypedAppend(_, fields, dates, said) => {
            let dates = checked_dates(dates)?;
            let node = outcome_from(alloc, key.service, fields, said, dates)?;
            Ok(Body::Append(key.id, node))
        }
        BodyParts::Flush(_, fields) => {
            let draft = draft_from(alloc, fields, WishParts::usual())?;
            Ok(Body::Flush(key, draft))
        }
        BodyParts::CountedFlush(_, fields, wishes) => {
            let draft = draft_from(alloc, fields, wishes)?;
            Ok(Body::Flush(key, draft))
        }
        BodyParts::Discard(_) => Ok(Body::Discard(key)),
        BodyParts::Forget(_) => Ok(Body::Forget(key)),
    }
}

/// The outcome of a service that these fields of an append encode, with these types, extension
/// fields and moments.
fn outcome_from(
    alloc: Global,
    service: Service,
    fields: RecipientParts<'_>,
    said: TypeParts<'_>,
    dates: (Option<Stamp>, Option<Stamp>),
) -> Result<Box<Node>, BodyFault>
    ensures kept { IfOk result
        (λ node. IsOutcomeOf service
        (outcome_fields (recipient_fields_in fields.entry) (type_fields_in said.entry)
        dates.0 dates.1)
        node.value.outcome) }
    ensures accepted { OnOk result
        (first_outcome_fault service
        (outcome_fields (recipient_fields_in fields.entry) (type_fields_in said.entry)
        dates.0 dates.1) ≡ None) }
    ensures refused { IfErr result
        (λ fault. fault
        ≡ unwrap_or
        (option_map outcome_refusal
        (first_outcome_fault service
        (outcome_fields (recipient_fields_in fields.entry) (type_fields_in said.entry)
        dates.0 dates.1)))
        BodyFault.NoMemory) }
{
    let (last_attempt, retry_until) = dates;
    let parts = Parts {
        recipient: fields.recipient,
        original: fields.original,
        action: fields.action,
        status: fields.status,
        mta: fields.mta,
        diagnostic: fields.diagnostic,
        reason: fields.reason,
        last_attempt,
        retry_until,
        types: said.types,
        extensions: said.extensions,
    };
    Ok(Outcome::new(alloc, service, parts)?)
}

/// The two moments of an append. Returns `Moment` if a number is neither a moment nor the number
/// for no moment.
fn checked_dates(dates: RetryParts) -> Result<(Option<Stamp>, Option<Stamp>), BodyFault>
    ensures last_attempt { IfOk result (λ moments. moments.0 ≡ moment_if_any dates.last_attempt) }
    ensures retry_until { IfOk result (λ moments. moments.1 ≡ moment_if_any dates.retry_until) }
    ensures accepted { OnOk result (first_failed (retry_checks (retry_fields_in dates)) ≡ None) }
    ensures refused { IfErr result
        (λ fault. first_failed (retry_checks (retry_fields_in dates)) ≡ Some fault) }
{
    let last_attempt = checked_date(dates.last_attempt)?;
    let retry_until = checked_date(dates.retry_until)?;
    Ok((last_attempt, retry_until))
}

/// The moment that a number encodes, or `None` for [`NO_MOMENT`]. Returns `Moment` if it is
/// neither.
fn checked_date(seconds: u64) -> Result<Option<Stamp>, BodyFault>
    ensures moment { IfOk result (λ moment. moment ≡ moment_if_any seconds) }
    ensures accepted { OnOk result (is_none_or is_moment (moment_if_any seconds) ≡ true) }
    ensures refused { IfErr result (λ fault. fault ≡ BodyFault.Moment) }
    ensures after { IfErr result (λ fault. is_none_or is_moment (moment_if_any seconds) ≡ false) }
{
    if seconds == NO_MOMENT {
        return Ok(None);
    }
    match Stamp::new(seconds) {
        Some(moment) => Ok(Some(moment)),
        None => Err(BodyFault::Moment),
    }
}

/// The number of outcomes that a flush expects, or `None` if it accepts any number.
fn count_if_any(count: u32) -> Option<u32>
    ensures same { result ≡ count_if_any count }
    ensures counted { IsTrue (is_none_or is_count result) }
{
    if count == ANY_COUNT {
        return None;
    }
    Some(count)
}

/// The draft that a flush's fields encode.
#[tactic(auto, using(crate::proofs::bodies::EncodingLaws::draft_refused))]
fn draft_from(
    alloc: Global,
    fields: FlushParts<'_>,
    wishes: WishParts<'_>,
) -> Result<Draft, BodyFault>
    ensures draft { IfOk result
        (λ draft. draft ≡ draft_of (flush_fields_in fields.entry) (wish_fields_in wishes.entry)) }
    ensures accepted { OnOk result
        (first_failed (flush_checks (flush_fields_in fields.entry) (wish_fields_in wishes.entry))
        ≡ None) }
    ensures refused { IfErr result
        (λ fault. fault
        ≡ unwrap_or
        (first_failed (flush_checks (flush_fields_in fields.entry) (wish_fields_in wishes.entry)))
        BodyFault.NoMemory) }
{
    let (moment, arrival) = checked_moments(fields.moment, fields.arrival)?;
    let parts = DraftParts {
        return_path: fields.return_path,
        envelope_id: fields.envelope_id,
        header: fields.header,
        expected: count_if_any(wishes.expected),
        returned: Returned::from_byte(wishes.returned),
        wording: Wording::from_byte(wishes.wording),
        extensions: wishes.extensions,
    };
    Ok(Draft::read(alloc, moment, arrival, parts)?)
}

/// The moment and the arrival of a flush. Returns `Moment` if either is after the year 9999.
fn checked_moments(moment: u64, arrival: u64) -> Result<(Stamp, Stamp), BodyFault>
    ensures moment { IfOk result (λ moments. moments.0 ≡ moment) }
    ensures arrival { IfOk result (λ moments. moments.1 ≡ arrival) }
    ensures accepted { OnOk result
        (nat_le moment last_moment && nat_le arrival last_moment ≡ true) }
    ensures refused { IfErr result (λ fault. fault ≡ BodyFault.Moment) }
    ensures after { IfErr result
        (λ fault. nat_le moment last_moment && nat_le arrival last_moment ≡ false) }
{
    let moment = Stamp::new(moment).ok_or(BodyFault::Moment)?;
    let arrival = Stamp::new(arrival).ok_or(BodyFault::Moment)?;
    Ok((moment, arrival))
}
