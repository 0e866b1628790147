//! Requests to frames.
//! Implements noticed-protocol(5).
ghost use Rattle.std.specs.Prelude.{◌≡◌, ◌≢◌, Some, IfOk, IsTrue};
ghost use Rattle.std.specs.Option.{option_copied};
ghost use Rattle.dsn_outcome.specs.Body.{body_of, body_lent};
ghost use Rattle.dsn_outcome.specs.inner.Draft.{IsLegalDraft};
ghost use Rattle.dsn_outcome.specs.Outcome.{IsLegalOutcome};
ghost use Rattle.dsn_text.specs.Optional.{is_none_or};
ghost use Rattle.dsn_outcome.specs.Request.{Bye};
ghost use Rattle.dsn_text.specs.Text.{IsQueueId, is_address, is_envelope_id};
ghost use Rattle.dsn_frame.specs.inner.BodyParts.{head_in, recipient_fields_in, retry_fields_in, type_fields_in, flush_fields_in, wish_fields_in, wire_body_in};
ghost use Rattle.dsn_frame.specs.bodies.FrameBody.{IsFrameBody};
ghost use Rattle.dsn_frame.specs.bodies.Request.{Encodes, append_written_as, count_or_any, fields_for, moment_or_none, retry_fields_for, fields_written, flush_fields_for, has_usual_types, type_fields_for, flush_written_as, wish_fields_for, head_for, request_body, request_bytes, text_or_empty};
ghost use Rattle.dsn_frame.specs.inner.BodyParts.{IsWritten};

use crate::bodies::body_parts::{
    ANY_COUNT, BodyParts, FlushParts, HeadParts, NO_MOMENT, RecipientParts, RetryParts, TypeParts,
    WishParts,
};
use crate::bodies::write_fields::{body_len, push_frame};
use crate::bodies::{SECOND_VERSION, THIRD_VERSION, VERSION};
use dsn_outcome::{
    Address, Body, BodyRef, DraftTerms, EnvelopeId, Key, NoMemory, Outcome, QueueId, Service,
    Stamp, Types,
};
use std::alloc::Global;

/// The whole frame of a request: its length, and a body that encodes this number and this request.
/// A diagnostic and a reason are written as the outcome keeps them, clean. Memory for the frame is
/// allocated at once, so `NoMemory` is returned before a byte is written. This is for embedders and
/// tests.
///
/// The contract states both the bytes and that they encode the request. The bytes alone wouldn't
/// fix the format's meaning. The meaning alone wouldn't fix the bytes: a diagnostic's unprintable
/// bytes are all read as `?`, so one request has several bodies.
pub fn encode_request(alloc: Global, number: u32, body: &Body) -> Result<Vec<u8>, NoMemory>
    requires { body_of body.now ≢ Bye }
    ensures written { IfOk result (λ frame. frame.items ≡ request_bytes number (body_of body.now)) }
    ensures whole { IsFrameBody (request_body number (body_of body.now)) }
    ensures encoded { Encodes (request_body number (body_of body.now)) number (body_of body.now) }
{
    match body.lent() {
        Some(lent) => encode_lent(alloc, number, lent),
        None => unreachable!(),
    }
}

/// The whole frame of a request whose parts another value owns. Otherwise like [`encode_request`].
///
/// A journal's snapshot writes outcomes that a log or a letter keeps. A copy of them would take
/// memory.
#[tactic(auto, using(crate::proofs::bodies::EncodingLaws::written_encodes, crate::proofs::bodies::EncodingLaws::written_fits), unfolding(crate::specs::bodies::Request::request_body, crate::specs::bodies::Request::request_bytes))]
pub fn encode_lent(alloc: Global, number: u32, body: BodyRef<'_>) -> Result<Vec<u8>, NoMemory>
    ensures written { IfOk result
        (λ frame. frame.items ≡ request_bytes number (body_lent body.entry)) }
    ensures whole { IsFrameBody (request_body number (body_lent body.entry)) }
    ensures encoded { Encodes (request_body number (body_lent body.entry)) number
        (body_lent body.entry) }
{
    let parts = parts_of(number, body);
    let size = body_len(parts);
    let Ok(mut frame) = Vec::with_capacity(alloc, 4 + size) else {
        return Err(NoMemory);
    };
    push_frame(&mut frame, parts);
    Ok(frame)
}

/// The fields of a request.
#[tactic(auto, unfolding(crate::specs::bodies::Request::fields_written))]
fn parts_of(number: u32, body: BodyRef<'_>) -> BodyParts<'_>
    ensures fields { fields_written number (body_lent body.entry) ≡ Some (wire_body_in result) }
    ensures written { IsWritten number (body_lent body.entry) (wire_body_in result) }
{
    match body {
        BodyRef::Append(id, outcome) => append_parts(number, id, outcome),
        BodyRef::Flush(key, terms) => flush_body(number, key, terms),
        BodyRef::Discard(key) => {
            BodyParts::Discard(head_parts(VERSION, number, key.service, &key.id))
        }
        BodyRef::Forget(key) => {
            BodyParts::Forget(head_parts(SECOND_VERSION, number, key.service, &key.id))
        }
    }
}

/// The head of a request about this message.
fn head_parts(version: u8, number: u32, service: Service, id: &QueueId) -> HeadParts<'_>
    ensures same { head_in result ≡ head_for version number service id.now }
    ensures legal { IsQueueId id.now }
{
    HeadParts {
        version,
        number,
        service: service.byte(),
        id: id.bytes(),
    }
}

/// The fields of an append.
#[tactic(auto, unfolding(crate::specs::bodies::Request::append_written_as))]
fn append_parts<'a>(number: u32, id: &'a QueueId, outcome: &'a Outcome) -> BodyParts<'a>
    ensures same { wire_body_in result ≡ append_written_as number id.now outcome.now }
    ensures id_legal { IsQueueId id.now }
    ensures legal { IsLegalOutcome outcome.now }
{
    let service = outcome.service();
    let fields = recipient_parts(outcome);
    let dates = retry_parts(outcome);
    if !has_usual_types(outcome) {
        let head = head_parts(THIRD_VERSION, number, service, id);
        return BodyParts::TypedAppend(head, fields, dates, types_of(outcome));
    }
    if outcome.last_attempt().is_none() && outcome.retry_until().is_none() {
        return BodyParts::Append(head_parts(VERSION, number, service, id), fields);
    }
    BodyParts::DatedAppend(
        head_parts(SECOND_VERSION, number, service, id),
        fields,
        dates,
    )
}

/// Whether an append of the second version can express the outcome: none of its texts has a type,
/// and it has no extension field.
///
/// An explicit type is kept, also `rfc822` and `smtp`, though the notice is the same without it.
fn has_usual_types(outcome: &Outcome) -> bool
    ensures { result ≡ has_usual_types outcome.now }
{
    outcome.recipient_type().is_none()
        && outcome.original_type().is_none()
        && outcome.diagnostic_type().is_none()
        && outcome.extensions().is_empty()
}

/// The types of an outcome's texts, and its extension fields.
fn types_of(outcome: &Outcome) -> TypeParts<'_>
    ensures { type_fields_in result ≡ type_fields_for outcome.now }
{
    TypeParts {
        types: Types {
            recipient: text_or_empty(outcome.recipient_type()),
            original: text_or_empty(outcome.original_type()),
            diagnostic: text_or_empty(outcome.diagnostic_type()),
        },
        extensions: outcome.extensions(),
    }
}

/// The two moments of an outcome.
fn retry_parts(outcome: &Outcome) -> RetryParts
    ensures { retry_fields_in result ≡ retry_fields_for outcome.now }
{
    RetryParts {
        last_attempt: seconds_or_none(outcome.last_attempt()),
        retry_until: seconds_or_none(outcome.retry_until()),
    }
}

/// The seconds of a moment, or the number that means no moment.
fn seconds_or_none(moment: Option<Stamp>) -> u64
    ensures { result ≡ moment_or_none moment }
{
    match moment {
        Some(moment) => moment.seconds(),
        None => NO_MOMENT,
    }
}

/// The fields of an outcome, except its moments.
fn recipient_parts(outcome: &Outcome) -> RecipientParts<'_>
    ensures { recipient_fields_in result ≡ fields_for outcome.now }
{
    RecipientParts {
        recipient: outcome.recipient(),
        original: text_or_empty(outcome.original()),
        action: outcome.action().byte(),
        status: outcome.status().bytes(),
        mta: text_or_empty(outcome.mta()),
        diagnostic: text_or_empty(outcome.diagnostic()),
        reason: text_or_empty(outcome.reason()),
    }
}

/// All fields of a flush, in the third version if its further terms aren't the usual ones.
#[tactic(auto, unfolding(crate::specs::bodies::Request::flush_written_as))]
fn flush_body<'a>(number: u32, key: &'a Key, terms: &'a DraftTerms) -> BodyParts<'a>
    ensures same { wire_body_in result ≡ flush_written_as number key.now terms.now }
    ensures id_legal { IsQueueId key.now.id }
    ensures legal { IsLegalDraft terms.now }
{
    let (fields, wishes) = flush_parts(terms);
    if wishes.are_usual() {
        return BodyParts::Flush(head_parts(VERSION, number, key.service, &key.id), fields);
    }
    BodyParts::CountedFlush(
        head_parts(THIRD_VERSION, number, key.service, &key.id),
        fields,
        wishes,
    )
}

/// The expected number of outcomes, or the number that means any.
fn count_or_any(expected: Option<u32>) -> u32
    ensures { result ≡ count_or_any expected }
{
    match expected {
        Some(expected) => expected,
        None => ANY_COUNT,
    }
}

/// The fields of a flush that each version has, and its further terms.
fn flush_parts(terms: &DraftTerms) -> (FlushParts<'_>, WishParts<'_>)
    ensures same { flush_fields_in result.0 ≡ flush_fields_for terms.now }
    ensures wishes { wish_fields_in result.1 ≡ wish_fields_for terms.now }
    ensures legal { IsLegalDraft terms.now }
{
    let parts = FlushParts {
        moment: terms.moment().seconds(),
        arrival: terms.arrival().seconds(),
        return_path: address_text(terms.return_path()),
        envelope_id: envelope_id_text(terms.envelope_id()),
        header: terms.header().bytes(),
    };
    let wishes = WishParts {
        expected: count_or_any(terms.expected()),
        returned: terms.returned().byte(),
        wording: terms.wording().byte(),
        extensions: terms.extensions(),
    };
    (parts, wishes)
}

/// The address, or the empty text.
fn address_text(address: Option<&Address>) -> &[u8]
    ensures same { result.now ≡ text_or_empty (option_copied address.entry) }
    ensures legal { IsTrue (is_none_or is_address (option_copied address.entry)) }
{
    match address {
        Some(address) => address.bytes(),
        None => b"",
    }
}

/// The envelope id, or the empty text.
fn envelope_id_text(id: Option<&EnvelopeId>) -> &[u8]
    ensures same { result.now ≡ text_or_empty (option_copied id.entry) }
    ensures legal { IsTrue (is_none_or is_envelope_id (option_copied id.entry)) }
{
    match id {
        Some(id) => id.bytes(),
        None => b"",
    }
}

/// The text, or the empty text.
fn text_or_empty(text: Option<&[u8]>) -> &[u8]
    ensures { result.now ≡ text_or_empty (option_copied text.entry) }
{
    match text {
        Some(text) => text,
        None => b"",
    }
}
