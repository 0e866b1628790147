//! Fields, appended one after another to a text that has room for them.
//! Implements noticed-protocol(5).
ghost use Rattle.std.specs.Prelude.{◌≡◌, ◌+◌, ◌<◌, ◌≤◌, ◌^◌, ◌++◌, length, vec_capacity};
ghost use Rattle.std.specs.Int.{w32, w64};
ghost use Rattle.dsn_frame.specs.inner.BodyParts.{head_in, recipient_fields_in, retry_fields_in, type_fields_in, flush_fields_in, wish_fields_in, wire_body_in};
ghost use Rattle.dsn_frame.specs.bodies.FrameBody.{frame, longest_body};
ghost use Rattle.dsn_frame.specs.bodies.Wire;
ghost use Rattle.dsn_frame.specs.bodies.Wire.{FitsAppend, FitsTypes, FitsFlush, FitsHead, FitsOwn, FitsText, FitsWishes, number_bytes, text_bytes, head_bytes, append_bytes, retry_bytes, type_bytes, flush_bytes, wish_bytes, counted_flush_bytes, own_bytes, body_bytes};

use crate::bodies::body_parts::{
    BodyParts, FlushParts, HeadParts, RecipientParts, RetryParts, TypeParts, WishParts,
};

/// Bytes of the head of a body, apart from its queue id: the version, the kind, the number, the
/// service and the id's length.
const HEAD_LEN: usize = 9;

/// Bytes of an append after its head, apart from its texts: the action, and six texts' lengths.
const APPEND_LEN: usize = 13;

/// Bytes of the two moments of an append of the second or third version.
const RETRY_LEN: usize = 16;

/// Bytes of the types and the extension fields of an append of the third version, apart from their
/// texts: four texts' lengths.
const TYPES_LEN: usize = 8;

/// Bytes of a flush after its head, apart from its texts: two moments, and three texts' lengths.
const FLUSH_LEN: usize = 22;

/// Bytes of the further terms of a flush of the third version, apart from their text: a number, two
/// bytes, and a text's length.
const WISHES_LEN: usize = 8;

/// Appends bytes. Allocates no memory.
fn push_bytes(out: &mut Vec<u8>, bytes: &[u8])
    requires room { length out.old.items + length bytes.now ≤ vec_capacity out.old }
    ensures added { out.new.items ≡ out.old.items ++ bytes.now }
    ensures capacity { vec_capacity out.old ≤ vec_capacity out.new }
{
    match out.extend_from_slice(bytes) {
        Ok(()) => {}
        Err(_) => unreachable!(),
    }
}

/// Appends a text after its length.
#[tactic(auto, using(crate::proofs::bodies::EncodingLaws::text_length), unfolding(crate::specs::bodies::Wire::text_bytes, crate::specs::bodies::Wire::number_bytes))]
fn push_text(out: &mut Vec<u8>, text: &[u8])
    requires fits { FitsText text.now }
    requires room { length out.old.items + length (text_bytes text.now) ≤ vec_capacity out.old }
    ensures added { out.new.items ≡ out.old.items ++ text_bytes text.now }
    ensures capacity { vec_capacity out.old ≤ vec_capacity out.new }
{
    push_bytes(out, &(text.len() as u16).to_be_bytes());
    push_bytes(out, text);
}

/// Appends the head of a body after its version and its kind.
#[tactic(auto, using(crate::proofs::bodies::EncodingLaws::head_length, crate::proofs::bodies::EncodingLaws::text_length), unfolding(crate::specs::bodies::Wire::head_bytes, crate::specs::bodies::Wire::number_bytes))]
fn push_head(out: &mut Vec<u8>, head: HeadParts<'_>)
    requires fits { FitsHead (head_in head) }
    requires room { length out.old.items + length
        (head_bytes (head_in head)) ≤ vec_capacity out.old }
    ensures added { out.new.items ≡ out.old.items ++ head_bytes (head_in head.entry) }
    ensures capacity { vec_capacity out.old ≤ vec_capacity out.new }
{
    push_bytes(out, &head.number.to_be_bytes());
    push_bytes(out, &[head.service]);
    push_text(out, head.id);
}

/// Appends the recipient's fields of an append.
#[tactic(auto, using(crate::proofs::bodies::EncodingLaws::append_length, crate::proofs::bodies::EncodingLaws::text_length), unfolding(crate::specs::bodies::Wire::append_bytes))]
fn push_append(out: &mut Vec<u8>, parts: RecipientParts<'_>)
    requires fits { FitsAppend (recipient_fields_in parts) }
    requires room { length out.old.items + length
        (append_bytes (recipient_fields_in parts)) ≤ vec_capacity out.old }
    ensures added { out.new.items
        ≡ out.old.items ++ append_bytes (recipient_fields_in parts.entry) }
    ensures capacity { vec_capacity out.old ≤ vec_capacity out.new }
{
    push_text(out, parts.original);
    push_text(out, parts.recipient);
    push_bytes(out, &[parts.action]);
    push_text(out, parts.status);
    push_text(out, parts.mta);
    push_text(out, parts.diagnostic);
    push_text(out, parts.reason);
}

/// Appends a moment, highest byte first.
#[tactic(auto, unfolding(crate::specs::bodies::Wire::number_bytes))]
fn push_moment(out: &mut Vec<u8>, moment: u64)
    requires room { length out.old.items + 8 ≤ vec_capacity out.old }
    ensures added { out.new.items ≡ out.old.items ++ number_bytes w64 moment }
    ensures length { length out.new.items ≡ length out.old.items + 8 }
    ensures capacity { vec_capacity out.old ≤ vec_capacity out.new }
{
    push_bytes(out, &moment.to_be_bytes());
}

/// Appends the two moments of an append of the second or third version.
#[tactic(auto, using(crate::proofs::bodies::EncodingLaws::retry_length), unfolding(crate::specs::bodies::Wire::retry_bytes))]
fn push_retry(out: &mut Vec<u8>, parts: RetryParts)
    requires room { length out.old.items + RETRY_LEN ≤ vec_capacity out.old }
    ensures added { out.new.items ≡ out.old.items ++ retry_bytes (retry_fields_in parts) }
    ensures capacity { vec_capacity out.old ≤ vec_capacity out.new }
{
    push_moment(out, parts.last_attempt);
    push_moment(out, parts.retry_until);
}

/// Appends the fields of an append of the second version after its head.
#[tactic(auto, using(crate::proofs::bodies::EncodingLaws::dated_length, crate::proofs::bodies::Rules::lengths))]
fn push_dated_append(out: &mut Vec<u8>, fields: RecipientParts<'_>, dates: RetryParts)
    requires fits { FitsAppend (recipient_fields_in fields) }
    requires room { length out.old.items + length
        (append_bytes (recipient_fields_in fields) ++ retry_bytes (retry_fields_in dates)) ≤
        vec_capacity out.old }
    ensures added { out.new.items
        ≡ out.old.items
        ++ (append_bytes (recipient_fields_in fields.entry)
        ++ retry_bytes (retry_fields_in dates)) }
    ensures capacity { vec_capacity out.old ≤ vec_capacity out.new }
{
    push_append(out, fields);
    push_retry(out, dates);
}

/// Appends the types and the extension fields of an append of the third version.
#[tactic(auto, using(crate::proofs::bodies::EncodingLaws::types_length, crate::proofs::bodies::EncodingLaws::text_length), unfolding(crate::specs::bodies::Wire::type_bytes))]
fn push_types(out: &mut Vec<u8>, types: TypeParts<'_>)
    requires fits { FitsTypes (type_fields_in types) }
    requires room { length out.old.items + length
        (type_bytes (type_fields_in types)) ≤ vec_capacity out.old }
    ensures added { out.new.items ≡ out.old.items ++ type_bytes (type_fields_in types.entry) }
    ensures capacity { vec_capacity out.old ≤ vec_capacity out.new }
{
    push_text(out, types.types.recipient);
    push_text(out, types.types.original);
    push_text(out, types.types.diagnostic);
    push_text(out, types.extensions);
}

/// Appends the fields of an append of the third version after its head.
#[tactic(auto, using(crate::proofs::bodies::EncodingLaws::typed_length, crate::proofs::bodies::EncodingLaws::dated_length, crate::proofs::bodies::Rules::lengths))]
fn push_typed_append(
    out: &mut Vec<u8>,
    fields: RecipientParts<'_>,
    dates: RetryParts,
    types: TypeParts<'_>,
)
    requires fits { FitsAppend (recipient_fields_in fields) }
    requires types_fit { FitsTypes (type_fields_in types) }
    requires room { length out.old.items + length
        (append_bytes (recipient_fields_in fields)
        ++ (retry_bytes (retry_fields_in dates) ++ type_bytes (type_fields_in types))) ≤
        vec_capacity out.old }
    ensures added { out.new.items
        ≡ out.old.items
        ++ (append_bytes (recipient_fields_in fields.entry)
        ++ (retry_bytes (retry_fields_in dates) ++ type_bytes (type_fields_in types.entry))) }
    ensures capacity { vec_capacity out.old ≤ vec_capacity out.new }
{
    push_dated_append(out, fields, dates);
    push_types(out, types);
}

/// Appends the fields of a flush that each version has.
#[tactic(auto, using(crate::proofs::bodies::EncodingLaws::flush_length, crate::proofs::bodies::EncodingLaws::text_length), unfolding(crate::specs::bodies::Wire::flush_bytes))]
fn push_flush(out: &mut Vec<u8>, parts: FlushParts<'_>)
    requires fits { FitsFlush (flush_fields_in parts) }
    requires room { length out.old.items + length
        (flush_bytes (flush_fields_in parts)) ≤ vec_capacity out.old }
    ensures added { out.new.items ≡ out.old.items ++ flush_bytes (flush_fields_in parts.entry) }
    ensures capacity { vec_capacity out.old ≤ vec_capacity out.new }
{
    push_moment(out, parts.moment);
    push_moment(out, parts.arrival);
    push_text(out, parts.return_path);
    push_text(out, parts.envelope_id);
    push_text(out, parts.header);
}

/// Appends the further terms of a flush of the third version.
#[tactic(auto, using(crate::proofs::bodies::EncodingLaws::wishes_length, crate::proofs::bodies::EncodingLaws::text_length), unfolding(crate::specs::bodies::Wire::wish_bytes, crate::specs::bodies::Wire::number_bytes))]
fn push_wishes(out: &mut Vec<u8>, wishes: WishParts<'_>)
    requires fits { FitsWishes (wish_fields_in wishes) }
    requires room { length out.old.items + length
        (wish_bytes (wish_fields_in wishes)) ≤ vec_capacity out.old }
    ensures added { out.new.items ≡ out.old.items ++ wish_bytes (wish_fields_in wishes.entry) }
    ensures capacity { vec_capacity out.old ≤ vec_capacity out.new }
{
    push_bytes(out, &wishes.expected.to_be_bytes());
    push_bytes(out, &[wishes.returned, wishes.wording]);
    push_text(out, wishes.extensions);
}

/// Appends the fields of a flush of the third version after its head.
#[tactic(auto, using(crate::proofs::bodies::EncodingLaws::counted_length, crate::proofs::bodies::Rules::lengths), unfolding(crate::specs::bodies::Wire::counted_flush_bytes))]
fn push_counted_flush(out: &mut Vec<u8>, fields: FlushParts<'_>, wishes: WishParts<'_>)
    requires fits { FitsFlush (flush_fields_in fields) }
    requires wishes_fit { FitsWishes (wish_fields_in wishes) }
    requires room { length out.old.items + length
        (counted_flush_bytes (flush_fields_in fields) (wish_fields_in wishes)) ≤
        vec_capacity out.old }
    ensures added { out.new.items
        ≡ out.old.items
        ++ counted_flush_bytes (flush_fields_in fields.entry) (wish_fields_in wishes.entry) }
    ensures capacity { vec_capacity out.old ≤ vec_capacity out.new }
{
    push_flush(out, fields);
    push_wishes(out, wishes);
}

/// Appends the fields of a body after its head.
#[tactic(auto, unfolding(crate::specs::bodies::Wire::own_bytes, crate::specs::bodies::Wire::FitsOwn))]
fn push_own(out: &mut Vec<u8>, parts: BodyParts<'_>)
    requires fits { FitsOwn (wire_body_in parts) }
    requires room { length out.old.items + length
        (own_bytes (wire_body_in parts)) ≤ vec_capacity out.old }
    ensures added { out.new.items ≡ out.old.items ++ own_bytes (wire_body_in parts.entry) }
    ensures capacity { vec_capacity out.old ≤ vec_capacity out.new }
{
    match parts {
        BodyParts::Append(_, fields) => push_append(out, fields),
        BodyParts::DatedAppend(_, fields, dates) => push_dated_append(out, fields, dates),
        BodyParts::TypedAppend(_, fields, dates, types) => {
            push_typed_append(out, fields, dates, types)
        }
        BodyParts::Flush(_, fields) => push_flush(out, fields),
        BodyParts::CountedFlush(_, fields, wishes) => push_counted_flush(out, fields, wishes),
        BodyParts::Discard(_) | BodyParts::Forget(_) => {}
    }
}

/// Appends the frame of a body.
pub(crate) fn push_frame(out: &mut Vec<u8>, parts: BodyParts<'_>)
    requires fits { Wire.Fits (wire_body_in parts) }
    requires small { length (body_bytes (wire_body_in parts)) ≤ longest_body }
    requires room { length out.old.items +
        (4 + length (body_bytes (wire_body_in parts))) ≤ vec_capacity out.old }
    ensures { out.new.items ≡ out.old.items ++ frame (body_bytes (wire_body_in parts.entry)) }
{
    let size = body_len(parts) as u32;
    push_bytes(out, &size.to_be_bytes());
    push_body(out, parts);
}

/// Appends a body.
#[tactic(auto, using(crate::proofs::bodies::EncodingLaws::body_length, crate::proofs::bodies::EncodingLaws::head_length), unfolding(crate::specs::bodies::Wire::body_bytes))]
fn push_body(out: &mut Vec<u8>, parts: BodyParts<'_>)
    requires fits { Wire.Fits (wire_body_in parts) }
    requires room { length out.old.items + length
        (body_bytes (wire_body_in parts)) ≤ vec_capacity out.old }
    ensures added { out.new.items ≡ out.old.items ++ body_bytes (wire_body_in parts.entry) }
    ensures capacity { vec_capacity out.old ≤ vec_capacity out.new }
{
    push_bytes(out, &[parts.head().version, parts.kind()]);
    push_head(out, parts.head());
    push_own(out, parts);
}

/// The length of a body, in bytes.
#[tactic(auto, using(crate::proofs::bodies::EncodingLaws::body_length))]
pub(crate) fn body_len(parts: BodyParts<'_>) -> usize
    requires fits { Wire.Fits (wire_body_in parts) }
    ensures { result ≡ length (body_bytes (wire_body_in parts.entry)) }
{
    HEAD_LEN + parts.head().id.len() + own_len(parts)
}

/// The length of an append's recipient's fields, in bytes.
#[tactic(auto, using(crate::proofs::bodies::EncodingLaws::append_length))]
fn append_len(fields: RecipientParts<'_>) -> usize
    requires fits { FitsAppend (recipient_fields_in fields) }
    ensures same { result ≡ length (append_bytes (recipient_fields_in fields.entry)) }
    ensures small { result < 2 ^ 19 }
{
    APPEND_LEN
        + fields.original.len()
        + fields.recipient.len()
        + fields.status.len()
        + fields.mta.len()
        + fields.diagnostic.len()
        + fields.reason.len()
}

/// The length of the types and the extension fields of an append, in bytes.
#[tactic(auto, using(crate::proofs::bodies::EncodingLaws::types_length))]
fn types_len(types: TypeParts<'_>) -> usize
    requires fits { FitsTypes (type_fields_in types) }
    ensures same { result ≡ length (type_bytes (type_fields_in types.entry)) }
    ensures small { result < 2 ^ 18 + 2 ^ 16 }
{
    TYPES_LEN
        + types.types.recipient.len()
        + types.types.original.len()
        + types.types.diagnostic.len()
        + types.extensions.len()
}

/// The length of the fields of a flush that each version has, in bytes.
#[tactic(auto, using(crate::proofs::bodies::EncodingLaws::flush_length))]
fn flush_len(fields: FlushParts<'_>) -> usize
    requires fits { FitsFlush (flush_fields_in fields) }
    ensures same { result ≡ length (flush_bytes (flush_fields_in fields.entry)) }
    ensures small { result < 2 ^ 19 }
{
    FLUSH_LEN + fields.return_path.len() + fields.envelope_id.len() + fields.header.len()
}

/// The length of the further terms of a flush, in bytes.
#[tactic(auto, using(crate::proofs::bodies::EncodingLaws::wishes_length))]
fn wishes_len(wishes: WishParts<'_>) -> usize
    requires fits { FitsWishes (wish_fields_in wishes) }
    ensures same { result ≡ length (wish_bytes (wish_fields_in wishes.entry)) }
    ensures small { result < 2 ^ 17 }
{
    WISHES_LEN + wishes.extensions.len()
}

/// The length of the fields of a body after its head, in bytes.
#[tactic(auto, using(crate::proofs::bodies::EncodingLaws::counted_length, crate::proofs::bodies::EncodingLaws::dated_length, crate::proofs::bodies::EncodingLaws::typed_length), unfolding(crate::specs::bodies::Wire::own_bytes, crate::specs::bodies::Wire::FitsOwn))]
fn own_len(parts: BodyParts<'_>) -> usize
    requires fits { FitsOwn (wire_body_in parts) }
    ensures same { result ≡ length (own_bytes (wire_body_in parts.entry)) }
    ensures small { result < 2 ^ 20 }
{
    match parts {
        BodyParts::Append(_, fields) => append_len(fields),
        BodyParts::DatedAppend(_, fields, _) => append_len(fields) + RETRY_LEN,
        BodyParts::TypedAppend(_, fields, _, types) => {
            append_len(fields) + RETRY_LEN + types_len(types)
        }
        BodyParts::Flush(_, fields) => flush_len(fields),
        BodyParts::CountedFlush(_, fields, wishes) => flush_len(fields) + wishes_len(wishes),
        BodyParts::Discard(_) | BodyParts::Forget(_) => 0,
    }
}
