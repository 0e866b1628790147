//! Fields, read from the front of some bytes. Each reader returns the field and the bytes after it,
//! or `None` if the bytes end within the field.
//! Implements noticed-protocol(5).
ghost use Rattle.std.specs.Prelude.{◌≡◌};
ghost use Rattle.std.specs.Int.{w16, w32, w64};
ghost use Rattle.std.specs.Option.{option_map};
ghost use Rattle.dsn_frame.specs.inner.BodyParts.{head_in, recipient_fields_in, retry_fields_in, type_fields_in, flush_fields_in, wish_fields_in, wire_body_in};
ghost use Rattle.dsn_frame.specs.bodies.Wire.{byte_at, number_at, text_at, head_at, append_at, retry_at, types_at, append_body_at, flush_at, flush_body_at, wishes_at, own_at, body_at};

use crate::bodies::body_parts::{
    BodyParts, FlushParts, HeadParts, RecipientParts, RetryParts, TypeParts, WishParts,
};
use crate::bodies::{THIRD_VERSION, VERSION};
use crate::frame::number_in;
use dsn_outcome::Types;

fn byte_of(bytes: &[u8]) -> Option<(u8, &[u8])>
    ensures { option_map (λ read. (read.0, read.1.now)) result ≡ byte_at bytes.now }
{
    match bytes {
        [] => None,
        [byte, rest @ ..] => Some((*byte, rest)),
    }
}

#[tactic(auto, unfolding(crate::specs::bodies::Wire::number_at))]
fn u16_of(bytes: &[u8]) -> Option<(u16, &[u8])>
    ensures { option_map (λ read. (read.0, read.1.now)) result ≡ number_at w16 bytes.now }
{
    if bytes.len() < 2 {
        return None;
    }
    let (front, rest) = bytes.split_at(2);
    Some((u16::from_be_bytes([front[0], front[1]]), rest))
}

#[tactic(auto, unfolding(crate::specs::bodies::Wire::number_at))]
fn u32_of(bytes: &[u8]) -> Option<(u32, &[u8])>
    ensures { option_map (λ read. (read.0, read.1.now)) result ≡ number_at w32 bytes.now }
{
    if bytes.len() < 4 {
        return None;
    }
    let (front, rest) = bytes.split_at(4);
    Some((number_in([front[0], front[1], front[2], front[3]]), rest))
}

#[tactic(auto, unfolding(crate::specs::bodies::Wire::number_at))]
fn u64_of(bytes: &[u8]) -> Option<(u64, &[u8])>
    ensures { option_map (λ read. (read.0, read.1.now)) result ≡ number_at w64 bytes.now }
{
    if bytes.len() < 8 {
        return None;
    }
    let (front, rest) = bytes.split_at(8);
    let number = u64::from_be_bytes([
        front[0], front[1], front[2], front[3], front[4], front[5], front[6], front[7],
    ]);
    Some((number, rest))
}

#[tactic(auto, unfolding(crate::specs::bodies::Wire::text_at))]
fn text_of(bytes: &[u8]) -> Option<(&[u8], &[u8])>
    ensures { option_map (λ read. (read.0.now, read.1.now)) result ≡ text_at bytes.now }
{
    let (size, rest) = u16_of(bytes)?;
    let size = size as usize;
    if rest.len() < size {
        return None;
    }
    Some(rest.split_at(size))
}

#[tactic(auto, unfolding(crate::specs::bodies::Wire::head_at))]
fn head_of(version: u8, bytes: &[u8]) -> Option<(HeadParts<'_>, &[u8])>
    ensures { option_map (λ read. (head_in read.0, read.1.now)) result ≡ head_at version bytes.now }
{
    let (number, rest) = u32_of(bytes)?;
    let (service, rest) = byte_of(rest)?;
    let (id, rest) = text_of(rest)?;
    let head = HeadParts {
        version,
        number,
        service,
        id,
    };
    Some((head, rest))
}

#[tactic(auto, unfolding(crate::specs::bodies::Wire::append_at))]
fn append_of(bytes: &[u8]) -> Option<(RecipientParts<'_>, &[u8])>
    ensures { option_map (λ read. (recipient_fields_in read.0, read.1.now)) result
        ≡ append_at bytes.now }
{
    let (original, rest) = text_of(bytes)?;
    let (recipient, rest) = text_of(rest)?;
    let (action, rest) = byte_of(rest)?;
    let (status, rest) = text_of(rest)?;
    let (mta, rest) = text_of(rest)?;
    let (diagnostic, rest) = text_of(rest)?;
    let (reason, rest) = text_of(rest)?;
    let parts = RecipientParts {
        recipient,
        original,
        action,
        status,
        mta,
        diagnostic,
        reason,
    };
    Some((parts, rest))
}

#[tactic(auto, unfolding(crate::specs::bodies::Wire::retry_at))]
fn retry_of(bytes: &[u8]) -> Option<(RetryParts, &[u8])>
    ensures { option_map (λ read. (retry_fields_in read.0, read.1.now)) result
        ≡ retry_at bytes.now }
{
    let (last_attempt, rest) = u64_of(bytes)?;
    let (retry_until, rest) = u64_of(rest)?;
    let parts = RetryParts {
        last_attempt,
        retry_until,
    };
    Some((parts, rest))
}

#[tactic(auto, unfolding(crate::specs::bodies::Wire::types_at))]
fn types_of(bytes: &[u8]) -> Option<(TypeParts<'_>, &[u8])>
    ensures { option_map (λ read. (type_fields_in read.0, read.1.now)) result
        ≡ types_at bytes.now }
{
    let (recipient, rest) = text_of(bytes)?;
    let (original, rest) = text_of(rest)?;
    let (diagnostic, rest) = text_of(rest)?;
    let (extensions, rest) = text_of(rest)?;
    let types = Types {
        recipient,
        original,
        diagnostic,
    };
    Some((TypeParts { types, extensions }, rest))
}

#[tactic(auto, unfolding(crate::specs::bodies::Wire::append_body_at))]
fn append_body_of<'a>(head: HeadParts<'a>, bytes: &'a [u8]) -> Option<(BodyParts<'a>, &'a [u8])>
    ensures { option_map (λ read. (wire_body_in read.0, read.1.now)) result
        ≡ append_body_at (head_in head.entry) bytes.now }
{
    let (parts, rest) = append_of(bytes)?;
    if head.version == VERSION {
        return Some((BodyParts::Append(head, parts), rest));
    }
    let (dates, rest) = retry_of(rest)?;
    if head.version == THIRD_VERSION {
        let (types, rest) = types_of(rest)?;
        return Some((BodyParts::TypedAppend(head, parts, dates, types), rest));
    }
    Some((BodyParts::DatedAppend(head, parts, dates), rest))
}

#[tactic(auto, unfolding(crate::specs::bodies::Wire::flush_at))]
fn flush_of(bytes: &[u8]) -> Option<(FlushParts<'_>, &[u8])>
    ensures { option_map (λ read. (flush_fields_in read.0, read.1.now)) result
        ≡ flush_at bytes.now }
{
    let (moment, rest) = u64_of(bytes)?;
    let (arrival, rest) = u64_of(rest)?;
    let (return_path, rest) = text_of(rest)?;
    let (envelope_id, rest) = text_of(rest)?;
    let (header, rest) = text_of(rest)?;
    let parts = FlushParts {
        moment,
        arrival,
        return_path,
        envelope_id,
        header,
    };
    Some((parts, rest))
}

#[tactic(auto, unfolding(crate::specs::bodies::Wire::wishes_at))]
fn wishes_of(bytes: &[u8]) -> Option<(WishParts<'_>, &[u8])>
    ensures { option_map (λ read. (wish_fields_in read.0, read.1.now)) result
        ≡ wishes_at bytes.now }
{
    let (expected, rest) = u32_of(bytes)?;
    let (returned, rest) = byte_of(rest)?;
    let (wording, rest) = byte_of(rest)?;
    let (extensions, rest) = text_of(rest)?;
    let parts = WishParts {
        expected,
        returned,
        wording,
        extensions,
    };
    Some((parts, rest))
}

#[tactic(auto, unfolding(crate::specs::bodies::Wire::flush_body_at))]
fn flush_body_of<'a>(head: HeadParts<'a>, bytes: &'a [u8]) -> Option<(BodyParts<'a>, &'a [u8])>
    ensures { option_map (λ read. (wire_body_in read.0, read.1.now)) result
        ≡ flush_body_at (head_in head.entry) bytes.now }
{
    let (parts, rest) = flush_of(bytes)?;
    if head.version != THIRD_VERSION {
        return Some((BodyParts::Flush(head, parts), rest));
    }
    let (wishes, rest) = wishes_of(rest)?;
    Some((BodyParts::CountedFlush(head, parts, wishes), rest))
}

#[tactic(auto, unfolding(crate::specs::bodies::Wire::own_at))]
fn own_of<'a>(kind: u8, head: HeadParts<'a>, bytes: &'a [u8]) -> Option<(BodyParts<'a>, &'a [u8])>
    ensures { option_map (λ read. (wire_body_in read.0, read.1.now)) result
        ≡ own_at kind (head_in head.entry) bytes.now }
{
    match kind {
        1 => append_body_of(head, bytes),
        2 => flush_body_of(head, bytes),
        3 => Some((BodyParts::Discard(head), bytes)),
        4 => Some((BodyParts::Forget(head), bytes)),
        _ => None,
    }
}

/// The fields of a body of any kind, and the bytes after them.
#[tactic(auto, unfolding(crate::specs::bodies::Wire::body_at))]
pub(crate) fn body_of(bytes: &[u8]) -> Option<(BodyParts<'_>, &[u8])>
    ensures { option_map (λ read. (wire_body_in read.0, read.1.now)) result ≡ body_at bytes.now }
{
    let (version, rest) = byte_of(bytes)?;
    let (kind, rest) = byte_of(rest)?;
    let (head, rest) = head_of(version, rest)?;
    own_of(kind, head, rest)
}
