//! The notices that a request has of a log and a queue file.
use dsn_postfix::{
    NoticeRequest, PlannedNotice, PostfixRequest, ReturnedPart, decode_postfix_request,
    plan_notices,
};
use dsn_postfix_files::{
    MessageFacts, QueueReader, QueuedRecipient, header_of_message, text_of_message,
};
use dsn_postfix_notices::{LetterFault, ReportedMessage, letter_of_notice};
use dsn_report::{Site, notice};
use dsn_text::{QueueId, Service, Stamp};

/// The sender of notices about notices.
const DOUBLE_BOUNCE: &[u8] = b"double-bounce@mx.example.net";

/// For how many seconds Postfix tries a delivery by default.
const LIFETIME: u32 = 432_000;

/// How many bytes a message that Postfix returns whole has at most by default.
const SIZE_LIMIT: u32 = 50_000;

/// The first part of some bytes, behind its length in four bytes, and the bytes after it. Returns
/// `None` if there are fewer.
pub(crate) fn first_part(bytes: &[u8]) -> Option<(&[u8], &[u8])> {
    let [a, b, c, d, rest @ ..] = bytes else {
        return None;
    };
    let length = u32::from_be_bytes([*a, *b, *c, *d]) as usize;
    if rest.len() < length {
        return None;
    }
    Some(rest.split_at(length))
}

/// The recipients of a queue file.
fn recipients<'a>(rt: &HostRuntime, file: &'a [u8]) -> Option<Vec<QueuedRecipient<'a>>> {
    let mut reader = QueueReader::new(file);
    let mut found = Vec::new(rt.alloc());
    for _ in 0..file.len() {
        let Some(recipient) = reader.next_recipient().ok()? else {
            break;
        };
        found.push(recipient).ok()?;
    }
    Some(found)
}

/// Writes a name, the length of some bytes, and these.
fn push_part(text: &mut Vec<u8>, rt: &HostRuntime, name: &str, bytes: &[u8]) -> Option<()> {
    let length = bytes.len();
    text.extend_from_slice(format!(in rt.alloc(); "{name} {length}").ok()?.as_bytes())
        .ok()?;
    text.push(b'\n').ok()?;
    text.extend_from_slice(bytes).ok()?;
    text.push(b'\n').ok()
}

/// Writes a notice: its address, its kind, the records that it reports, and what it returns of the
/// message.
fn push_notice(
    text: &mut Vec<u8>,
    rt: &HostRuntime,
    notice: &PlannedNotice<'_>,
    message: &[u8],
) -> Option<()> {
    push_part(text, rt, "to", &notice.address(rt.alloc()).ok()?)?;
    let kind = match notice.service {
        Service::Bounce => b"failure".as_slice(),
        Service::Defer => b"delay",
        Service::Trace => b"success",
    };
    push_part(text, rt, "kind", kind)?;
    let mut records = Vec::new(rt.alloc());
    for outcome in &notice.outcomes {
        records
            .extend_from_slice(&outcome.log_bytes(rt.alloc()).ok()?)
            .ok()?;
    }
    push_part(text, rt, "records", &records)?;
    match notice.returned {
        ReturnedPart::Whole => push_part(text, rt, "whole", message),
        ReturnedPart::Header => push_part(text, rt, "header", header_of_message(message)),
    }
}

/// Writes the text of a planned notice about a message, or why it has none.
fn push_text(
    text: &mut Vec<u8>,
    rt: &HostRuntime,
    planned: &PlannedNotice<'_>,
    asked: &NoticeRequest<'_>,
    facts: &MessageFacts<'_>,
    message: &[u8],
) -> Option<()> {
    let site = Site::new(rt.alloc(), b"mx.example.net").ok()?;
    let about = ReportedMessage {
        queue_id: asked.queue_id,
        arrival: facts.arrival,
        sender: asked.sender.bytes(),
        envelope_id: asked.envelope_id.bytes(),
        text: message,
        lifetime: LIFETIME,
        size_limit: SIZE_LIMIT,
    };
    match letter_of_notice(rt.alloc(), &about, planned, Stamp::new(1_700_000_000)?, 0) {
        Ok(letter) => push_part(text, rt, "text", &notice(rt.alloc(), &site, &letter).ok()?),
        Err(fault) => push_fault(text, rt, fault),
    }
}

/// Writes why a planned notice has no text.
fn push_fault(text: &mut Vec<u8>, rt: &HostRuntime, fault: LetterFault) -> Option<()> {
    push_part(
        text,
        rt,
        "no-text",
        format!(in rt.alloc(); "{fault}").ok()?.as_bytes(),
    )
}

/// What a request for a notice says.
fn notice_asked<'b, 'a>(request: &'b PostfixRequest<'a>) -> Option<&'b NoticeRequest<'a>> {
    match request {
        PostfixRequest::Append(_) => None,
        PostfixRequest::Flush(notice)
        | PostfixRequest::Warn(notice)
        | PostfixRequest::Verp(notice, _)
        | PostfixRequest::One(notice, _, _)
        | PostfixRequest::Trace(notice) => Some(notice),
    }
}

/// What a request asks of a service's log and a queue file, each with a length before it; without a request nothing is
/// read. First when the message came and its id, and then each notice; or `unsaid` where none can be said.
pub(crate) fn planned(rt: &HostRuntime, service: Service, given: &[u8]) -> Option<Vec<u8>> {
    let (request, rest) = first_part(given)?;
    let (log, rest) = first_part(rest)?;
    let (file, _) = first_part(rest)?;
    let request = decode_postfix_request(request).ok()?;
    let asked = notice_asked(&request)?;
    let facts = MessageFacts::read(file).ok()?;
    let queued = recipients(rt, file)?;
    let message = text_of_message(rt.alloc(), file, usize::MAX).ok()?;
    let mut text = Vec::new(rt.alloc());
    let arrival = format!(in rt.alloc(); "{}", facts.arrival.unwrap_or(0)).ok()?;
    push_part(&mut text, rt, "arrival", arrival.as_bytes())?;
    push_part(&mut text, rt, "id", facts.envelope_id.unwrap_or(b""))?;
    match plan_notices(
        rt.alloc(),
        DOUBLE_BOUNCE,
        service,
        &request,
        &queued,
        Some(log),
    ) {
        Ok(notices) => {
            for notice in &notices {
                push_notice(&mut text, rt, notice, &message)?;
                push_text(&mut text, rt, notice, asked, &facts, &message)?;
            }
        }
        Err(_) => push_part(&mut text, rt, "unsaid", b"")?,
    }
    Some(text)
}
