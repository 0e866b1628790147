//! The bytes of a request.
//! Implements docs/postfix-internals.md, "What Postfix's programs send".
ghost use Rattle.std.specs.Prelude.{◌≡◌, ◌++◌, IfOk, OnOk};
ghost use Rattle.std.specs.List.{flat_map};
ghost use Rattle.dsn_postfix.specs.Attribute.{attribute_bytes};
ghost use Rattle.dsn_postfix.specs.PostfixRequest.{FitsAppendRequest, FitsNotice, FitsRecipient, FitsReport, IsPostfixRequest, IsRequestIn, append_attributes, command_number, notice_attributes, own_attributes, recipient_attributes, report_attributes};

use crate::attribute_writer::{push_end, push_number, push_text};
use crate::postfix_request::{
    AppendRequest, DeliveryReport, NoticeRequest, PostfixRequest, ReportedRecipient,
};
use crate::request_reading::send_options_name;
use dsn_text::NoMemory;
use std::alloc::Global;

/// The bytes of a request, as Postfix's programs send it. For a decoded request, they are the bytes
/// that it was decoded from. Returns an error only if memory was refused.
pub fn encode_postfix_request(
    alloc: Global,
    request: &PostfixRequest<'_>,
) -> Result<Vec<u8>, NoMemory>
    ensures { IfOk result (λ bytes. IsRequestIn bytes.items request.now) }
{
    let mut out = Vec::new(alloc);
    push_number(&mut out, b"nrequest", command_of(request))?;
    push_own(&mut out, request)?;
    push_end(&mut out)?;
    Ok(out)
}

/// The number of a kind of request.
fn command_of(request: &PostfixRequest<'_>) -> u64
    ensures { result ≡ command_number request.now }
{
    match request {
        PostfixRequest::Append(_) => 0,
        PostfixRequest::Flush(_) => 1,
        PostfixRequest::Warn(_) => 2,
        PostfixRequest::Verp(..) => 3,
        PostfixRequest::One(..) => 4,
        PostfixRequest::Trace(_) => 5,
    }
}

/// Adds the attributes after that number.
#[tactic(auto, unfolding(crate::specs::PostfixRequest::IsPostfixRequest))]
fn push_own(out: &mut Vec<u8>, request: &PostfixRequest<'_>) -> Result<(), NoMemory>
    ensures added { OnOk result (out.new.items
        ≡ out.old.items ++ flat_map attribute_bytes (own_attributes request.now)) }
    ensures legal { OnOk result (IsPostfixRequest request.now) }
{
    match request {
        PostfixRequest::Append(append) => push_append(out, append),
        PostfixRequest::Flush(notice)
        | PostfixRequest::Warn(notice)
        | PostfixRequest::Trace(notice) => push_notice(out, notice),
        PostfixRequest::Verp(notice, delimiters) => {
            push_notice(out, notice)?;
            push_text(out, b"verp_delimiters", delimiters.bytes())
        }
        PostfixRequest::One(notice, recipient, report) => {
            push_notice(out, notice)?;
            push_recipient(out, recipient)?;
            push_report(out, report)
        }
    }
}

/// Adds the attributes of an append.
fn push_append(out: &mut Vec<u8>, request: &AppendRequest<'_>) -> Result<(), NoMemory>
    ensures added { OnOk result (out.new.items
        ≡ out.old.items ++ flat_map attribute_bytes (append_attributes request.now)) }
    ensures legal { OnOk result (FitsAppendRequest request.now) }
{
    push_number(out, b"flags", request.flags as u64)?;
    push_text(out, b"queue_id", request.queue_id.bytes())?;
    push_recipient(out, &request.recipient)?;
    push_report(out, &request.report)
}

/// Adds the attributes of a request for notices.
fn push_notice(out: &mut Vec<u8>, request: &NoticeRequest<'_>) -> Result<(), NoMemory>
    ensures added { OnOk result (out.new.items
        ≡ out.old.items ++ flat_map attribute_bytes (notice_attributes request.now)) }
    ensures legal { OnOk result (FitsNotice request.now) }
{
    push_number(out, b"flags", request.flags as u64)?;
    push_text(out, b"queue_name", request.queue_name.bytes())?;
    push_text(out, b"queue_id", request.queue_id.bytes())?;
    push_text(out, b"encoding", request.encoding.bytes())?;
    push_number(
        out,
        send_options_name(request.names_sendopts),
        request.send_options as u64,
    )?;
    push_text(out, b"sender", request.sender.bytes())?;
    push_text(out, b"envelope_id", request.envelope_id.bytes())?;
    push_number(out, b"ret_flags", request.returns as u64)
}

/// Adds a recipient.
fn push_recipient(out: &mut Vec<u8>, recipient: &ReportedRecipient<'_>) -> Result<(), NoMemory>
    ensures added { OnOk result (out.new.items
        ≡ out.old.items ++ flat_map attribute_bytes (recipient_attributes recipient.now)) }
    ensures legal { OnOk result (FitsRecipient recipient.now) }
{
    push_text(out, b"original_recipient", recipient.original.bytes())?;
    push_text(out, b"recipient", recipient.address.bytes())?;
    push_number(out, b"offset", recipient.offset)?;
    push_text(out, b"dsn_orig_rcpt", recipient.dsn_original.bytes())?;
    push_number(out, b"notify_flags", recipient.notify as u64)
}

/// Adds the outcome of a recipient.
fn push_report(out: &mut Vec<u8>, report: &DeliveryReport<'_>) -> Result<(), NoMemory>
    ensures added { OnOk result (out.new.items
        ≡ out.old.items ++ flat_map attribute_bytes (report_attributes report.now)) }
    ensures legal { OnOk result (FitsReport report.now) }
{
    push_text(out, b"status", report.status.bytes())?;
    push_text(out, b"diag_type", report.diagnostic_type.bytes())?;
    push_text(out, b"diag_text", report.diagnostic.bytes())?;
    push_text(out, b"mta_type", report.mta_type.bytes())?;
    push_text(out, b"mta_mname", report.mta.bytes())?;
    push_text(out, b"action", report.action.bytes())?;
    push_text(out, b"reason", report.reason.bytes())
}
