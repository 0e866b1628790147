//! The attributes of requests, read one after another in the order of their layouts.
//! Implements docs/postfix-internals.md, "What Postfix's programs send".
//! A request has exactly the attributes of its layout, in its order. bounce(8) skips what it
//! doesn't want, and accepts signs and spaces in numbers; Postfix's programs send none of these. So
//! what is read can be written again, byte for byte.
ghost use Rattle.std.specs.Prelude.{◌≡◌, IfOk, IfErr};
ghost use Rattle.dsn_postfix.specs.PostfixRequest.{send_options_name};
ghost use Rattle.dsn_postfix.specs.RequestReading.{append_request_at, notice_request_at, own_request_at, recipient_at, report_at, verp_at, one_at};

use crate::attribute_reader::AttributeReader;
use crate::postfix_request::{
    AppendRequest, DeliveryReport, NoticeRequest, PostfixRequest, ReportedRecipient,
};
use crate::request_fault::RequestFault;

/// The name of the attribute that has the send options: the newer or the older one.
pub(crate) fn send_options_name(newer: bool) -> &'static [u8]
    ensures { result.now ≡ send_options_name newer }
{
    // Any version may use either name. If a setting for the version was wrong, all requests would
    // be passed on, and an upgrade of Postfix would make it wrong.
    if newer { b"sendopts" } else { b"smtputf8" }
}

/// Reads a recipient.
#[tactic(auto, unfolding(crate::specs::RequestReading::recipient_at))]
fn recipient_of<'a>(reader: &mut AttributeReader<'a>) -> Result<ReportedRecipient<'a>, RequestFault>
    ensures read { IfOk result
        (λ recipient. recipient_at reader.old ≡ Ok (recipient, reader.new)) }
    ensures refused { IfErr result (λ fault. recipient_at reader.old ≡ Err fault) }
{
    let original = reader.text(b"original_recipient")?;
    let address = reader.text(b"recipient")?;
    let offset = reader.offset(b"offset")?;
    let dsn_original = reader.text(b"dsn_orig_rcpt")?;
    let notify = reader.number(b"notify_flags")?;
    Ok(ReportedRecipient {
        original,
        address,
        offset,
        dsn_original,
        notify,
    })
}

/// Reads the outcome of a recipient.
#[tactic(auto, unfolding(crate::specs::RequestReading::report_at))]
fn report_of<'a>(reader: &mut AttributeReader<'a>) -> Result<DeliveryReport<'a>, RequestFault>
    ensures read { IfOk result (λ report. report_at reader.old ≡ Ok (report, reader.new)) }
    ensures refused { IfErr result (λ fault. report_at reader.old ≡ Err fault) }
{
    let status = reader.text(b"status")?;
    let diagnostic_type = reader.text(b"diag_type")?;
    let diagnostic = reader.text(b"diag_text")?;
    let mta_type = reader.text(b"mta_type")?;
    let mta = reader.text(b"mta_mname")?;
    let action = reader.text(b"action")?;
    let reason = reader.text(b"reason")?;
    Ok(DeliveryReport {
        status,
        diagnostic_type,
        diagnostic,
        mta_type,
        mta,
        action,
        reason,
    })
}

/// Reads the attributes of an append.
#[tactic(auto, unfolding(crate::specs::RequestReading::append_request_at))]
fn append_of<'a>(reader: &mut AttributeReader<'a>) -> Result<AppendRequest<'a>, RequestFault>
    ensures read { IfOk result (λ request. append_request_at reader.old ≡ Ok (request, reader.new)) }
    ensures refused { IfErr result (λ fault. append_request_at reader.old ≡ Err fault) }
{
    let flags = reader.number(b"flags")?;
    let queue_id = reader.queue_id()?;
    let recipient = recipient_of(reader)?;
    let report = report_of(reader)?;
    Ok(AppendRequest {
        flags,
        queue_id,
        recipient,
        report,
    })
}

/// Reads the attributes of a request for notices.
#[tactic(auto, unfolding(crate::specs::RequestReading::notice_request_at))]
fn notice_of<'a>(reader: &mut AttributeReader<'a>) -> Result<NoticeRequest<'a>, RequestFault>
    ensures read { IfOk result
        (λ request. notice_request_at reader.old ≡ Ok (request, reader.new)) }
    ensures refused { IfErr result (λ fault. notice_request_at reader.old ≡ Err fault) }
{
    let flags = reader.number(b"flags")?;
    let queue_name = reader.queue_name()?;
    let queue_id = reader.queue_id()?;
    let encoding = reader.text(b"encoding")?;
    let names_sendopts = reader.is_sendopts_next();
    let send_options = reader.number(send_options_name(names_sendopts))?;
    let sender = reader.text(b"sender")?;
    let envelope_id = reader.text(b"envelope_id")?;
    let returns = reader.number(b"ret_flags")?;
    Ok(NoticeRequest {
        flags,
        queue_name,
        queue_id,
        encoding,
        names_sendopts,
        send_options,
        sender,
        envelope_id,
        returns,
    })
}

/// Reads the request after its number.
#[tactic(auto, unfolding(crate::specs::RequestReading::own_request_at, crate::specs::RequestReading::append_only_at, crate::specs::RequestReading::notice_at, crate::specs::RequestReading::verp_at, crate::specs::RequestReading::one_at))]
pub(crate) fn request_of<'a>(
    command: u32,
    reader: &mut AttributeReader<'a>,
) -> Result<PostfixRequest<'a>, RequestFault>
    ensures read { IfOk result
        (λ request. own_request_at command reader.old ≡ Ok (request, reader.new)) }
    ensures refused { IfErr result (λ fault. own_request_at command reader.old ≡ Err fault) }
{
    match command {
        0 => Ok(PostfixRequest::Append(append_of(reader)?)),
        1 => Ok(PostfixRequest::Flush(notice_of(reader)?)),
        2 => Ok(PostfixRequest::Warn(notice_of(reader)?)),
        3 => verp_of(reader),
        4 => one_of(reader),
        5 => Ok(PostfixRequest::Trace(notice_of(reader)?)),
        _ => Err(RequestFault::Command),
    }
}

/// Reads a request for notices that have the recipient in their return path.
#[tactic(auto, unfolding(crate::specs::RequestReading::verp_at))]
fn verp_of<'a>(reader: &mut AttributeReader<'a>) -> Result<PostfixRequest<'a>, RequestFault>
    ensures read { IfOk result (λ request. verp_at reader.old ≡ Ok (request, reader.new)) }
    ensures refused { IfErr result (λ fault. verp_at reader.old ≡ Err fault) }
{
    let request = notice_of(reader)?;
    let delimiters = reader.delimiters()?;
    Ok(PostfixRequest::Verp(request, delimiters))
}

/// Reads a request for a notice of one recipient.
#[tactic(auto, unfolding(crate::specs::RequestReading::one_at))]
fn one_of<'a>(reader: &mut AttributeReader<'a>) -> Result<PostfixRequest<'a>, RequestFault>
    ensures read { IfOk result (λ request. one_at reader.old ≡ Ok (request, reader.new)) }
    ensures refused { IfErr result (λ fault. one_at reader.old ≡ Err fault) }
{
    let request = notice_of(reader)?;
    let recipient = recipient_of(reader)?;
    let report = report_of(reader)?;
    Ok(PostfixRequest::One(request, recipient, report))
}
