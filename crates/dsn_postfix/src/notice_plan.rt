//! The notices that a request has of a log.
//! Implements docs/postfix-internals.md, "The notice of a Postfix log".
ghost use Rattle.std.specs.Prelude.{◌≡◌, ◌<◌, Ok, drop, map, take, IfOk, MatchResult};
ghost use Rattle.std.specs.Option.{option_map};
ghost use Rattle.dsn_postfix_files.specs.LogRecord.{logged_fields_in};
ghost use Rattle.dsn_postfix.specs.LoggedAppend.{logged_of, unlogged_of};
ghost use Rattle.dsn_postfix.specs.NoticePlan.{IsPlanFault, delimiters_of, kind_of_notice, most_told, notice_about, notice_asked, notices_of, option_lost, portions, record_alone, records_asked, returned_if_failed};
ghost use Rattle.dsn_postfix_files.specs.QueueRecipients.{recipient_facts_in};
ghost use Rattle.dsn_postfix.specs.Wanted.{is_no_sender};

use crate::cant_say::CantSay;
use crate::logged_append::logged_of;
use crate::plan_fault::PlanFault;
use crate::planned_notice::PlannedNotice;
use crate::postfix_request::{DeliveryReport, NoticeRequest, PostfixRequest, ReportedRecipient};
use crate::returned_part::ReturnedPart;
use crate::told_recipients::{have_known_actions, told_of};
use crate::whole_records::whole_records;
use dsn_postfix_files::{LogRecord, QueuedRecipient};
use dsn_text::Service;
use std::alloc::{AllocError, Global};

/// The least of the send options that no notice keeps, besides SMTPUTF8: REQUIRETLS.
const REQUIRETLS: u32 = 32;

/// Why no notice can keep the send options of a message. Returns `None` if a notice can.
fn option_lost(notice: &NoticeRequest<'_>) -> Option<CantSay>
    ensures { result ≡ option_lost notice.now }
{
    // bounce(8) then makes a notice of another type (`message/global-delivery-status`). UTF-8 in
    // the header alone (2) is no reason.
    if notice.needs_smtputf8() {
        return Some(CantSay::NeedsSmtputf8);
    }
    // The notice would also need 32 (REQUIRETLS); greater ones are unknown.
    if notice.send_options >= REQUIRETLS {
        return Some(CantSay::SendOptions(notice.send_options));
    }
    None
}

/// Whether a message has no sender to notify: it has the null sender, or the sender of notices
/// about notices.
fn is_no_sender(double_bounce: &[u8], sender: &[u8]) -> bool
    ensures { result ≡ is_no_sender double_bounce.now sender.now }
{
    // As bounce(8) does if `notify_classes` has no 2bounce.
    sender.is_empty() || sender.eq_ignore_ascii_case(double_bounce)
}

/// The record of a request about one recipient.
fn record_alone<'a>(
    alloc: Global,
    service: Service,
    recipient: &ReportedRecipient<'a>,
    report: &DeliveryReport<'a>,
) -> Result<Vec<LogRecord<'a>>, PlanFault>
    ensures { MatchResult result
        (λ records. record_alone (unlogged_of recipient.now.address
        (logged_of service recipient.now report.now)) (logged_of service recipient.now report.now)
        ≡ Ok (map logged_fields_in records.items))
        (λ fault. IsPlanFault (record_alone (unlogged_of recipient.now.address
        (logged_of service recipient.now report.now)) (logged_of service recipient.now report.now))
        fault) }
{
    match logged_of(service, recipient, report) {
        Ok(found) => {
            let mut records = Vec::new(alloc);
            records.push(found)?;
            Ok(records)
        }
        Err(field) => Err(PlanFault::Unsaid(CantSay::Unlogged(field))),
    }
}

/// The records that a request's notices may report.
fn records_asked<'a>(
    alloc: Global,
    service: Service,
    request: &PostfixRequest<'a>,
    log: Option<&'a [u8]>,
) -> Result<Vec<LogRecord<'a>>, PlanFault>
    ensures { MatchResult result
        (λ records. records_asked service request.now (option_map (λ file. file.now) log.entry)
        ≡ Ok (map logged_fields_in records.items))
        (λ fault. IsPlanFault
        (records_asked service request.now (option_map (λ file. file.now) log.entry)) fault) }
{
    match request {
        PostfixRequest::Append(_) => Ok(Vec::new(alloc)),
        PostfixRequest::Flush(_) | PostfixRequest::Verp(..) => match log {
            Some(file) => whole_records(alloc, service, file),
            // bounce(8) sends a notice here which says that no report is available. Without a
            // notice the message would be lost in silence.
            None => Err(PlanFault::Unsaid(CantSay::NoLog)),
        },
        PostfixRequest::Warn(_) | PostfixRequest::Trace(_) => match log {
            Some(file) => whole_records(alloc, service, file),
            None => Ok(Vec::new(alloc)),
        },
        PostfixRequest::One(_, recipient, report) => {
            record_alone(alloc, service, recipient, report)
        }
    }
}

impl<'a> PostfixRequest<'a> {
    /// The part of the request that describes its notices. Returns `None` for an append.
    fn notice_asked(&self) -> Option<&NoticeRequest<'a>>
        ensures { option_map (λ notice. notice.now) result ≡ notice_asked self.now }
    {
        match self {
            PostfixRequest::Append(_) => None,
            PostfixRequest::Flush(notice)
            | PostfixRequest::Warn(notice)
            | PostfixRequest::Verp(notice, _)
            | PostfixRequest::One(notice, _, _)
            | PostfixRequest::Trace(notice) => Some(notice),
        }
    }

    /// The largest number of outcomes in one notice.
    fn most_told(&self) -> usize
        ensures most { result ≡ most_told self.now }
        ensures some { 0 < result }
    {
        match self {
            PostfixRequest::Verp(..) => 1,
            // The most that a notice of this service has. bounce(8) has no bound.
            _ => 1000,
        }
    }

    /// The kind of the request's notices.
    fn kind_of_notice(&self) -> Service
        ensures { result ≡ kind_of_notice self.now }
    {
        match self {
            PostfixRequest::Warn(_) => Service::Defer,
            PostfixRequest::Trace(_) => Service::Trace,
            _ => Service::Bounce,
        }
    }

    /// The delimiters of the recipient in the address of a notice.
    fn delimiters(&self) -> Option<&'a [u8]>
        ensures { option_map (λ text. text.now) result ≡ delimiters_of self.now }
    {
        match self {
            PostfixRequest::Verp(_, delimiters) => Some(delimiters.bytes()),
            _ => None,
        }
    }
}

/// What a kind of notice returns of the message.
fn returned_if_failed(kind: Service, returns: u32) -> ReturnedPart
    ensures { result ≡ returned_if_failed kind returns }
{
    match kind {
        Service::Bounce if returns != 2 => ReturnedPart::Whole,
        _ => ReturnedPart::Header,
    }
}

/// The notice of a request that reports these outcomes.
fn notice_about<'a>(
    request: &PostfixRequest<'a>,
    notice: &NoticeRequest<'a>,
    outcomes: Vec<LogRecord<'a>>,
) -> PlannedNotice<'a>
    ensures { result ≡ notice_about request.now notice.now
        (map logged_fields_in outcomes.entry.items) }
{
    let kind = request.kind_of_notice();
    PlannedNotice {
        to: notice.sender.bytes(),
        delimiters: request.delimiters(),
        service: kind,
        returned: returned_if_failed(kind, notice.returns),
        outcomes,
    }
}

/// The first `most` records, or all of fewer.
fn first_portion<'b, 'a>(most: usize, told: &'b [LogRecord<'a>]) -> &'b [LogRecord<'a>]
    ensures { result.now ≡ take most told.now }
{
    &told[..most.min(told.len())]
}

/// The records after the first `most`.
fn other_portions<'b, 'a>(most: usize, told: &'b [LogRecord<'a>]) -> &'b [LogRecord<'a>]
    ensures { result.now ≡ drop most told.now }
{
    &told[most.min(told.len())..]
}

/// The notices of a request that report all these outcomes, each as many as it may.
fn notices_telling<'a>(
    alloc: Global,
    request: &PostfixRequest<'a>,
    notice: &NoticeRequest<'a>,
    told: &[LogRecord<'a>],
) -> Result<Vec<PlannedNotice<'a>>, AllocError>
    ensures { IfOk result (λ notices. notices.items
        ≡ map (notice_about request.now notice.now)
        (portions (most_told request.now) (map logged_fields_in told.now))) }
{
    let most = request.most_told();
    let mut notices = Vec::new(alloc);
    let mut rest = told;
    while !rest.is_empty() {
        let mut outcomes = Vec::new(alloc);
        outcomes.extend_from_slice(first_portion(most, rest))?;
        notices.push(notice_about(request, notice, outcomes))?;
        rest = other_portions(most, rest);
    }
    Ok(notices)
}

/// Plans the notices of a request to a service, from the queue file's recipients and the bytes of
/// the log's file, if there is one.
/// Each outcome that the recipient's NOTIFY value wants is in exactly one notice, once, in the
/// log's order; no other outcome is. Wanted records with the same known place, address, status,
/// action and reason are one outcome, and the last of them is reported. A log of deferred
/// recipients reports nothing of a recipient that is done. A notice of failure has the action
/// `failed`, whatever the log's. A message from the null sender, or from the double-bounce address,
/// has no notice.
/// Returns `Unsaid` if the notices can't be expressed, and `NoMemory` only if memory for them was
/// refused.
#[tactic(auto, unfolding(crate::specs::NoticePlan::notices_of))]
pub fn plan_notices<'a>(
    alloc: Global,
    double_bounce: &[u8],
    service: Service,
    request: &PostfixRequest<'a>,
    queued: &[QueuedRecipient<'_>],
    log: Option<&'a [u8]>,
) -> Result<Vec<PlannedNotice<'a>>, PlanFault>
    ensures { MatchResult result
        (λ notices. notices_of double_bounce.now service request.now
        (map recipient_facts_in queued.now) (option_map (λ file. file.now) log.entry)
        ≡ Ok (notices.items))
        (λ fault. IsPlanFault (notices_of double_bounce.now service request.now
        (map recipient_facts_in queued.now) (option_map (λ file. file.now) log.entry)) fault) }
{
    let Some(notice) = request.notice_asked() else {
        return Ok(Vec::new(alloc));
    };
    if is_no_sender(double_bounce, notice.sender.bytes()) {
        return Ok(Vec::new(alloc));
    }
    if let Some(reason) = option_lost(notice) {
        return Err(PlanFault::Unsaid(reason));
    }
    let records = records_asked(alloc, service, request, log)?;
    let told = told_of(alloc, service, request, queued, &records)?;
    if !have_known_actions(&told) {
        return Err(PlanFault::Unsaid(CantSay::UnknownAction));
    }
    Ok(notices_telling(alloc, request, notice, &told)?)
}
