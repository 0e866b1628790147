//! Answers one request of Postfix's programs. A message's bounce log is flushed before its defer
//! log.
//! Implements docs/postfix-internals.md, "A connection".
ghost use Rattle.std.specs.Prelude.{◌≡◌};
ghost use Rattle.dsn_postfix_notices.specs.requests.AnsweredRequest.{FlushesBounceLog, IsAnswered, IsBounceLogTold, IsFlushedInTurn, bounce_flush, bounce_terms, first_flush, without_flags};
ghost use Rattle.dsn_postfix_notices.specs.requests.Gains.{Gains};

use crate::requests::carrying_out::{carry_out, is_carried_out, queue_id_of};
use crate::requests::mail_system::MailSystem;
use crate::requests::request_status::{CARRIED_OUT, NOT_CARRIED_OUT};
use crate::requests::request_terms::RequestTerms;
use dsn_postfix::{NoticeRequest, PostfixRequest, encode_postfix_request};
use dsn_text::{NoMemory, Service};
use std::alloc::Global;

/// What a request says of its message, without CLEAN and DELRCPT.
fn without_flags<'a>(notice: &NoticeRequest<'a>) -> NoticeRequest<'a>
    ensures { result ≡ without_flags notice.now }
{
    NoticeRequest {
        // CLEAN and DELRCPT apply to the log that is named. Postfix sets DELRCPT on each flush of a
        // defer log.
        flags: notice.flags / 4 * 4,
        queue_name: notice.queue_name.lent(),
        queue_id: notice.queue_id,
        encoding: notice.encoding.lent(),
        names_sendopts: notice.names_sendopts,
        send_options: notice.send_options,
        sender: notice.sender.lent(),
        envelope_id: notice.envelope_id.lent(),
        returns: notice.returns,
    }
}

/// The flush of the same message's bounce log, if the request is a flush. It has no CLEAN and no
/// DELRCPT, which apply to the named log.
fn bounce_flush<'a>(request: &PostfixRequest<'a>) -> Option<PostfixRequest<'a>>
    ensures { result ≡ bounce_flush request.now }
{
    match request {
        PostfixRequest::Flush(notice) => Some(PostfixRequest::Flush(without_flags(notice))),
        PostfixRequest::Verp(notice, delimiters) => {
            Some(PostfixRequest::Verp(without_flags(notice), delimiters.lent()))
        }
        PostfixRequest::Append(_)
        | PostfixRequest::Warn(_)
        | PostfixRequest::One(..)
        | PostfixRequest::Trace(_) => None,
    }
}

/// The flush that precedes a request, if there is one.
fn first_flush<'a>(
    terms: &RequestTerms<'_>,
    request: &PostfixRequest<'a>,
) -> Option<PostfixRequest<'a>>
    ensures { result ≡ first_flush terms.now.service request.now }
{
    match terms.service {
        Service::Defer => bounce_flush(request),
        Service::Bounce | Service::Trace => None,
    }
}

/// The terms of the flush of a bounce log that precedes a request on `terms`.
fn bounce_terms<'a>(terms: &RequestTerms<'a>) -> RequestTerms<'a>
    ensures { result ≡ bounce_terms terms.now }
{
    RequestTerms {
        settings: terms.settings,
        service: Service::Bounce,
        moment: terms.moment,
        first_serial: terms.first_serial,
    }
}

/// Carries out the flush of a bounce log that was found. If it is passed on, then with the bytes of
/// this flush. Returns `NoMemory`, without any deed, if memory for these was refused.
fn flush_bounce_log<M: MailSystem>(
    alloc: Global,
    terms: &RequestTerms<'_>,
    first: &PostfixRequest<'_>,
    system: &mut M,
) -> Result<u32, NoMemory>
    ensures { Gains M.deeds system.old system.new
        (FlushesBounceLog terms.now first.now result) }
{
    match encode_postfix_request(alloc, first) {
        Ok(bytes) => carry_out(alloc, &bounce_terms(terms), first, &bytes, system),
        Err(refused) => Err(refused),
    }
}

/// Looks for a message's bounce log, and carries out its flush if there is one.
fn tell_bounce_log<M: MailSystem>(
    alloc: Global,
    terms: &RequestTerms<'_>,
    first: &PostfixRequest<'_>,
    system: &mut M,
) -> Result<u32, NoMemory>
    ensures { Gains M.deeds system.old system.new
        (IsBounceLogTold terms.now first.now result) }
{
    match system.has_log(Service::Bounce, queue_id_of(first)) {
        Ok(true) => flush_bounce_log(alloc, terms, first, system),
        Ok(false) => Ok(CARRIED_OUT),
        Err(_) => Ok(NOT_CARRIED_OUT),
    }
}

/// Flushes the bounce log of a message, if it has one. Carries out the request on the log of its
/// service only after that succeeded.
fn flush_in_turn<M: MailSystem>(
    alloc: Global,
    terms: &RequestTerms<'_>,
    first: &PostfixRequest<'_>,
    request: &PostfixRequest<'_>,
    bytes: &[u8],
    system: &mut M,
) -> Result<u32, NoMemory>
    ensures { Gains M.deeds system.old system.new
        (IsFlushedInTurn terms.now first.now request.now bytes.now result) }
{
    let told = tell_bounce_log(alloc, terms, first, system);
    if !is_carried_out(&told) {
        return told;
    }
    carry_out(alloc, terms, request, bytes, system)
}

/// Carries out one request to a service of Postfix's programs. Returns the status that answers it:
/// 0 if it was carried out, and 4,294,967,295 if it wasn't. If the request was passed on, returns
/// the status that Postfix's own service of that name answered.
/// Returns `NoMemory` only if memory was refused for a record, for letters or a letter's text, for
/// the places to mark, or for the bytes of a bounce log's flush. A
/// [`DeedFault::NoMemory`](crate::DeedFault) of the system gives status 4,294,967,295, as its other
/// faults do.
///
/// An append adds its record to the end of the log. Every other request notifies the message's
/// sender. It reads its log, if it has one, and the message, makes all letters, and only then
/// submits the first. Once all are accepted, it marks recipients as done if the request asks for
/// that. Then it removes the log that it read, unless the request is a warning. A request is passed
/// on if the postmaster gets a copy of its notices, if it can't be expressed, or if its first letter
/// is refused for good. If a request with CLEAN
/// isn't answered 0, its log is removed; a log that doesn't exist counts as removed.
///
/// Before a message's defer log is flushed, its bounce log is, if it has one. Postfix removes a
/// message once its defer log is flushed, and nobody would then be notified of a bounce log that is
/// left. So the same request is carried out on the bounce log first. If that isn't answered 0, this
/// is the answer, and the defer log is left as it is. If it can't be known whether there is a bounce
/// log, the status is 4,294,967,295 and nothing is done, even with CLEAN.
///
/// The letters' serials are made of the length of their log, and their moment is that of `terms`. So
/// the same log, asked about again on the same terms, gives letters with the same Message-IDs.
///
/// `bytes` are the request's own bytes, which are passed on.
pub fn answer_request<M: MailSystem>(
    alloc: Global,
    terms: &RequestTerms<'_>,
    request: &PostfixRequest<'_>,
    bytes: &[u8],
    system: &mut M,
) -> Result<u32, NoMemory>
    ensures { Gains M.deeds system.old system.new
        (IsAnswered terms.now request.now bytes.now result) }
{
    match first_flush(terms, request) {
        Some(first) => flush_in_turn(alloc, terms, &first, request, bytes, system),
        None => carry_out(alloc, terms, request, bytes, system),
    }
}
