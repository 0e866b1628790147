//! Carrying out one request of Postfix's programs on the log of its service.
//! Implements docs/postfix-internals.md, "A connection".
ghost use Rattle.std.specs.Prelude.{◌≡◌};
ghost use Rattle.dsn_postfix_notices.specs.requests.CarriedOut.{Cleans, IsCarriedOut, IsDone, must_clean, queue_id_of};
ghost use Rattle.dsn_postfix_notices.specs.requests.Gains.{Gains};
ghost use Rattle.dsn_postfix_notices.specs.requests.RequestStatus.{is_carried_out};

use crate::requests::append::append;
use crate::requests::mail_system::MailSystem;
use crate::requests::notice_task::NoticeTask;
use crate::requests::notify::notify;
use crate::requests::request_status::CARRIED_OUT;
use crate::requests::request_terms::RequestTerms;
use dsn_postfix::PostfixRequest;
use dsn_text::{NoMemory, QueueId};
use std::alloc::Global;

/// The queue id of a request's message.
pub fn queue_id_of(request: &PostfixRequest<'_>) -> QueueId
    ensures { result ≡ queue_id_of request.now }
{
    match request {
        PostfixRequest::Append(append) => append.queue_id,
        PostfixRequest::Flush(notice)
        | PostfixRequest::Warn(notice)
        | PostfixRequest::Verp(notice, _)
        | PostfixRequest::One(notice, _, _)
        | PostfixRequest::Trace(notice) => notice.queue_id,
    }
}

/// Whether an answer says that the request was carried out.
pub(super) fn is_carried_out(answer: &Result<u32, NoMemory>) -> bool
    ensures { result ≡ is_carried_out answer.now }
{
    match answer {
        Ok(status) => *status == CARRIED_OUT,
        Err(_) => false,
    }
}

/// Whether the request's log must be removed after this answer: the request has CLEAN, and the
/// answer isn't 0.
fn must_clean(request: &PostfixRequest<'_>, answer: &Result<u32, NoMemory>) -> bool
    ensures { result ≡ must_clean request.now answer.now }
{
    request.asks_clean() && !is_carried_out(answer)
}

/// Removes a request's log if that is due.
fn clean<M: MailSystem>(
    terms: &RequestTerms<'_>,
    request: &PostfixRequest<'_>,
    due: bool,
    system: &mut M,
)
    ensures { Gains M.deeds system.old system.new (Cleans terms.now.service request.now due) }
{
    if due {
        // If the request was passed on, Postfix's own service may have removed the log already. A
        // log that doesn't exist counts as removed.
        let _ = system.remove_log(terms.service, queue_id_of(request));
    }
}

/// Does what a request asks, except CLEAN. Returns the status, or `NoMemory`.
fn do_asked<M: MailSystem>(
    alloc: Global,
    terms: &RequestTerms<'_>,
    request: &PostfixRequest<'_>,
    bytes: &[u8],
    system: &mut M,
) -> Result<u32, NoMemory>
    ensures { Gains M.deeds system.old system.new
        (IsDone terms.now request.now bytes.now result) }
{
    match request {
        PostfixRequest::Append(asked) => append(alloc, terms.service, asked, bytes, system),
        PostfixRequest::Flush(notice)
        | PostfixRequest::Warn(notice)
        | PostfixRequest::Verp(notice, _)
        | PostfixRequest::One(notice, _, _)
        | PostfixRequest::Trace(notice) => notify(
            alloc,
            &NoticeTask {
                terms,
                request,
                notice,
            },
            bytes,
            system,
        ),
    }
}

/// Does what a request asks on the log of one service, and then what CLEAN asks. Returns the status
/// that answers it, or `NoMemory`.
pub(super) fn carry_out<M: MailSystem>(
    alloc: Global,
    terms: &RequestTerms<'_>,
    request: &PostfixRequest<'_>,
    bytes: &[u8],
    system: &mut M,
) -> Result<u32, NoMemory>
    ensures { Gains M.deeds system.old system.new
        (IsCarriedOut terms.now request.now bytes.now result) }
{
    let answer = do_asked(alloc, terms, request, bytes, system);
    let due = must_clean(request, &answer);
    clean(terms, request, due, system);
    answer
}
