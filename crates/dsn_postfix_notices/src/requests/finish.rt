//! What is done once all notices of a request are accepted.
//! Implements docs/postfix-internals.md, "A connection".
ghost use Rattle.std.specs.Prelude.{◌≡◌};
ghost use Rattle.std.specs.Option.{option_map};
ghost use Rattle.dsn_postfix_notices.specs.requests.Finishing.{FinishesAt, RemovesLog, is_removal_due, removes_log};
ghost use Rattle.dsn_postfix_notices.specs.inner.Finishing.{MarksAll};
ghost use Rattle.dsn_postfix_notices.specs.requests.Gains.{Gains};

use crate::requests::mail_system::MailSystem;
use crate::requests::notice_task::NoticeTask;
use crate::requests::untold::Untold;
use dsn_postfix::{NoticeRequest, PostfixRequest};
use dsn_text::{QueueId, Service};

/// Whether a request's log is removed once its sender is notified.
fn removes_log(request: &PostfixRequest<'_>) -> bool
    ensures { result ≡ removes_log request.now }
{
    matches!(
        request,
        PostfixRequest::Flush(_) | PostfixRequest::Verp(..) | PostfixRequest::Trace(_)
    )
}

/// Whether there is a log that must be removed.
fn is_removal_due(request: &PostfixRequest<'_>, log: Option<&[u8]>) -> bool
    ensures { result ≡ is_removal_due request.now (option_map (λ log. log.now) log.entry) }
{
    // An empty log is removed, and notifies nobody: an append that was cut back leaves such a file.
    removes_log(request) && log.is_some()
}

/// Marks the recipients at these places as done. Stops at the first that fails.
fn mark_all<M: MailSystem>(
    notice: &NoticeRequest<'_>,
    places: &[u64],
    system: &mut M,
) -> Result<(), Untold>
    ensures { Gains M.deeds system.old system.new (MarksAll notice.now places.now result) }
{
    for place in places {
        system.mark_done(&notice.queue_name, notice.queue_id, *place)?;
    }
    Ok(())
}

/// Removes a log if that is due.
fn remove_if_due<M: MailSystem>(
    service: Service,
    id: QueueId,
    due: bool,
    system: &mut M,
) -> Result<(), Untold>
    ensures { Gains M.deeds system.old system.new (RemovesLog service id due result) }
{
    if due {
        system.remove_log(service, id)?;
    }
    Ok(())
}

/// Marks the recipients at these places as done. Once all are marked, removes the request's log if
/// that is due.
pub(super) fn finish<M: MailSystem>(
    task: &NoticeTask<'_>,
    log: Option<&[u8]>,
    places: &[u64],
    system: &mut M,
) -> Result<(), Untold>
    ensures { Gains M.deeds system.old system.new
        (FinishesAt task.now (option_map (λ log. log.now) log.entry) places.now result) }
{
    let notice: &NoticeRequest<'_> = task.notice;
    // If this fails, the log stays, and Postfix repeats the request: then its sender is notified
    // twice. The other order could lose a notice.
    mark_all(notice, places, system)?;
    let due = is_removal_due(task.request, log);
    remove_if_due(task.service(), notice.queue_id, due, system)
}
