//! The log that a request for notices reports, and the message's file.
ghost use Rattle.std.specs.Prelude.{◌≡◌};
ghost use Rattle.std.specs.Option.{option_map};
ghost use Rattle.dsn_postfix_notices.specs.requests.Deed.{answer_as};
ghost use Rattle.dsn_postfix_notices.specs.requests.Gains.{Gains};
ghost use Rattle.dsn_postfix_notices.specs.inner.MailFound.{Reads, ReadsLog};
ghost use Rattle.dsn_postfix_notices.specs.requests.MailFound.{tells_of_log};

use crate::requests::deed_fault::DeedFault;
use crate::requests::mail_system::MailSystem;
use crate::requests::notice_task::NoticeTask;
use dsn_postfix::{NoticeRequest, PostfixRequest};
use std::alloc::Global;
use std::marker::Model;

/// What was read for a request for notices.
#[derive(Drop)]
pub(super) struct MailFound {
    /// The log's bytes, if there is one.
    log: Option<Vec<u8>>,
    /// The bytes of the message's file.
    file: Vec<u8>,
}

impl Model for MailFound {
    ghost use Rattle.std.specs.Option.{option_map};
    ghost use Rattle.dsn_postfix_notices.specs.requests.MailFound.{MailRead};

    ghost Value = { MailRead };

    ghost view = { λ found. record {
      log = option_map (λ log. log.items) found.log;
      file = found.file.items;
    } };
}

impl MailFound {
    /// The log's bytes, if there is one.
    pub(super) fn log(&self) -> Option<&[u8]>
        ensures { option_map (λ log. log.now) result ≡ self.now.log }
    {
        match &self.log {
            Some(log) => Some(log.as_slice()),
            None => None,
        }
    }

    /// The bytes of the message's file.
    pub(super) fn file(&self) -> &[u8]
        ensures { result.now ≡ self.now.file }
    {
        &self.file
    }
}

/// Whether a request reports a log.
pub(super) fn tells_of_log(request: &PostfixRequest<'_>) -> bool
    ensures { result ≡ tells_of_log request.now }
{
    !matches!(request, PostfixRequest::Append(_) | PostfixRequest::One(..))
}

/// Reads the log that a request reports. Returns `None` for a request about one recipient alone,
/// which has no log.
fn read_log<M: MailSystem>(
    alloc: Global,
    task: &NoticeTask<'_>,
    system: &mut M,
) -> Result<Option<Vec<u8>>, DeedFault>
    ensures { Gains M.deeds system.old system.new
        (ReadsLog task.now (answer_as (option_map (λ log. log.items)) result)) }
{
    if !tells_of_log(task.request) {
        return Ok(None);
    }
    let notice: &NoticeRequest<'_> = task.notice;
    system.read_log(alloc, task.service(), notice.queue_id)
}

/// Reads the log that a request reports, and then the message's file.
pub(super) fn read_mail<M: MailSystem>(
    alloc: Global,
    task: &NoticeTask<'_>,
    system: &mut M,
) -> Result<MailFound, DeedFault>
    ensures { Gains M.deeds system.old system.new (Reads task.now result) }
{
    let notice: &NoticeRequest<'_> = task.notice;
    let log = read_log(alloc, task, system)?;
    let file = system.read_message(alloc, &notice.queue_name, notice.queue_id)?;
    Ok(MailFound { log, file })
}
