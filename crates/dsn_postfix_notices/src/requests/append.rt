//! A request to log the outcome of a recipient.
//! Implements docs/postfix-internals.md, "A connection".
ghost use Rattle.std.specs.Prelude.{◌≡◌};
ghost use Rattle.dsn_postfix_notices.specs.requests.AppendDeeds.{IsAppended};
ghost use Rattle.dsn_postfix_notices.specs.requests.Gains.{Gains};

use crate::requests::mail_system::MailSystem;
use crate::requests::pass_reason::PassReason;
use crate::requests::request_status::{CARRIED_OUT, NOT_CARRIED_OUT, pass_on};
use dsn_postfix::{AppendRequest, logged_as};
use dsn_text::{NoMemory, Service};
use std::alloc::Global;

/// Adds the record of an append to the end of the service's log, and returns the status. If no log
/// line can express the record, passes the request on to Postfix's own service. Returns `NoMemory`,
/// without any deed, if memory for the record was refused.
pub(super) fn append<M: MailSystem>(
    alloc: Global,
    service: Service,
    request: &AppendRequest<'_>,
    bytes: &[u8],
    system: &mut M,
) -> Result<u32, NoMemory>
    ensures { Gains M.deeds system.old system.new
        (IsAppended service request.now bytes.now result) }
{
    let found = match logged_as(service, request) {
        Ok(found) => found,
        Err(field) => return Ok(pass_on(system, service, bytes, PassReason::NoRecord(field))),
    };
    let Ok(record) = found.log_bytes(alloc) else {
        return Err(NoMemory);
    };
    match system.append_to_log(service, request.queue_id, &record) {
        Ok(()) => Ok(CARRIED_OUT),
        Err(_) => Ok(NOT_CARRIED_OUT),
    }
}
