//! A request that is passed on to Postfix's own service.
//! Implements docs/postfix-internals.md, "What Postfix's programs send".
ghost use Rattle.std.specs.Prelude.{◌≡◌, ◌↔◌, IsTrue, IfErr, IfOk, OnOk};
ghost use Rattle.dsn_postfix.specs.PostfixAnswer.{announcement_bytes, status_bytes};
ghost use Rattle.dsn_postfix.specs.ListDialogue.{HearsList};
ghost use Rattle.dsn_postfix_queue.specs.queue_folder.OwnService.{AsksOwnService, HearsNoAnnouncement, HearsNoStatus, deed_fault_of};

use dsn_device::Stream;
use dsn_postfix::{ListFault, decode_status, hear_list};
use dsn_postfix_notices::DeedFault;
use dsn_smtp::say;
use std::alloc::Global;

/// The list with which each of Postfix's services begins.
const ANNOUNCEMENT: &[u8] = b"protocol\0delivery_status_protocol\0\0";

/// Passes a request on to one of Postfix's own services: waits for its announcement, sends the
/// request, and waits for the status, which it returns. Returns `NoMemory` if memory was refused,
/// and `Failed` for any other fault.
pub fn ask_own_service<S: Stream>(
    alloc: Global,
    stream: &mut S,
    request: &[u8],
) -> Result<u32, DeedFault>
    ensures { AsksOwnService S.Source S.Drain stream.old stream.new request.now result }
{
    match hear_announcement(alloc, stream) {
        Ok(()) => {}
        Err(why) => return Err(why),
    }
    match say(stream, request) {
        Ok(()) => hear_status(alloc, stream),
        Err(_) => Err(DeedFault::Failed),
    }
}

/// Waits for the announcement. Returns `Failed` for any other list.
fn hear_announcement<S: Stream>(alloc: Global, stream: &mut S) -> Result<(), DeedFault>
    ensures heard { OnOk result (HearsList S.Source stream.old stream.new announcement_bytes) }
    ensures none { IfErr result
        (λ why. HearsNoAnnouncement S.Source stream.old stream.new why) }
{
    match hear_list(alloc, stream) {
        Ok(list) if is_announcement(&list) => Ok(()),
        Ok(_) => Err(DeedFault::Failed),
        Err(fault) => Err(deed_fault_of(fault)),
    }
}

/// Waits for the status. Returns `Failed` for any other list.
fn hear_status<S: Stream>(alloc: Global, stream: &mut S) -> Result<u32, DeedFault>
    ensures heard { IfOk result
        (λ status. HearsList S.Source stream.old stream.new (status_bytes status)) }
    ensures none { IfErr result (λ why. HearsNoStatus S.Source stream.old stream.new why) }
{
    let list = match hear_list(alloc, stream) {
        Ok(list) => list,
        Err(fault) => return Err(deed_fault_of(fault)),
    };
    match decode_status(&list) {
        Ok(status) => Ok(status),
        Err(_) => Err(DeedFault::Failed),
    }
}

/// Whether a list is the announcement.
#[tactic(auto, using(crate::proofs::OwnServiceLemmas::announcement_is))]
fn is_announcement(list: &[u8]) -> bool
    ensures { IsTrue result ↔ (list.now ≡ announcement_bytes) }
{
    is_text(list, ANNOUNCEMENT)
}

fn is_text(list: &[u8], text: &[u8]) -> bool
    ensures { IsTrue result ↔ (list.now ≡ text.now) }
{
    list == text
}

/// The fault of a deed that couldn't receive a list.
fn deed_fault_of(fault: ListFault) -> DeedFault
    ensures { result ≡ deed_fault_of fault }
{
    match fault {
        ListFault::NoMemory => DeedFault::NoMemory,
        _ => DeedFault::Failed,
    }
}
