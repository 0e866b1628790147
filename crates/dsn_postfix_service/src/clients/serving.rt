//! Answers a client whose list was received.
//! Implements docs/postfix-internals.md, "A connection".
ghost use Rattle.std.specs.Prelude.{◌≡◌, MatchOption};
ghost use Rattle.dsn_postfix.specs.PostfixAnswer.{status_bytes};
ghost use Rattle.dsn_postfix_service.specs.clients.ServedClient.{AnswersClient, IsDoneFor, SaysNoStatus, SaysStatus, status_said};
ghost use Rattle.dsn_smtp.specs.Dialogue.{Says};
ghost use Rattle.dsn_postfix_notices.specs.requests.Gains.{Gains};
ghost use Rattle.dsn_postfix_notices.specs.requests.RequestStatus.{not_carried_out};

use crate::clients::client_fault::ClientFault;
use crate::clients::heard_client::HeardClient;
use dsn_device::Stream;
use dsn_postfix::{decode_postfix_request, encode_status};
use dsn_postfix_notices::{
    MailSystem, NOT_CARRIED_OUT, PassReason, RequestTerms, ServiceSettings, answer_request, pass_on,
};
use dsn_postfix_queue::stamp_of;
use dsn_smtp::say;
use dsn_text::{NoMemory, Service, Stamp};
use std::alloc::Global;
use std::time::{Clock, SystemTime};

/// Does what a client of a service asks, and sends and returns the status. Passes a list that is
/// not a valid request on to Postfix's own service. Returns `NoMoment` if neither the system knows
/// when the request's log was last changed nor the clock gives a valid time, and `Unsaid` if the
/// status couldn't be sent.
///
/// The letters of its notices are made at the moment when their log was last changed. So they have
/// the same bytes if the client asks again, as long as the log is the same. If the system doesn't
/// know it, they are made at the moment of this call. The letter of a request without a log has the
/// serial `first_serial`.
pub fn answer_client<R: Clock, S: Stream, M: MailSystem>(
    rt: &R,
    alloc: Global,
    settings: &ServiceSettings<'_>,
    service: Service,
    client: &mut HeardClient<S>,
    first_serial: u64,
    system: &mut M,
) -> Result<u32, ClientFault>
    ensures answered { AnswersClient S.Drain M.deeds settings.now service
        first_serial client.old.list.items client.old.stream client.new.stream system.old system.new
        result }
    ensures kept { client.new.list ≡ client.old.list }
{
    let list = &client.list;
    match answer_list(rt, alloc, settings, service, list, first_serial, system) {
        Some(status) => say_status(alloc, &mut client.stream, status),
        None => Err(ClientFault::NoMoment),
    }
}

/// Sends a client the status of a request that isn't carried out, and does nothing for it. Returns
/// `Unsaid` if the status couldn't be sent.
pub fn refuse_client<S: Stream>(
    alloc: Global,
    client: &mut HeardClient<S>,
) -> Result<u32, ClientFault>
    ensures said { SaysStatus S.Drain client.old.stream client.new.stream not_carried_out result }
    ensures kept { client.new.list ≡ client.old.list }
{
    say_status(alloc, &mut client.stream, NOT_CARRIED_OUT)
}

/// Does what a list asks, and returns the status. Returns `None`, and does nothing, if the moment of
/// its letters can't be known.
fn answer_list<R: Clock, M: MailSystem>(
    rt: &R,
    alloc: Global,
    settings: &ServiceSettings<'_>,
    service: Service,
    list: &[u8],
    first_serial: u64,
    system: &mut M,
) -> Option<u32>
    ensures { MatchOption result (M.deeds system.new ≡ M.deeds system.old)
        (IsDoneFor M.deeds settings.now service list.now first_serial system.old system.new) }
{
    match decode_postfix_request(list) {
        Ok(request) => {
            let moment = system.begin(service, &request).or_else(|| moment_now(rt))?;
            let terms = RequestTerms {
                settings,
                service,
                moment,
                first_serial,
            };
            let answer = answer_request(alloc, &terms, &request, list, system);
            Some(status_said(answer))
        }
        Err(fault) => Some(pass_on(system, service, list, PassReason::NoRequest(fault))),
    }
}

/// The status that is sent for an answer.
fn status_said(answer: Result<u32, NoMemory>) -> u32
    ensures { result ≡ status_said answer }
{
    match answer {
        Ok(status) => status,
        // As bounce(8) answers.
        Err(NoMemory) => NOT_CARRIED_OUT,
    }
}

/// Sends a status, and returns it.
fn say_status<S: Stream>(alloc: Global, stream: &mut S, status: u32) -> Result<u32, ClientFault>
    ensures { SaysStatus S.Drain stream.old stream.new status result }
{
    let Ok(bytes) = encode_status(alloc, status) else {
        return Err(ClientFault::Unsaid(status));
    };
    match say(stream, &bytes) {
        Ok(()) => Ok(status),
        Err(_) => Err(ClientFault::Unsaid(status)),
    }
}

/// The clock's time. Returns `None` if the clock fails, or if no date can have that time.
fn moment_now<R: Clock>(rt: &R) -> Option<Stamp> {
    match SystemTime::now(rt) {
        Ok(now) => stamp_of(now),
        Err(_) => None,
    }
}
