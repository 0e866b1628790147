//! The threads that serve the programs of a Postfix. Some receive lists and append; others make
//! notices, so that no append waits for a mail server.
//! Implements docs/postfix-internals.md, "In front of Postfix".
use crate::clients::{answer_client, hear_client, refuse_client};
use crate::serving::client_connection::ClientConnection;
use crate::serving::listeners::{Listeners, wake};
use crate::serving::postfix_share::PostfixShare;
use crate::serving::service_queue::{Client, WaitingClient};
use dsn_device::{Connection, Plain};
use dsn_event_log::EventLog;
use dsn_postfix::{PostfixRequest, decode_postfix_request, logged_as};
use dsn_postfix_notices::{ServiceSettings, queue_id_of};
use dsn_postfix_queue::{PostfixSetup, PostfixSystem, ascii_text, asked_text, socket_name};
use dsn_text::{QueueId, Service};
use std::alloc::AllocError;
use std::fmt::Display;
use std::os::unix::net::UnixStream;
use std::sync::Wait;
use std::thread::{Scope, Threads};
use std::time::{Clock, Duration, Instant};
use std::{io, thread};

/// How many threads of one service receive lists and append. Further clients wait to be accepted.
const HEARING: u32 = 32;

/// How many threads of one service do all else, which may have to wait for the mail server, for
/// Postfix's own service or for a log's lock.
// With one kind of thread, a mail server that hung would stop appends, smtp(8) processes with them,
// and so mail to good recipients.
const TELLING: u32 = 8;

/// How many clients of one service have seconds to send their lists. Postfix's programs send them
/// at once. While this many are being received, further clients have the shorter time.
const MOST_SLOW: u32 = 8;

/// How long a client may take to send its list, in milliseconds.
const FOR_LIST: u64 = 5_000;

/// How long a client may take if others are slow, in milliseconds.
const FOR_LIST_IN_HASTE: u64 = 200;

/// For how many seconds a client may wait for a thread that makes notices. The queue manager
/// repeats a request after 1,000 seconds, and then nobody should carry out the old one.
const SECONDS_IN_QUEUE: u64 = 120;

/// How long a thread waits after an accept that failed, in milliseconds.
const AFTER_FAILED_ACCEPT: u64 = 100;

/// The period, in seconds, after which unused sessions with the mail server are ended. A session is
/// kept for one or two periods.
const SECONDS_KEPT: u64 = 2;

/// Serves the programs of a Postfix. A thread of the service receives a client's list, and does an
/// append itself; any other request waits for another thread. If a thread is refused, there are
/// fewer. Returns only if a service or the event log has no thread, or if memory for what the
/// threads share was refused. `waiting` is the runtime again, as what may start threads and wait.
pub fn serve_postfix<'a, R: Threads + Wait + Clock + Copy + Send + Sync + Drop + 'static>(
    rt: &'a HostRuntime,
    waiting: &R,
    listeners: &Listeners,
    place: PostfixSetup<'a>,
    settings: ServiceSettings<'a>,
) -> Result<(), AllocError> {
    match EventLog::start(rt, waiting) {
        Ok(events) => {
            let share = PostfixShare::new(rt.alloc(), waiting, place, settings, events)?;
            serve_all(rt, waiting, listeners, &share);
        }
        Err(error) => {
            let _ = eprintln!(rt; "the event log could not be begun: {error}");
        }
    }
    Ok(())
}

fn serve_all<'a, R: Threads + Wait + Clock + Sync>(
    rt: &'a HostRuntime,
    waiting: &R,
    listeners: &Listeners,
    share: &PostfixShare<'a>,
) {
    thread::scope(thread::scope_env(), waiting, |scope| {
        start_rounds(scope, rt, waiting, listeners, share);
        // Without this thread, the mail server ends them by its own time limit.
        let _ = scope.spawn(move || end_stale_sessions(rt, waiting, share));
    });
}

/// Starts the threads of each service, up to the first round in which one is refused. Writes the
/// line of the start once each service has a thread.
fn start_rounds<'s, 'a: 's, E: 's, R: Threads + Wait + Clock + Sync>(
    scope: &Scope<'s, E>,
    rt: &'a HostRuntime,
    waiting: &'s R,
    listeners: &'s Listeners,
    share: &'s PostfixShare<'a>,
) {
    for round in 0..HEARING {
        if !start_round(scope, rt, waiting, listeners, share, round) {
            end_without(rt, waiting, share, round);
            return;
        }
        if round == 0 {
            say_start(share);
        }
    }
}

/// Starts a thread of each service that receives lists, and one that makes notices unless there are
/// enough. Returns whether no thread was refused.
fn start_round<'s, 'a: 's, E: 's, R: Threads + Wait + Clock + Sync>(
    scope: &Scope<'s, E>,
    rt: &'a HostRuntime,
    waiting: &'s R,
    listeners: &'s Listeners,
    share: &'s PostfixShare<'a>,
    round: u32,
) -> bool {
    for service in [Service::Bounce, Service::Defer, Service::Trace] {
        let hearing = scope.spawn(move || hear_each(rt, waiting, listeners, service, share));
        if hearing.is_err() {
            return false;
        }
        if round < TELLING {
            let telling = scope.spawn(move || tell_each(rt, waiting, service, share));
            if telling.is_err() {
                return false;
            }
        }
    }
    true
}

/// Writes the line that the sockets are ready.
fn say_start(share: &PostfixShare<'_>) {
    let (root, host) = (
        share.place.queues.root,
        ascii_text(share.settings.site.host()),
    );
    share
        .events
        .say(format_args!("listening in {root} for {host}"));
}

/// Ends the run if a thread was refused in the first round. Otherwise writes a line that there are
/// fewer.
fn end_without<R: Wait>(rt: &HostRuntime, waiting: &R, share: &PostfixShare<'_>, round: u32) {
    if round == 0 {
        // The process ends before its event log might write it.
        let _ = eprintln!(rt; "a thread was refused: 0 threads a service");
        share.end(waiting);
        wake(rt, share.place.queues.root);
    } else {
        let line = format_args!("a thread was refused: {round} threads a service");
        share.events.say(line);
    }
}

/// Receives the list of one client of a service after another, until the run ends.
fn hear_each<'a, R: Wait + Clock>(
    rt: &'a HostRuntime,
    waiting: &R,
    listeners: &Listeners,
    service: Service,
    share: &PostfixShare<'a>,
) {
    for client in listeners.of(service).incoming() {
        if share.is_ending() {
            return;
        }
        match client {
            Ok(stream) => {
                share.note_accept();
                hear_one(rt, waiting, stream, service, share);
            }
            Err(error) => wait_after(rt, waiting, &error, share),
        }
    }
}

/// Receives a client's list. Answers at once if it is an append that the log can express; otherwise
/// the client waits.
fn hear_one<'a, R: Wait + Clock>(
    rt: &'a HostRuntime,
    waiting: &R,
    stream: UnixStream,
    service: Service,
    share: &PostfixShare<'a>,
) {
    let heard = heard_client(rt, waiting, stream, service, share);
    let Some(mut client) = heard else {
        return;
    };
    if is_logged(service, &client.list) {
        answer_one(rt, waiting, &mut client, service, share);
    } else {
        let_wait(rt, waiting, client, service, share);
    }
}

/// Receives a client's list. Writes a line and returns `None` if that fails.
fn heard_client<'a, R: Wait>(
    rt: &'a HostRuntime,
    waiting: &R,
    stream: UnixStream,
    service: Service,
    share: &PostfixShare<'a>,
) -> Option<Client<'a>> {
    let queue = share.queue(service);
    let haste = queue.begin_hearing() >= MOST_SLOW;
    let within = Duration::from_millis(if haste { FOR_LIST_IN_HASTE } else { FOR_LIST });
    let heard = match ClientConnection::new(rt, stream, within) {
        Ok(stream) => match hear_client(rt.alloc(), Plain::new(Connection::new(stream))) {
            Ok(client) => Some(client),
            Err(fault) => {
                say_unheard(service, share, fault);
                None
            }
        },
        Err(error) => {
            say_unheard(service, share, error);
            None
        }
    };
    queue.end_hearing();
    heard
}

/// Whether a list asks to append a record that the log can express.
fn is_logged(service: Service, list: &[u8]) -> bool {
    match decode_postfix_request(list) {
        Ok(PostfixRequest::Append(append)) => logged_as(service, &append).is_ok(),
        _ => false,
    }
}

/// Lets a client wait for a thread that makes notices. If too many wait and none of them is served,
/// answers that its request isn't carried out, and its program repeats it.
fn let_wait<'a, R: Wait + Clock>(
    rt: &'a HostRuntime,
    waiting: &R,
    client: Client<'a>,
    service: Service,
    share: &PostfixShare<'a>,
) {
    let Ok(since) = Instant::now(rt) else {
        return;
    };
    let asking = WaitingClient { client, since };
    if let Err(refused) = share.queue(service).push(waiting, asking) {
        refuse_one(rt, waiting, refused, service, share);
    }
}

/// Answers a client that its request isn't carried out, and writes a line.
fn refuse_one<R: Wait>(
    rt: &HostRuntime,
    waiting: &R,
    refused: WaitingClient<'_>,
    service: Service,
    share: &PostfixShare<'_>,
) {
    let WaitingClient { mut client, .. } = refused;
    let asked = match decode_postfix_request(&client.list) {
        Ok(request) => Some(queue_id_of(&request)),
        Err(_) => None,
    };
    if let Ok(status) = refuse_client(rt.alloc(), &mut client) {
        say_unserved(service, share, asked, status);
    }
}

/// Answers one waiting client of a service after another, until the run ends.
fn tell_each<R: Wait + Clock>(
    rt: &HostRuntime,
    waiting: &R,
    service: Service,
    share: &PostfixShare<'_>,
) {
    for _ in waiting.forever() {
        let Some(asking) = share.queue(service).next(waiting) else {
            return;
        };
        if has_waited_too_long(rt, asking.since) {
            refuse_one(rt, waiting, asking, service, share);
        } else {
            let WaitingClient { mut client, .. } = asking;
            answer_one(rt, waiting, &mut client, service, share);
        }
    }
}

/// Whether a client that waits since this moment should repeat its request.
fn has_waited_too_long(rt: &HostRuntime, since: Instant) -> bool {
    match since.elapsed(rt) {
        Ok(waited) => waited.as_secs() >= SECONDS_IN_QUEUE,
        Err(_) => false,
    }
}

/// Ends unused sessions with the mail server, until the run ends.
fn end_stale_sessions<R: Wait>(rt: &HostRuntime, waiting: &R, share: &PostfixShare<'_>) {
    for _ in waiting.forever() {
        if share.is_ending() {
            return;
        }
        thread::sleep(rt, Duration::from_secs(SECONDS_KEPT));
        share.sessions.end_stale(waiting);
    }
}

/// Waits after an accept that failed. Writes a line for the first failure in a row.
fn wait_after<R: Wait>(rt: &HostRuntime, waiting: &R, error: &io::Error, share: &PostfixShare<'_>) {
    if share.note_failed_accept() {
        share.events.say(format_args!("accept failed: {error}"));
    }
    thread::sleep(rt, Duration::from_millis(AFTER_FAILED_ACCEPT));
}

/// Does what a client asks, and writes a line if that wasn't carried out.
fn answer_one<R: Wait + Clock>(
    rt: &HostRuntime,
    waiting: &R,
    client: &mut Client<'_>,
    service: Service,
    share: &PostfixShare<'_>,
) {
    let mut system = PostfixSystem::new(
        rt,
        waiting,
        &share.place,
        &share.sessions,
        &share.large_files,
        &share.events,
        share.settings.double_bounce,
    );
    let answered = answer_client(
        rt,
        rt.alloc(),
        &share.settings,
        service,
        client,
        share.next_serial(),
        &mut system,
    );
    system.end_turn();
    match answered {
        Ok(0) => system.say_discarded(),
        Ok(status) => say_unserved(service, share, system.asked(), status),
        Err(fault) => say_unheard(service, share, fault),
    }
}

/// Writes the line of a client that wasn't served to the end.
fn say_unheard<F: Display + Drop>(service: Service, share: &PostfixShare<'_>, fault: F) {
    let name = socket_name(service);
    share
        .events
        .say(format_args!("{name}: client not served: {fault}"));
}

/// Writes the line of a request that wasn't carried out.
fn say_unserved(service: Service, share: &PostfixShare<'_>, asked: Option<QueueId>, status: u32) {
    let (id, name) = (asked_text(&asked), socket_name(service));
    share.events.say(format_args!("{id}: {name}: request not carried out: status {status}"));
}
