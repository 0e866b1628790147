//! The commands `discard` and `forget`: each sends one request about one log to a daemon.
use crate::arguments::{queue_id_of, socket_of, text_of};
use crate::fault_note::print_worded_fault;
use crate::socket_fault::print_socket_fault;
use crate::start_error::StartError;
use clap::ArgMatches;
use dsn_outcome::{BodyRef, Key, Plain, Reply, Service};
use dsn_text::fault_words;
use noticed_lib::{Spoken, send_request};
use std::alloc::Global;
use std::io::Print;
use std::os::unix::net::UnixStream;
use std::sync::Wait;

/// The exit status of a request that wasn't carried out, or whose answer couldn't be printed.
const NOT_DONE: u8 = 1;

/// What is asked about a log.
#[derive(Clone, Copy, PartialEq, Eq)]
pub(crate) enum LogRequest {
    /// Its log is closed, and its outcomes are dropped.
    Discard,
    /// The key of its closed log is released.
    Forget,
}

/// What `discard` and `forget` are given.
#[derive(Drop)]
pub(crate) struct LogArguments {
    socket: String,
    request: LogRequest,
    key: Key,
}

impl LogArguments {
    /// The socket and the key that the arguments name, for this request.
    pub(crate) fn of(
        alloc: Global,
        request: LogRequest,
        given: &ArgMatches<'_>,
    ) -> Result<LogArguments, StartError> {
        let service = text_of(given, "SERVICE");
        let Some(service) = service_named(service) else {
            return Err(StartError::wrong(alloc, "SERVICE", "bounce, defer or trace", service));
        };
        let id = queue_id_of(alloc, given)?;
        Ok(LogArguments {
            socket: socket_of(alloc, given)?,
            request,
            key: Key { service, id },
        })
    }
}

/// The service of this name.
fn service_named(name: &str) -> Option<Service> {
    match name {
        "bounce" => Some(Service::Bounce),
        "defer" => Some(Service::Defer),
        "trace" => Some(Service::Trace),
        _ => None,
    }
}

/// Sends the request to the daemon, and prints its answer in a line of standard output, or a fault
/// on standard error. Returns the status: 0 if the request was carried out. Only in `main` may the
/// runtime wait, so `waiting` passes it again with this right.
pub(crate) fn run_log_request(
    rt: &HostRuntime,
    waiting: &impl Wait,
    arguments: LogArguments,
) -> Result<u8, StartError> {
    let LogArguments {
        socket,
        request,
        key,
    } = arguments;
    let mut stream = match UnixStream::connect(rt, &socket) {
        Ok(connection) => Plain::new(connection),
        Err(error) => return Ok(print_socket_fault(rt, &socket, &error)),
    };
    let body = match request {
        LogRequest::Discard => BodyRef::Discard(&key),
        LogRequest::Forget => BodyRef::Forget(&key),
    };
    match send_request(waiting, rt.alloc(), &mut stream, body) {
        Ok(answer) => Ok(print_answer(rt, request, answer)),
        Err(fault) => {
            print_worded_fault(rt, fault.code());
            Ok(NOT_DONE)
        }
    }
}

/// Prints an answer to the request. Returns the status.
fn print_answer(rt: &impl Print, request: LogRequest, answer: Spoken) -> u8 {
    let (status, printed) = match answer {
        Spoken::Refused(code) => {
            (
                NOT_DONE,
                println!(rt; "refused {code}: {}", fault_words(code)),
            )
        }
        Spoken::Reply(replied) => match (request, replied.reply) {
            (LogRequest::Discard, Reply::Discarded(count)) => {
                (
                    0,
                    println!(rt;
                        "discarded {count}: the log is closed, and these outcomes are lost"
                    ),
                )
            }
            (LogRequest::Forget, Reply::Forgotten) => {
                (0, println!(rt; "forgotten: the key is free for a new log"))
            }
            (_, reply) => (NOT_DONE, println!(rt; "{}", undone(reply))),
        },
    };
    match printed {
        Ok(()) => status,
        Err(_) => NOT_DONE,
    }
}

/// Why nothing was changed.
fn undone(reply: Reply) -> &'static str {
    match reply {
        Reply::Closed => "closed: the log was flushed or discarded before",
        Reply::NotClosed => "not closed: the log is open, or there is none",
        Reply::TableFull => "table full: no key can be added",
        _ => "the answer is not one to this request",
    }
}
