//! Requests that are passed on to one of Postfix's own services, and its answers.
use crate::assert_same::same;
use crate::device::ALWAYS;
use crate::postfix_service::server::Server;
use dsn_outcome::Plain;
use dsn_postfix_notices::DeedFault;
use dsn_postfix_queue::ask_own_service;
use std::alloc::{AllocGlobal, Global};
use std::cell::RefCell;
use std::process::Abort;

/// The bytes of a service that answers 7.
const ANSWERS: &[u8] = b"|protocol\0delivery_status_protocol\0\0|status\07\0\0";

/// The bytes of services, the number of calls that succeed before one fails, the answer, and the
/// bytes sent to the service.
const SERVICES: [(&[u8], usize, Result<u32, DeedFault>, &[u8]); 7] = [
    // the request is sent after the announcement
    (ANSWERS, ALWAYS, Ok(7), b"<nrequest\01\0\0<"),
    // nothing is sent to another service
    (
        b"|protocol\0other\0\0|status\00\0\0",
        ALWAYS,
        Err(DeedFault::Failed),
        b"<",
    ),
    (
        b"|protocol\0delivery_status_protocol\0",
        ALWAYS,
        Err(DeedFault::Failed),
        b"<",
    ),
    (b"", ALWAYS, Err(DeedFault::Failed), b""),
    // an invalid status is not an answer
    (
        b"|protocol\0delivery_status_protocol\0\0|status\0no\0\0",
        ALWAYS,
        Err(DeedFault::Failed),
        b"<nrequest\01\0\0<",
    ),
    (
        b"|protocol\0delivery_status_protocol\0\0",
        ALWAYS,
        Err(DeedFault::Failed),
        b"<nrequest\01\0\0",
    ),
    // a device that fails gives no answer
    (ANSWERS, 0, Err(DeedFault::Failed), b""),
];

/// The answer of a service with these bytes, in pieces of at most `most` bytes. The bytes sent to
/// it are recorded.
fn asked(
    alloc: Global,
    (script, calls): (&[u8], usize),
    most: usize,
    heard: &RefCell<Vec<u8>>,
) -> Result<u32, DeedFault> {
    let mut stream = Plain::new(Server {
        script,
        most,
        calls,
        heard,
    });
    ask_own_service(alloc, &mut stream, b"nrequest\01\0\0")
}

/// A service has this answer, and these bytes are sent to it, if it gives its bytes in pieces of at
/// most `most`.
fn expect_answer(
    rt: &(impl AllocGlobal + Abort),
    &(script, calls, answer, sent): &(&[u8], usize, Result<u32, DeedFault>, &[u8]),
    most: usize,
) {
    let heard = RefCell::new(Vec::new(rt.alloc()));
    same(rt, asked(rt.alloc(), (script, calls), most, &heard), answer);
    same(rt, heard.into_inner().as_slice(), sent);
}

#[test]
fn services_are_asked(rt: HostRuntime) {
    for service in &SERVICES {
        expect_answer(&rt, service, 1);
        expect_answer(&rt, service, 5);
        expect_answer(&rt, service, 1_000);
    }
}
