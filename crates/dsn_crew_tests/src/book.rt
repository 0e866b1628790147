//! A book with as many keys as it can be made to hold: how many of them a request's key is compared
//! with, which no contract says exactly.
use crate::assert_same::same;
use dsn_book::{Book, Limits};
use dsn_outcome::{Body, Key, QueueId, Reply, Request, Service};
use std::alloc::Global;
use std::process::Abort;
use std::test::Fail;

/// The last digit of a number.
fn digit(number: u32) -> u8 {
    b'0'.wrapping_add((number % 10) as u8)
}

/// A discard of the bounce log of a number, whose queue id has five digits.
fn discard(number: u32) -> Result<Body, Fail> {
    let id = [
        digit(number / 10_000),
        digit(number / 1_000),
        digit(number / 100),
        digit(number / 10),
        digit(number),
    ];
    let id = QueueId::new(&id).ok_or("not a queue id")?;
    let service = Service::Bounce;
    Ok(Body::Discard(Key { service, id }))
}

/// The reply to a body, and how many keys its key was compared with.
fn apply(book: &mut Book, body: Body) -> (Reply, u32) {
    if book.sealed() > 0 {
        return (Reply::Gone, u32::MAX);
    }
    let request = Request {
        agent: 0,
        number: 0,
        body,
    };
    let step = book.apply(request);
    (step.answer.reply, book.probes())
}

/// A book that discards the logs of 1 and of the next numbers, up to as many as it has room for.
fn full_book(rt: &impl Abort, alloc: Global, logs: u32) -> Result<Book, Fail> {
    let limits = Limits::new(logs, 1, 1).ok_or("not limits")?;
    let mut book = Book::new(alloc, limits)?;
    for number in 1..=logs {
        let (reply, _) = apply(&mut book, discard(number)?);
        same(rt, (number, reply), (number, Reply::Discarded(0)));
    }
    Ok(book)
}

// There is no room for a key before all others, which leaves the larger half each time. A goodbye has
// no key.
#[test]
fn keys_that_a_full_book_compares(rt: HostRuntime) -> Result<(), Fail> {
    for (logs, most) in [(1, 1), (3, 2), (4_096, 13), (65_536, 17)] {
        let mut book = full_book(&rt, rt.alloc(), logs)?;
        let first = apply(&mut book, discard(0)?);
        same(&rt, first, (Reply::TableFull, most));
        same(&rt, apply(&mut book, Body::Bye), (Reply::Gone, 0));
    }
    Ok(())
}
