//! A crew over a book that releases closed keys: which key makes room for a new one. That is seen
//! by what the client hears, and by the logs that are open at last.
use super::client::{ANSWER, bytes_in, port_of, room_for};
use super::frames::frames_of;
use super::keepers::run_ports;
use crate::assert_same::same;
use crate::bodies::Kind;
use crate::open_logs::open_logs;
use dsn_book::{Limits, RuledBook};
use dsn_crew::CrewCause;
use dsn_device::Plain;
use dsn_report::Site;
use std::alloc::Global;
use std::process::Abort;
use std::sync::Wait;
use std::sync::atomic::AtomicU8;
use std::test::Fail;
use std::thread::Threads;
use std::time::Clock;

/// One client's requests, if two keys may be held. K2 is closed before K1. So K3 makes room by K2,
/// and K1 is closed still; K4 makes room by K1; then both held keys are open, and nothing makes room
/// for K1.
const ASKS: [(Kind, [u8; 2]); 8] = [
    (Kind::Append, *b"K1"),
    (Kind::Append, *b"K2"),
    (Kind::Discard, *b"K2"),
    (Kind::Discard, *b"K1"),
    (Kind::Append, *b"K3"),
    (Kind::Append, *b"K1"),
    (Kind::Append, *b"K4"),
    (Kind::Append, *b"K1"),
];

/// The reply and the value of each answer, as noticed-protocol(5) numbers replies.
const ANSWERS: [(u8, u8); 8] = [
    (LOGGED, 0),
    (LOGGED, 0),
    (DISCARDED, 1),
    (DISCARDED, 1),
    (LOGGED, 0),
    (CLOSED, 0),
    (LOGGED, 0),
    (TABLE_FULL, 0),
];

const LOGGED: u8 = 1;

const CLOSED: u8 = 2;

const TABLE_FULL: u8 = 3;

const DISCARDED: u8 = 8;

/// The result of a crew of one agent, whose client sends these requests.
fn run_releasing<R: Threads + Wait + Clock + Sync>(
    rt: &R,
    alloc: Global,
    heard: &[AtomicU8],
) -> Result<(Option<CrewCause>, RuledBook), Fail> {
    let limits = Limits::new(2, 8, 8).ok_or("limits")?;
    let book = RuledBook::new(alloc, limits, true)?;
    let frames = frames_of(alloc, &ASKS)?;
    let mut ports = Vec::new(alloc);
    ports.push(port_of(&frames, heard))?;
    let site = Site::new(alloc, b"mx.example.net")?;
    let written = Plain::new(Vec::new(alloc));
    let (cause, book) = run_ports(rt, alloc, book, ports, site, written);
    Ok((cause, book.ok_or("no book is returned")?))
}

/// The client heard these answers, in this order, and no other byte.
fn expect_answers(rt: &impl Abort, heard: &[u8]) {
    let mut rest = heard;
    let mut number: u8 = 0;
    for (reply, value) in ANSWERS {
        let (first, later) = rest.split_at(ANSWER.min(rest.len()));
        let frame = [0, 0, 0, 10, 1, reply, 0, 0, 0, number, 0, 0, 0, value];
        same(rt, first, frame.as_slice());
        number = number.wrapping_add(1);
        rest = later;
    }
    same(rt, rest, [0; ANSWER].as_slice());
}

/// The logs of K3 and K4 are open, in some order, with an outcome each, and no key is closed.
fn expect_open_logs(rt: &impl Abort, alloc: Global, book: &RuledBook) -> Result<(), Fail> {
    let open = open_logs(alloc, book.book())?;
    same(rt, open.len(), 2);
    for line in &open {
        let id = line.key.id.bytes();
        same(rt, line.count, 1);
        same(rt, id == b"K3".as_slice() || id == b"K4".as_slice(), true);
    }
    let RuledBook::Releasing(book) = book else {
        return Err(Fail::from("no key makes room"));
    };
    let is_any_closed = book.closed().iter().any(|closing| closing.key().is_some());
    same(rt, is_any_closed, false);
    Ok(())
}

#[test]
fn key_closed_longest_ago_makes_room(rt: HostRuntime) -> Result<(), Fail> {
    let alloc = rt.alloc();
    let room = room_for(alloc, 8)?;
    let (cause, book) = run_releasing(&rt, alloc, &room)?;
    same(&rt, cause, None);
    expect_answers(&rt, &bytes_in(alloc, &room)?);
    expect_open_logs(&rt, alloc, &book)
}
