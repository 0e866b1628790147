//! Answers and their bytes.
use crate::assert_same::same;
use dsn_frame::{Spoken, decode_answer, encode_answer};
use dsn_outcome::{Replied, Reply};
use std::process::Abort;

/// Each reply, its serial, if it has one, and the frame of the answer to the request 0x01020304.
const REPLIES: [(Reply, Option<u64>, &[u8]); 14] = [
    (
        Reply::Logged(0),
        None,
        b"\0\0\0\x0a\x01\x01\x01\x02\x03\x04\0\0\0\0",
    ),
    (
        Reply::Logged(0x0102_0304),
        None,
        b"\0\0\0\x0a\x01\x01\x01\x02\x03\x04\x01\x02\x03\x04",
    ),
    (
        Reply::Closed,
        None,
        b"\0\0\0\x0a\x01\x02\x01\x02\x03\x04\0\0\0\0",
    ),
    (
        Reply::TableFull,
        None,
        b"\0\0\0\x0a\x01\x03\x01\x02\x03\x04\0\0\0\0",
    ),
    (
        Reply::LogFull,
        None,
        b"\0\0\0\x0a\x01\x04\x01\x02\x03\x04\0\0\0\0",
    ),
    (
        Reply::Nothing,
        None,
        b"\0\0\0\x0a\x01\x05\x01\x02\x03\x04\0\0\0\0",
    ),
    (
        Reply::NoReturn(7),
        None,
        b"\0\0\0\x0a\x01\x06\x01\x02\x03\x04\0\0\0\x07",
    ),
    (
        Reply::Sealed(1_000),
        None,
        b"\0\0\0\x0a\x01\x07\x01\x02\x03\x04\0\0\x03\xe8",
    ),
    (
        Reply::Sealed(1),
        Some(258),
        b"\0\0\0\x12\x01\x07\x01\x02\x03\x04\0\0\0\x01\0\0\0\0\0\0\x01\x02",
    ),
    (
        Reply::Discarded(u32::MAX),
        None,
        b"\0\0\0\x0a\x01\x08\x01\x02\x03\x04\xff\xff\xff\xff",
    ),
    (
        Reply::Gone,
        None,
        b"\0\0\0\x0a\x01\x09\x01\x02\x03\x04\0\0\0\0",
    ),
    (
        Reply::Forgotten,
        None,
        b"\0\0\0\x0a\x01\x0b\x01\x02\x03\x04\0\0\0\0",
    ),
    (
        Reply::NotClosed,
        None,
        b"\0\0\0\x0a\x01\x0c\x01\x02\x03\x04\0\0\0\0",
    ),
    (
        Reply::Differs(258),
        None,
        b"\0\0\0\x0a\x01\x0d\x01\x02\x03\x04\0\0\x01\x02",
    ),
];

/// The answer to the request 0x01020304 has this frame, and its body is decoded as the answer.
fn expect_frame(rt: &impl Abort, answer: Spoken, frame: &[u8]) {
    same(rt, encode_answer(0x0102_0304, &answer).bytes(), frame);
    let read = match frame.split_first_chunk::<4>() {
        Some((_, body)) => decode_answer(body).ok(),
        None => None,
    };
    same(rt, read, Some((0x0102_0304, answer)));
}

#[test]
fn answers_have_their_bytes(rt: HostRuntime) {
    for (reply, serial, frame) in REPLIES {
        expect_frame(&rt, Spoken::Reply(Replied { reply, serial }), frame);
    }
    expect_frame(
        &rt,
        Spoken::Refused(24),
        b"\0\0\0\x0a\x01\x0a\x01\x02\x03\x04\0\0\0\x18",
    );
}
