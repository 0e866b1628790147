//! Replies from readers that give them in pieces, and that end or fail at any byte, and the queue
//! ids in replies.
use crate::assert_same::same;
use crate::device::{ALWAYS, reader};
use crate::texts::text_of_size;
use dsn_smtp::{LONGEST_REPLY, ReplyBuffer, ReplyClass, ReplyCode, ReplyFault, queue_id_in};
use std::alloc::AllocGlobal;
use std::process::Abort;
use std::test::Fail;

/// A reply of three lines (RFC 5321 section 4.2.1).
const EXTENSIONS: &[u8] = b"250-mx.example.org\r\n250-PIPELINING\r\n250 8BITMIME\r\n";

/// The code of the reply that is read into a buffer at most `most` bytes a call, from a reader that
/// fails after `good` calls.
fn read_next(
    buffer: &mut ReplyBuffer,
    input: &[u8],
    most: usize,
    good: usize,
) -> Result<[u8; 3], ReplyFault> {
    match buffer.read_next(&mut reader(input, most, good)) {
        Ok(code) => Ok(code.digits()),
        Err(fault) => Err(fault),
    }
}

/// A reply that is read at most `most` bytes a call, from a reader that fails after `good` calls,
/// has this code or this fault.
fn expect_code(
    rt: &impl Abort,
    input: &[u8],
    (most, good): (usize, usize),
    want: Result<[u8; 3], ReplyFault>,
) {
    let found = read_next(&mut ReplyBuffer::new(), input, most, good);
    same(rt, (input, most, good, found), (input, most, good, want));
}

/// A reply that is read into a buffer at most `most` bytes a call is the one of three lines.
fn expect_extensions(rt: &impl Abort, buffer: &mut ReplyBuffer, most: usize) {
    let code = read_next(buffer, EXTENSIONS, most, ALWAYS);
    let found = (most, code, buffer.bytes(), buffer.last_text());
    same(rt, found, (most, Ok(*b"250"), EXTENSIONS, b"8BITMIME"));
}

#[test]
fn a_reply_in_pieces_of_each_size(rt: HostRuntime) {
    let mut buffer = ReplyBuffer::new();
    for most in 1..EXTENSIONS.len() + 2 {
        expect_extensions(&rt, &mut buffer, most);
    }
}

#[test]
fn a_reply_that_ends_at_each_byte(rt: HostRuntime) {
    expect_code(&rt, b"", (1, ALWAYS), Err(ReplyFault::Nothing));
    for end in 1..EXTENSIONS.len() {
        for most in [1, 7, 4_096] {
            let cut = &EXTENSIONS[..end];
            expect_code(&rt, cut, (most, ALWAYS), Err(ReplyFault::CutShort));
        }
    }
}

#[test]
fn a_reader_that_fails_at_each_byte(rt: HostRuntime) {
    // no further read is made after the end of the reply
    let whole = EXTENSIONS.len();
    for good in 0..whole {
        expect_code(&rt, EXTENSIONS, (1, good), Err(ReplyFault::Read));
    }
    expect_code(&rt, EXTENSIONS, (1, whole), Ok(*b"250"));
}

/// Bytes that are a reply, and bytes that aren't.
const REPLIES: [(&[u8], Result<[u8; 3], ReplyFault>); 15] = [
    (b"220 mx.example.org ESMTP\r\n", Ok(*b"220")),
    (b"354\r\n", Ok(*b"354")),
    (b"354 \r\n", Ok(*b"354")),
    (b"550 5.1.1 \xc3\xa4: unknown\r\n", Ok(*b"550")),
    (b"250-a\r\n250-\r\n250\r\n", Ok(*b"250")),
    (b"250-a\r\n251 b\r\n", Err(ReplyFault::NoReply)),
    (b"250-a\r\n550 b\r\n", Err(ReplyFault::NoReply)),
    (b"120 a\r\n", Err(ReplyFault::NoReply)),
    (b"620 a\r\n", Err(ReplyFault::NoReply)),
    (b"260 a\r\n", Err(ReplyFault::NoReply)),
    (b"25a a\r\n", Err(ReplyFault::NoReply)),
    (b"250_a\r\n", Err(ReplyFault::NoReply)),
    (b"250 a\n", Err(ReplyFault::NoReply)),
    (b"250 a\r\r\n", Err(ReplyFault::NoReply)),
    (b"\r\n", Err(ReplyFault::NoReply)),
];

/// The most bytes of two replies that a call gives, and the result. A piece with the end of the
/// first reply has bytes of the second, unless it ends there.
const PIECES_OF_TWO: [(usize, Result<[u8; 3], ReplyFault>); 5] = [
    (1, Ok(*b"250")),
    (7, Ok(*b"250")),
    (6, Err(ReplyFault::Trailing)),
    (8, Err(ReplyFault::Trailing)),
    (100, Err(ReplyFault::Trailing)),
];

/// Bytes are read with this result, both one byte a call and at once.
fn expect_reply(rt: &impl Abort, &(input, want): &(&[u8], Result<[u8; 3], ReplyFault>)) {
    expect_code(rt, input, (1, ALWAYS), want);
    expect_code(rt, input, (4_096, ALWAYS), want);
}

/// The first of two replies is read with this result, at most `most` bytes a call.
fn expect_first(rt: &impl Abort, &(most, want): &(usize, Result<[u8; 3], ReplyFault>)) {
    expect_code(rt, b"250 a\r\n550 b\r\n", (most, ALWAYS), want);
}

#[test]
fn bytes_that_are_a_reply_and_bytes_that_are_none(rt: HostRuntime) {
    for case in &REPLIES {
        expect_reply(&rt, case);
    }
    for case in &PIECES_OF_TWO {
        expect_first(&rt, case);
    }
}

/// The lengths of replies, and the results of reading them.
const LENGTHS: [(usize, Result<[u8; 3], ReplyFault>); 4] = [
    (LONGEST_REPLY - 1, Ok(*b"250")),
    (LONGEST_REPLY, Ok(*b"250")),
    (LONGEST_REPLY + 1, Err(ReplyFault::TooLong)),
    (2 * LONGEST_REPLY, Err(ReplyFault::TooLong)),
];

/// A reply of `size` bytes is read with this result in pieces of each size.
fn expect_long(
    rt: &(impl AllocGlobal + Abort),
    &(size, want): &(usize, Result<[u8; 3], ReplyFault>),
) -> Result<(), Fail> {
    let reply = text_of_size(rt.alloc(), b"250 ", size, b"\r\n")?;
    for most in [1_000, 4_095, 100_000] {
        expect_code(rt, &reply, (most, ALWAYS), want);
    }
    Ok(())
}

#[test]
fn the_longest_reply(rt: HostRuntime) -> Result<(), Fail> {
    for case in &LENGTHS {
        expect_long(&rt, case)?;
    }
    Ok(())
}

/// Codes and their classes, and digits that aren't a code.
const CLASSES: [([u8; 3], Option<ReplyClass>); 8] = [
    (*b"250", Some(ReplyClass::Positive)),
    (*b"354", Some(ReplyClass::Intermediate)),
    (*b"451", Some(ReplyClass::RefusedForNow)),
    (*b"559", Some(ReplyClass::RefusedForGood)),
    (*b"199", None),
    (*b"600", None),
    (*b"260", None),
    (*b"25x", None),
];

/// The digits are a code of this class, or aren't a code.
fn expect_class(rt: &impl Abort, &(digits, want): &([u8; 3], Option<ReplyClass>)) {
    let class = match ReplyCode::new(digits) {
        Some(code) => Some(code.class()),
        None => None,
    };
    same(rt, (digits, class), (digits, want));
}

#[test]
fn what_codes_say(rt: HostRuntime) {
    for case in &CLASSES {
        expect_class(&rt, case);
    }
}

/// Texts of replies, and the queue ids in them.
const TEXTS: [(&[u8], Option<&[u8]>); 9] = [
    (b"2.0.0 Ok: queued as 4F9D195432C", Some(b"4F9D195432C")),
    (b"queued as 3pt2mN2VXxznll", Some(b"3pt2mN2VXxznll")),
    (b"2.0.0 Ok: queued as ", None),
    (b"2.0.0 Ok: queued as 4F9D195432C.", None),
    (b"2.0.0 Ok: Queued as 4F9D195432C", None),
    (b"2.0.0 Ok: queued as 4F9D195432C ", None),
    (b"4F9D195432C", None),
    (b"", None),
    (b"queued as 123456789012345678901234567890123", None),
];

/// A text of a reply ends with this queue id, or has none.
fn expect_queue_id(rt: &impl Abort, &(text, want): &(&[u8], Option<&[u8]>)) {
    let id = queue_id_in(text);
    let found = match &id {
        Some(id) => Some(id.bytes()),
        None => None,
    };
    same(rt, (text, found), (text, want));
}

#[test]
fn queue_ids_in_texts(rt: HostRuntime) {
    for case in &TEXTS {
        expect_queue_id(&rt, case);
    }
}
