//! Bodies are decoded, and their requests are encoded again.
//!
//! tests/refused_bodies.py passes refused bodies, and bodies at the bounds of each field, to the
//! built program. tests/fuzz_batch.py compares decoded bodies with a plain reading of
//! noticed-protocol(5).
use crate::assert_same::same;
use crate::texts::text_of_size;
use dsn_frame::{decode_request, encode_request, next_request};
use std::alloc::{AllocGlobal, Global};
use std::process::Abort;
use std::test::Fail;

/// Bodies, each with the body that its request is encoded as.
const BODIES: [(&[u8], &[u8]); 19] = [
    // an append without optional texts, one with all of them, and one with a tab and a line's end
    (BOB, BOB),
    (ALL_TEXTS, ALL_TEXTS),
    (
        b"\x01\x01\0\0\0\0\x01\0\x02K1\0\x15bob.alias@example.org\0\x0fbob@example.org\x01\0\x055.1.1\0\x10mail.example.org\0\x03a\tb\0\x17host said:\nno such user",
        ALL_TEXTS,
    ),
    // two moments
    (DATED, DATED),
    // an append without moments is encoded in version 1
    (
        b"\x02\x01\0\0\0\0\x02\0\x02X1\0\0\0\x0fbob@example.org\x02\0\x054.4.1\0\0\0\0\0\0\xff\xff\xff\xff\xff\xff\xff\xff\xff\xff\xff\xff\xff\xff\xff\xff",
        b"\x01\x01\0\0\0\0\x02\0\x02X1\0\0\0\x0fbob@example.org\x02\0\x054.4.1\0\0\0\0\0\0",
    ),
    // a recipient of the type fax, with an original address of the type x400 and a diagnostic of
    // the mail system's own; and two extension fields
    (TYPED, TYPED),
    (EXTENDED, EXTENDED),
    // flushes with a return path alone, with none, and with all texts
    (ANN, ANN),
    (NOBODY, NOBODY),
    (ALL_OF_A_FLUSH, ALL_OF_A_FLUSH),
    // a flush with the usual terms is encoded in version 1
    (
        b"\x03\x02\0\0\0\x08\x02\0\x01Q\0\0\0\0\x65\x53\xf1\0\0\0\0\0\x65\x53\xe2\xf0\0\x03a@b\0\0\0\x02h\n\xff\xff\xff\xff\0\0\0\0",
        b"\x01\x02\0\0\0\x08\x02\0\x01Q\0\0\0\0\x65\x53\xf1\0\0\0\0\0\x65\x53\xe2\xf0\0\x03a@b\0\0\0\x02h\n",
    ),
    // the expected number of outcomes, the returned part, the wording, and extension fields
    (EXPECTING, EXPECTING),
    (RETURNING, RETURNING),
    (WORDED, WORDED),
    (WITH_FIELDS, WITH_FIELDS),
    // discards and Forgets; later versions lay them out as the first version that has them
    (DISCARD, DISCARD),
    (b"\x03\x03\xff\xff\xff\xff\x03\0\x02K1", DISCARD),
    (FORGET, FORGET),
    (b"\x03\x04\0\0\0\0\x01\0\x02K1", FORGET),
];

const BOB: &[u8] =
    b"\x01\x01\0\0\0\0\x01\0\x06A1B2C3\0\0\0\x0fbob@example.org\x01\0\x055.1.1\0\0\0\0\0\0";

const ALL_TEXTS: &[u8] =
    b"\x01\x01\0\0\0\0\x01\0\x02K1\0\x15bob.alias@example.org\0\x0fbob@example.org\x01\0\x055.1.1\0\x10mail.example.org\0\x03a?b\0\x17host said:?no such user";

const DATED: &[u8] =
    b"\x02\x01\0\0\0\0\x02\0\x02X1\0\0\0\x0fbob@example.org\x02\0\x054.4.1\0\0\0\0\0\0\0\0\0\0\x65\x53\xf1\0\0\0\0\0\x65\x5a\x88\x80";

const TYPED: &[u8] =
    b"\x03\x01\0\0\0\x05\x01\0\x02K1\0\x05/C=US\0\x03x@y\x01\0\x055.0.0\0\0\0\x04busy\0\0\xff\xff\xff\xff\xff\xff\xff\xff\xff\xff\xff\xff\xff\xff\xff\xff\0\x03fax\0\x04x400\0\x09X-Postfix\0\0";

const EXTENDED: &[u8] =
    b"\x03\x01\0\0\0\x05\x01\0\x02K1\0\0\0\x03x@y\x01\0\x055.0.0\0\0\0\0\0\0\xff\xff\xff\xff\xff\xff\xff\xff\xff\xff\xff\xff\xff\xff\xff\xff\0\0\0\0\0\0\0\x0eX-A: b\nX-C: d\n";

const ANN: &[u8] =
    b"\x01\x02\0\0\0\x01\x01\0\x06A1B2C3\0\0\0\0\x65\x53\xf1\0\0\0\0\0\x65\x53\xe2\xf0\0\x0fann@example.com\0\0\0\0";

const NOBODY: &[u8] =
    b"\x01\x02\0\0\0\x01\x01\0\x06A1B2C3\0\0\0\0\x65\x53\xf1\0\0\0\0\0\x65\x53\xe2\xf0\0\0\0\0\0\0";

const ALL_OF_A_FLUSH: &[u8] =
    b"\x01\x02\0\0\0\x08\x02\0\x01Q\0\0\0\0\x65\x53\xf1\0\0\0\0\0\x65\x53\xe2\xf0\0\x03a@b\0\x02Q1\0\x03h\n\0";

const EXPECTING: &[u8] =
    b"\x03\x02\0\0\0\x08\x02\0\x01Q\0\0\0\0\x65\x53\xf1\0\0\0\0\0\x65\x53\xe2\xf0\0\x03a@b\0\0\0\x02h\n\x01\x02\x03\x04\0\0\0\0";

const RETURNING: &[u8] =
    b"\x03\x02\0\0\0\x08\x02\0\x01Q\0\0\0\0\x65\x53\xf1\0\0\0\0\0\x65\x53\xe2\xf0\0\x03a@b\0\0\0\x02h\n\xff\xff\xff\xff\x01\0\0\0";

const WORDED: &[u8] =
    b"\x03\x02\0\0\0\x08\x02\0\x01Q\0\0\0\0\x65\x53\xf1\0\0\0\0\0\x65\x53\xe2\xf0\0\x03a@b\0\0\0\x02h\n\xff\xff\xff\xff\0\x01\0\0";

const WITH_FIELDS: &[u8] =
    b"\x03\x02\0\0\0\x08\x02\0\x01Q\0\0\0\0\x65\x53\xf1\0\0\0\0\0\x65\x53\xe2\xf0\0\x03a@b\0\0\0\x02h\n\xff\xff\xff\xff\0\0\0\x2aX-Postfix-Queue-ID: 4F9D195432C\nX-A: : b \n";

const DISCARD: &[u8] = b"\x01\x03\xff\xff\xff\xff\x03\0\x02K1";

const FORGET: &[u8] = b"\x02\x04\0\0\0\0\x01\0\x02K1";

/// The frame of a body's request, encoded again. Returns `None` if the body or the memory is
/// refused.
fn written_again(alloc: Global, body: &[u8]) -> Option<Vec<u8>> {
    match decode_request(alloc, body) {
        Ok((number, request)) => encode_request(alloc, number, &request).ok(),
        Err(_) => None,
    }
}

/// The first body's request is encoded as the second body, in a frame of that length.
fn expect_written(
    rt: &(impl AllocGlobal + Abort),
    body: &[u8],
    written: &[u8],
) -> Result<(), Fail> {
    let frame = written_again(rt.alloc(), body).ok_or("it is refused")?;
    let (length, rest) = frame.split_first_chunk::<4>().ok_or("no length")?;
    same(rt, rest, written);
    same(rt, u32::from_be_bytes(*length) as usize, written.len());
    Ok(())
}

#[test]
fn bodies_are_written_again(rt: HostRuntime) -> Result<(), Fail> {
    for (body, written) in &BODIES {
        expect_written(&rt, body, written)?;
    }
    Ok(())
}

/// A flush up to its header, which has 32,768 bytes.
const BEFORE_LONGEST_HEADER: &[u8] =
    b"\x01\x02\0\0\0\x08\x02\0\x01Q\0\0\0\0\x65\x53\xf1\0\0\0\0\0\x65\x53\xe2\xf0\0\x03a@b\0\0\x80\0";

#[test]
fn longest_header_is_written_again(rt: HostRuntime) -> Result<(), Fail> {
    let size = BEFORE_LONGEST_HEADER.len() + 32_768;
    let body = text_of_size(rt.alloc(), BEFORE_LONGEST_HEADER, size, b"")?;
    expect_written(&rt, &body, &body)
}

/// Whether the frame at this place asks about a key. A refusal is its number, and whether the
/// session ends with it.
fn asked(alloc: Global, place: u32, bytes: &[u8]) -> Result<bool, (u32, bool)> {
    match next_request(alloc, place, bytes) {
        Ok(body) => Ok(body.key().is_some()),
        Err(refusal) => Err((refusal.code(), refusal.ends())),
    }
}

#[test]
fn frames_in_turn_are_asked(rt: HostRuntime) {
    for (place, bytes, want) in [
        (u32::MAX, DISCARD, Ok(true)),
        (2, DISCARD, Err((46, true))),
        (2, &DISCARD[..9], Err((23, false))),
    ] {
        same(&rt, (place, asked(rt.alloc(), place, bytes)), (place, want));
    }
}
