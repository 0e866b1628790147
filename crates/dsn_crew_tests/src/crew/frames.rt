//! Frames of requests for tests, as noticed-protocol(5) lays them out.
use crate::bodies::Kind;
use std::alloc::Global;
use std::test::Fail;

/// How the frame of an append of `x@y` begins, and what it has after its queue id: `x@y` failed, with
/// status 5.0.0.
const APPEND: &[u8] = b"\0\0\0\x20\x01\x01";

const FAILED: &[u8] = b"\0\0\0\x03x@y\x01\0\x055.0.0\0\0\0\0\0\0";

/// How the frame of a flush begins, and what it has after its queue id: moment 1700000000, arrival
/// 1699996400 and the return path `ann@example.com`.
const FLUSH: &[u8] = b"\0\0\0\x30\x01\x02";

const TO_ANN: &[u8] =
    b"\0\0\0\0\x65\x53\xf1\0\0\0\0\0\x65\x53\xe2\xf0\0\x0fann@example.com\0\0\0\0";

/// How the frame of a discard begins, which has nothing after its queue id.
const DISCARD: &[u8] = b"\0\0\0\x0b\x01\x03";

/// Adds the frame of a request about the bounce log of a message.
fn push(frames: &mut Vec<u8>, kind: Kind, number: u32, message: [u8; 2]) -> Result<(), Fail> {
    let (begin, end) = match kind {
        Kind::Append => (APPEND, FAILED),
        Kind::Flush => (FLUSH, TO_ANN),
        Kind::Discard => (DISCARD, b"".as_slice()),
    };
    let [a, b] = message;
    frames.extend_from_slice(begin)?;
    frames.extend_from_slice(&number.to_be_bytes())?;
    frames.extend_from_slice(&[1, 0, 2, a, b])?;
    frames.extend_from_slice(end)?;
    Ok(())
}

/// What a client sends: each of these about the bounce log of its message.
pub(super) fn frames_of(alloc: Global, asks: &[(Kind, [u8; 2])]) -> Result<Vec<u8>, Fail> {
    let mut frames = Vec::new(alloc);
    let mut number: u32 = 0;
    for (kind, message) in asks {
        push(&mut frames, *kind, number, *message)?;
        number = number.wrapping_add(1);
    }
    Ok(frames)
}

/// So many appends of `x@y` to the bounce log of this message.
pub(super) fn appends(alloc: Global, count: u32, message: [u8; 2]) -> Result<Vec<u8>, Fail> {
    let mut frames = Vec::new(alloc);
    for number in 0..count {
        push(&mut frames, Kind::Append, number, message)?;
    }
    Ok(frames)
}
