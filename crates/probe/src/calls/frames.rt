//! Frames and their bodies.
use crate::calls::begin;
use dsn_device::Plain;
use dsn_frame::{FrameBuffer, decode_request, encode_request, read_frame};
use std::alloc::Global;

/// The body of an append of `bob@example.org`, failed with status 5.1.1, to the bounce log `A1B2C3`.
pub(crate) const APPEND: &[u8] =
    b"\x01\x01\0\0\0\0\x01\0\x06A1B2C3\0\0\0\x0fbob@example.org\x01\0\x055.1.1\0\0\0\0\0\0";

/// The body of a flush of that log with moment 1700000000, arrival 1699996400 and the return path
/// `ann@example`.
pub(crate) const FLUSH: &[u8] =
    b"\x01\x02\0\0\0\0\x01\0\x06A1B2C3\0\0\0\0\x65\x53\xf1\0\0\0\0\0\x65\x53\xe2\xf0\0\x0bann@example\0\0\0\0";

/// A frame of three bytes, and lengths that no frame has: 0 and 65,537.
pub(crate) const FRAME: &[u8] = b"\0\0\0\x03abc";

pub(crate) const EMPTY: &[u8] = b"\0\0\0\0";

pub(crate) const TOO_LONG: &[u8] = b"\0\x01\0\x01";

/// Reads a frame.
pub(crate) fn read(rt: &impl Print, alloc: Global, input: &[u8]) -> Option<u32> {
    let mut source = Plain::new(input);
    begin(rt)?;
    match read_frame(alloc, &mut source) {
        Ok(_) => Some(0),
        Err(fault) => Some(fault.code()),
    }
}

/// Reads a frame into a buffer that is kept.
pub(crate) fn read_next(rt: &impl Print, alloc: Global) -> Option<u32> {
    let mut source = Plain::new(FRAME);
    let mut buffer = FrameBuffer::new(alloc);
    begin(rt)?;
    match buffer.read_next(&mut source) {
        Ok(()) => Some(0),
        Err(fault) => Some(fault.code()),
    }
}

/// Decodes a body.
pub(crate) fn decode(rt: &impl Print, alloc: Global, body: &[u8]) -> Option<u32> {
    begin(rt)?;
    match decode_request(alloc, body) {
        Ok(_) => Some(0),
        Err(fault) => Some(fault.code()),
    }
}

/// Encodes the request that this body encodes.
pub(crate) fn encode(rt: &impl Print, alloc: Global, body: &[u8]) -> Option<u32> {
    let (number, body) = decode_request(alloc, body).ok()?;
    begin(rt)?;
    Some(if encode_request(alloc, number, &body).is_ok() {
        0
    } else {
        9
    })
}
