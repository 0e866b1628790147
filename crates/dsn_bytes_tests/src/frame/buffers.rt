//! Frames through one buffer.
use crate::assert_same::same;
use crate::device::{ALWAYS, reader};
use crate::texts::text_of_size;
use dsn_fakes::PieceReader;
use dsn_frame::FrameBuffer;
use dsn_outcome::Plain;
use std::process::Abort;
use std::test::Fail;

/// Reads the next frame into a buffer. Returns the number of the fault, or 0.
fn read_next(buffer: &mut FrameBuffer, source: &mut Plain<PieceReader<'_>>) -> u32 {
    match buffer.read_next(source) {
        Ok(()) => 0,
        Err(fault) => fault.code(),
    }
}

/// The buffer holds the next frame, which has these bytes. Or it holds no frame, and the fault has
/// this number.
fn expect_next(
    rt: &impl Abort,
    buffer: &mut FrameBuffer,
    source: &mut Plain<PieceReader<'_>>,
    (want, number): (Option<&[u8]>, u32),
) {
    same(rt, read_next(buffer, source), number);
    let found = match buffer.frame() {
        Some(frame) => Some(frame.bytes()),
        None => None,
    };
    same(rt, found, want);
}

/// Frames of eight, one and five bytes, and the beginning of another one.
const FRAMES: [&[u8]; 3] = [b"\0\0\0\x08longlong", b"\0\0\0\x01s", b"\0\0\0\x05again"];

const INPUT: &[u8] = b"\0\0\0\x08longlong\0\0\0\x01s\0\0\0\x05again\0\0\0\x05cut";

#[test]
fn short_frames_after_long_ones(rt: HostRuntime) {
    for most in 1..20 {
        let mut buffer = FrameBuffer::new(rt.alloc());
        let mut source = reader(INPUT, most, ALWAYS);
        for frame in FRAMES {
            expect_next(&rt, &mut buffer, &mut source, (Some(frame), 0));
        }
        expect_next(&rt, &mut buffer, &mut source, (None, 13));
        expect_next(&rt, &mut buffer, &mut source, (None, 0));
    }
}

#[test]
fn longest_frame_after_a_short_one(rt: HostRuntime) -> Result<(), Fail> {
    let input = text_of_size(rt.alloc(), b"\0\0\0\x01s\0\x01\0\0", 65_545, b"")?;
    let mut buffer = FrameBuffer::new(rt.alloc());
    let mut source = reader(&input, 5_000, ALWAYS);
    expect_next(&rt, &mut buffer, &mut source, (input.get(..5), 0));
    expect_next(&rt, &mut buffer, &mut source, (input.get(5..), 0));
    expect_next(&rt, &mut buffer, &mut source, (None, 0));
    Ok(())
}
