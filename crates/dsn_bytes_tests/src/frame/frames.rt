//! Frames from readers that give them in pieces, or that fail at each call.
use crate::assert_same::same;
use crate::device::{ALWAYS, reader};
use crate::texts::text_of_size;
use dsn_fakes::PieceReader;
use dsn_frame::read_frame;
use dsn_outcome::Plain;
use std::alloc::AllocGlobal;
use std::process::Abort;
use std::test::Fail;

const TWO_FRAMES: &[u8] = b"\0\0\0\x03abc\0\0\0\x01d";

/// The next frame has this body. Or the input ends, or the fault has this number.
fn expect_next(
    rt: &(impl AllocGlobal + Abort),
    source: &mut Plain<PieceReader<'_>>,
    want: Result<Option<&[u8]>, u32>,
) {
    let read = read_frame(rt.alloc(), source);
    let found = match &read {
        Ok(Some(frame)) => Ok(Some(frame.body())),
        Ok(None) => Ok(None),
        Err(fault) => Err(fault.code()),
    };
    same(rt, found, want);
}

#[test]
fn frames_in_pieces(rt: HostRuntime) {
    for most in 1..20 {
        let mut source = reader(TWO_FRAMES, most, ALWAYS);
        for want in [Some(b"abc".as_slice()), Some(b"d"), None] {
            expect_next(&rt, &mut source, Ok(want));
        }
    }
}

#[test]
fn reader_that_fails(rt: HostRuntime) {
    for good in 0..7 {
        expect_next(&rt, &mut reader(TWO_FRAMES, 1, good), Err(14));
    }
    // a whole frame needs no further read
    expect_next(&rt, &mut reader(TWO_FRAMES, 1, 7), Ok(Some(b"abc")));
}

/// The first frame takes this number of reads.
fn expect_reads(rt: &(impl AllocGlobal + Abort), input: &[u8], most: usize, reads: usize) {
    let mut source = reader(input, most, ALWAYS);
    expect_next(rt, &mut source, Ok(input.get(4..)));
    let left = source.into_inner().good;
    same(rt, left.saturating_add(reads), ALWAYS);
}

#[test]
fn longest_body_has_few_reads(rt: HostRuntime) -> Result<(), Fail> {
    let input = text_of_size(rt.alloc(), b"\0\x01\0\0", 65_540, b"")?;
    // one read for the length, and the others for the body
    for (most, reads) in [(1, 65_540), (5_000, 15), (65_536, 2)] {
        expect_reads(&rt, &input, most, reads);
    }
    Ok(())
}
