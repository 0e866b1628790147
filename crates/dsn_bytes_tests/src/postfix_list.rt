//! Attribute lists from readers that give them in pieces, and that end or fail at any byte.
use crate::assert_same::same;
use crate::device::{ALWAYS, reader};
use crate::postfix_request::{FLUSH_BOUNCE, VERP, WARN};
use crate::texts::{joined, text_of_size};
use dsn_fakes::PieceReader;
use dsn_outcome::Plain;
use dsn_postfix::{LONGEST_LIST, ListBuffer, ListFault};
use std::alloc::AllocGlobal;
use std::process::Abort;
use std::test::Fail;

/// Reads the next list of a reader into a buffer. Returns the fault, if there is one.
fn read_next(buffer: &mut ListBuffer, source: &mut Plain<PieceReader<'_>>) -> Option<ListFault> {
    buffer.read_next(source).err()
}

/// The buffer holds this list, the next one of the reader. Or the read fails with this fault, and
/// the buffer holds no list.
fn expect_next(
    rt: &impl Abort,
    buffer: &mut ListBuffer,
    source: &mut Plain<PieceReader<'_>>,
    want: Result<&[u8], ListFault>,
) {
    let fault = read_next(buffer, source);
    same(rt, (fault, buffer.list()), (want.err(), want.ok()));
}

/// The list that is read at most `most` bytes a call, from a reader that fails after `good` calls,
/// is this one. Or the read fails with this fault.
fn expect_list(
    rt: &(impl Abort + AllocGlobal),
    input: &[u8],
    (most, good): (usize, usize),
    want: Result<&[u8], ListFault>,
) {
    let mut buffer = ListBuffer::new(rt.alloc());
    expect_next(rt, &mut buffer, &mut reader(input, most, good), want);
}

#[test]
fn list_in_pieces_of_each_size(rt: HostRuntime) {
    let mut buffer = ListBuffer::new(rt.alloc());
    for most in 1..FLUSH_BOUNCE.len() + 2 {
        let mut source = reader(FLUSH_BOUNCE, most, ALWAYS);
        expect_next(&rt, &mut buffer, &mut source, Ok(FLUSH_BOUNCE));
    }
}

#[test]
fn list_that_ends_at_each_byte(rt: HostRuntime) {
    expect_list(&rt, b"", (1, ALWAYS), Err(ListFault::Nothing));
    expect_list(&rt, b"\0", (1, ALWAYS), Ok(b"\0"));
    for end in 1..FLUSH_BOUNCE.len() {
        for most in [1, 7, 4_096] {
            let cut = &FLUSH_BOUNCE[..end];
            expect_list(&rt, cut, (most, ALWAYS), Err(ListFault::CutShort));
        }
    }
}

#[test]
fn reader_that_fails_at_each_byte(rt: HostRuntime) {
    let whole = FLUSH_BOUNCE.len();
    for good in 0..whole {
        expect_list(&rt, FLUSH_BOUNCE, (1, good), Err(ListFault::Read));
    }
    // no further read is made after the end of the list
    expect_list(&rt, FLUSH_BOUNCE, (1, whole), Ok(FLUSH_BOUNCE));
}

#[test]
fn bytes_behind_a_list(rt: HostRuntime) -> Result<(), Fail> {
    let input = joined(rt.alloc(), &[WARN, VERP])?;
    // a piece has the end of the list and more bytes, unless pieces end where the list does
    for most in 2..input.len() + 1 {
        let want = if WARN.len() % most == 0 {
            Ok(WARN)
        } else {
            Err(ListFault::Trailing)
        };
        expect_list(&rt, &input, (most, ALWAYS), want);
    }
    Ok(())
}

#[test]
fn lists_one_after_another(rt: HostRuntime) -> Result<(), Fail> {
    let input = joined(rt.alloc(), &[WARN, VERP])?;
    let mut source = reader(&input, 1, ALWAYS);
    let mut buffer = ListBuffer::new(rt.alloc());
    for want in [Ok(WARN), Ok(VERP), Err(ListFault::Nothing)] {
        expect_next(&rt, &mut buffer, &mut source, want);
    }
    Ok(())
}

/// A list of `size` bytes is read in pieces of each size, or is too long.
fn expect_long(
    rt: &(impl Abort + AllocGlobal),
    size: usize,
    fault: Option<ListFault>,
) -> Result<(), Fail> {
    let list = text_of_size(rt.alloc(), b"a\0", size, b"\0\0")?;
    let want = match fault {
        Some(fault) => Err(fault),
        None => Ok(list.as_slice()),
    };
    for most in [1_000, 4_095, 65_536, 100_000] {
        expect_list(rt, &list, (most, ALWAYS), want);
    }
    Ok(())
}

#[test]
fn longest_list(rt: HostRuntime) -> Result<(), Fail> {
    for (size, fault) in [
        (LONGEST_LIST - 1, None),
        (LONGEST_LIST, None),
        (LONGEST_LIST + 1, Some(ListFault::TooLong)),
        (2 * LONGEST_LIST, Some(ListFault::TooLong)),
    ] {
        expect_long(&rt, size, fault)?;
    }
    Ok(())
}
