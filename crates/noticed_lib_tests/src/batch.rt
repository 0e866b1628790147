//! Runs over one append and one flush: over memory, with a reader and with a writer that fail in
//! mid-stream.
use crate::assert_same::same;
use dsn_fakes::{EMPTY, ONE_NOTICE, PieceReader, PieceWriter};
use dsn_outcome::Plain;
use noticed_lib::{BatchEnd, Limits, MemoryRun, Site, batch, batch_bytes};
use std::alloc::Global;
use std::io::{Read, Write};
use std::process::Abort;
use std::test::Fail;

/// One append and one flush of `B A1B2C3`, of 52 and 56 bytes.
pub(crate) const ONE_MESSAGE: &[u8] = b"\
\0\0\0\x30\x01\x01\0\0\0\0\x01\0\x06A1B2C3\0\0\
\0\x0fbob@example.org\x01\0\x055.1.1\0\0\0\0\0\0\
\0\0\0\x34\x01\x02\0\0\0\x01\x01\0\x06A1B2C3\
\0\0\0\0\x65\x53\xf1\0\0\0\0\0\x65\x53\xe2\xf0\
\0\x0fann@example.com\0\0\0\0";

/// How a run ended: whether its outbox is whole, the number of its fault, or 0, and its status.
pub(crate) type End = (bool, u32, u8);

/// The site of all runs.
fn site(alloc: Global) -> Result<Site, Fail> {
    Ok(Site::new(alloc, b"mx.example.net")?)
}

/// What a run over these bytes leaves: its outbox, its notes, and its end.
fn run_bytes(alloc: Global, input: &[u8]) -> Result<(Vec<u8>, Vec<u8>, End), Fail> {
    let run = batch_bytes(alloc, &Limits::of_program(), site(alloc)?, input);
    let MemoryRun {
        outbox,
        notes,
        whole,
        fault,
        status,
        ..
    } = run;
    Ok((outbox, notes, (whole, fault.unwrap_or(0), status)))
}

#[test]
fn one_append_one_flush(rt: HostRuntime) -> Result<(), Fail> {
    let (outbox, notes, end) = run_bytes(rt.alloc(), ONE_MESSAGE)?;
    same(&rt, notes.as_slice(), b"0 logged 0\n1 sealed 1\n");
    same(&rt, outbox.as_slice(), ONE_NOTICE);
    same(&rt, end, (true, 0, 0));
    Ok(())
}

/// What a run over these devices leaves of its outbox and of its notes, and its end.
pub(crate) fn run_over<R: Read + Drop, W: Write + Drop, N: Write + Drop>(
    alloc: Global,
    input: R,
    outbox: W,
    notes: N,
) -> Result<(W, N, End), Fail> {
    let site = site(alloc)?;
    let mut input = Plain::new(input);
    let mut notes = Plain::new(notes);
    let outbox = Plain::new(outbox);
    let limits = Limits::of_program();
    let run = batch(alloc, &limits, site, &mut input, outbox, &mut notes);
    let BatchEnd {
        outbox,
        whole,
        fault,
        status,
        ..
    } = run;
    let end = (whole, fault.unwrap_or(0), status);
    Ok((outbox.into_inner(), notes.into_inner(), end))
}

/// A writer that takes whole texts, until it has taken `room` bytes.
pub(crate) fn writer(alloc: Global, room: usize) -> PieceWriter {
    PieceWriter {
        held: Vec::new(alloc),
        most: usize::MAX,
        room,
    }
}

/// Checks the result of [`ONE_MESSAGE`]. Its reader gives a byte a call, and fails once after
/// `good` calls. Its outbox fails once it has `room` bytes.
fn expect(
    rt: &impl Abort,
    alloc: Global,
    (good, room): (usize, usize),
    (outbox, notes): (&[u8], &[u8]),
    wanted: End,
) -> Result<(), Fail> {
    let input = PieceReader {
        rest: ONE_MESSAGE,
        most: 1,
        good,
    };
    let (left, told, end) = run_over(alloc, input, writer(alloc, room), writer(alloc, usize::MAX))?;
    same(rt, told.held.as_slice(), notes);
    same(rt, left.held.as_slice(), outbox);
    same(rt, end, wanted);
    Ok(())
}

#[test]
fn devices_that_fail_in_mid_stream(rt: HostRuntime) -> Result<(), Fail> {
    let notes = b"0 logged 0\nfault 14\nopen B A1B2C3 1\n".as_slice();
    let left = (EMPTY, notes);
    expect(&rt, rt.alloc(), (60, usize::MAX), left, (true, 14, 1))?;
    let notes = b"0 logged 0\n1 sealed 1\nfault 31\nunsent B A1B2C3\n".as_slice();
    let left = (ONE_NOTICE.get(..500).unwrap_or(b""), notes);
    expect(&rt, rt.alloc(), (usize::MAX, 500), left, (false, 0, 1))
}

/// The number by which a host is refused, or 0.
fn refusal_of(alloc: Global, host: &[u8]) -> u32 {
    match Site::new(alloc, host) {
        Ok(_) => 0,
        Err(fault) => fault.code(),
    }
}

#[test]
fn host_with_an_underscore(rt: HostRuntime) {
    same(&rt, refusal_of(rt.alloc(), b"a_b"), 51);
}
