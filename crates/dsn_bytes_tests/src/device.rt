//! Tests of devices, over what `dsn_device` makes public, and the readers and writers of other
//! tests.
mod memory_drain;
mod quiet_writer;
mod std_device;
mod transfer;
mod until_failure;

use dsn_device::{Broken, Drain, Plain};
use dsn_fakes::{PieceReader, PieceWriter};
use std::alloc::Global;

/// A number of calls that no test reaches: none of them fails.
pub(crate) const ALWAYS: usize = 1_000_000;

/// A device over a reader that gives at most `most` bytes a call, and is interrupted once, after
/// `good` calls.
pub(crate) fn reader(rest: &[u8], most: usize, good: usize) -> Plain<PieceReader<'_>> {
    Plain::new(PieceReader { rest, most, good })
}

/// A device over a writer that takes at most `most` bytes a call, and is interrupted once, after
/// `room` bytes.
pub(crate) fn writer(alloc: Global, most: usize, room: usize) -> Plain<PieceWriter> {
    Plain::new(PieceWriter {
        held: Vec::new(alloc),
        most,
        room,
    })
}

/// What a writer took.
pub(crate) fn held(drain: Plain<PieceWriter>) -> Vec<u8> {
    drain.into_inner().held
}

/// Writes a front of a text.
fn write<D: Drain>(drain: &mut D, text: &[u8]) -> Result<usize, Broken> {
    drain.write(text)
}

/// Flushes.
fn flush<D: Drain>(drain: &mut D) -> Result<(), Broken> {
    drain.flush()
}
