//! The logs that a book has open, for tests.
use crate::assert_same::same;
use dsn_book::{Book, OpenLine};
use dsn_outcome::{NoMemory, Service};
use std::alloc::Global;
use std::process::Abort;

/// The logs that a book has open.
pub(crate) fn open_logs(alloc: Global, book: &Book) -> Result<Vec<OpenLine>, NoMemory> {
    book.open_lines(alloc)
}

/// Asserts that the bounce log of a message is open, with this number of outcomes, and no other
/// log.
pub(crate) fn expect_open(rt: &impl Abort, open: &[OpenLine], message: [u8; 2], outcomes: u32) {
    same(rt, open.len(), 1);
    for line in open {
        let found = (line.key.service, line.count);
        same(rt, found, (Service::Bounce, outcomes));
        same(rt, line.key.id.bytes(), message.as_slice());
    }
}
