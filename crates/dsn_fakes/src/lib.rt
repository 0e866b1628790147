//! Devices and texts for tests: readers, writers and a connection in memory that work in pieces and
//! fail where a test sets it. Also a disk in memory that computes what a crash may leave, and
//! outboxes as a mail program gets them.
#![tactic(auto)]

mod memory_disk;
mod outboxes;
mod pieces;

pub use memory_disk::MemoryDisk;
pub use outboxes::{EMPTY, ONE_NOTICE};
pub use pieces::{PieceConnection, PieceReader, PieceWriter};
