//! A run on one thread: `batch` turns a stream of framed requests into an outbox and notes.
mod batch_end;
mod memory_run;
mod memory_source;
mod reading;
mod run;
mod whole_batch;

pub use batch_end::BatchEnd;
pub use memory_run::{MemoryRun, batch_bytes};
pub use whole_batch::batch;
