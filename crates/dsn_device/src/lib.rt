//! The devices that the daemon reads from and writes to: their traits, and std's readers and
//! writers and memory as devices. Whole texts over devices, and a writer that stops at the first
//! failure.
#![tactic(auto)]

mod broken;
mod connection;
mod drain;
mod memory_drain;
mod opaque_stream;
mod quiet_writer;
mod source;
mod std_device;
mod stream;
mod transfer;
mod until_failure;

pub use broken::Broken;
pub use connection::Connection;
pub use drain::Drain;
pub use memory_drain::MemoryDrain;
pub use opaque_stream::OpaqueStream;
pub use quiet_writer::QuietWriter;
pub use source::Source;
pub use std_device::Plain;
pub use stream::Stream;
pub use transfer::{fill, send};
pub use until_failure::UntilFailure;
