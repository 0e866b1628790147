//! The buffers of the program.
//! The library has no buffers, since it is used over memory too.
use std::io::{BufWriter, Write};

/// The room for what is read and written at once, in bytes.
pub(crate) const ROOM: usize = 65_536;

/// Drops the bytes of the outbox's buffer at the end. After a fault they may be a part of a letter
/// that was returned, and a dropped buffer would write them.
pub(crate) fn let_go<W: Write + Drop>(writer: BufWriter<W>) {
    let _ = writer.into_parts();
}
