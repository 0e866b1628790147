//! Texts to a writer that fails once and then works again.
use super::{held, writer};
use crate::assert_same::same;
use dsn_device::{Drain, QuietWriter};

/// Writes three texts, and flushes after each. Returns the device, and whether it has failed.
fn written<D: Drain>(drain: D) -> (D, bool) {
    let mut writer = QuietWriter::new(drain);
    for text in [b"EHLO\n".as_slice(), b"", b"QUIT\n"] {
        writer.write(text);
        writer.flush();
    }
    writer.into_parts()
}

#[test]
fn nothing_after_the_first_failure(rt: HostRuntime) {
    // the last flush fails if all ten bytes were taken and no more
    for room in 0..12usize {
        let (drain, has_failed) = written(writer(rt.alloc(), 2, room));
        same(&rt, (room, has_failed), (room, room < 11));
        let front = &b"EHLO\nQUIT\n"[..room.min(10)];
        same(&rt, held(drain).as_slice(), front);
    }
}
