//! Texts up to a failure of a device that works again after it.
use super::{held, writer};
use crate::assert_same::same;
use dsn_device::{Drain, UntilFailure};

/// Writes QUIT and flushes. Returns whether the device has failed so far.
fn quit<D: Drain>(writing: &mut UntilFailure, drain: &mut D) -> bool {
    writing.write(drain, b"QUIT");
    writing.flush(drain);
    writing.failed
}

#[test]
fn nothing_follows_a_failure(rt: HostRuntime) {
    let mut drain = writer(rt.alloc(), 2, 6);
    let mut writing = UntilFailure::new();
    for has_failed in [false, true, true] {
        same(&rt, quit(&mut writing, &mut drain), has_failed);
    }
    same(&rt, held(drain).as_slice(), b"QUITQU".as_slice());
}
