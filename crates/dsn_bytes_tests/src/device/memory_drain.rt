//! A device that writes to memory.
use super::{flush, write};
use crate::assert_same::same;
use dsn_device::MemoryDrain;

#[test]
fn texts_are_written_one_behind_another(rt: HostRuntime) {
    let mut drain = MemoryDrain::new(Vec::new(rt.alloc()));
    for (text, want) in [(b"QU".as_slice(), Ok(2)), (b"IT", Ok(2)), (b"", Ok(0))] {
        same(&rt, write(&mut drain, text), want);
    }
    same(&rt, flush(&mut drain), Ok(()));
    same(&rt, drain.into_bytes().as_slice(), b"QUIT".as_slice());
}
