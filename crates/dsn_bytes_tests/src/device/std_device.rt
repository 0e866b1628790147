//! Readers and writers of std as devices. An interrupted call is a failure: the device doesn't
//! repeat it, and makes the next one.
use super::{flush, held, reader, write, writer};
use crate::assert_same::same;
use dsn_device::{Broken, Source};

/// Reads.
fn read<S: Source>(source: &mut S) -> Result<usize, Broken> {
    source.read(&mut [0; 8])
}

#[test]
fn failed_read_is_not_tried_again(rt: HostRuntime) {
    let mut source = reader(b"QUIT", 4, 1);
    for want in [Ok(4), Err(Broken), Ok(0)] {
        same(&rt, read(&mut source), want);
    }
}

#[test]
fn failed_write_is_not_tried_again(rt: HostRuntime) {
    let mut drain = writer(rt.alloc(), 3, 3);
    for (text, want) in [
        (b"QUIT".as_slice(), Ok(3)),
        (b"T", Err(Broken)),
        (b"", Ok(0)),
        (b"S", Ok(1)),
    ] {
        same(&rt, write(&mut drain, text), want);
    }
    same(&rt, held(drain).as_slice(), b"QUIS".as_slice());
}

#[test]
fn failed_flush_is_not_tried_again(rt: HostRuntime) {
    let mut drain = writer(rt.alloc(), 3, 0);
    same(&rt, flush(&mut drain), Err(Broken));
    same(&rt, flush(&mut drain), Ok(()));
}
