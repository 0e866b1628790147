//! A run that is asked frame by frame: the line of an answer is written before the next frame is read,
//! so that who asks can wait for it. No contract says so of two devices.
use crate::assert_same::same;
use crate::batch::{ONE_MESSAGE, run_over, writer};
use std::io;
use std::io::{ErrorKind, Read, Write};
use std::sync::atomic::{AtomicU64, Ordering};
use std::test::Fail;

/// Notes of which the bytes are counted.
#[derive(Drop)]
struct Counted<'a> {
    count: &'a AtomicU64,
}

impl Write for Counted<'_> {
    fn write(&mut self, text: &[u8]) -> io::Result<usize> {
        self.count.fetch_add(text.len() as u64, Ordering::SeqCst);
        Ok(text.len())
    }

    fn flush(&mut self) -> io::Result<()> {
        Ok(())
    }
}

/// A reader over [`ONE_MESSAGE`], which fails if its second frame is asked for before the line of the
/// first one's answer was written, `0 logged 0`.
#[derive(Drop)]
struct Waiting<'a> {
    rest: &'a [u8],
    count: &'a AtomicU64,
}

impl Read for Waiting<'_> {
    fn read(&mut self, buffer: &mut [u8]) -> io::Result<usize> {
        if self.rest.len() == 56 && self.count.load(Ordering::SeqCst) != 11 {
            return Err(io::Error::from(ErrorKind::Other));
        }
        self.rest.read(buffer)
    }
}

#[test]
fn a_line_is_written_before_the_next_frame_is_read(rt: HostRuntime) -> Result<(), Fail> {
    let count = AtomicU64::new(0);
    let count = &count;
    let input = Waiting {
        rest: ONE_MESSAGE,
        count,
    };
    let outbox = writer(rt.alloc(), usize::MAX);
    let (_, _, end) = run_over(rt.alloc(), input, outbox, Counted { count })?;
    same(&rt, end, (true, 0, 0));
    Ok(())
}
