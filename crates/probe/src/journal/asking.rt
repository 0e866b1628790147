//! Requests, as standard input gives them.
use dsn_device::Plain;
use dsn_frame::{FrameBuffer, next_request};
use dsn_outcome::Request;
use std::alloc::Global;

/// Frames that are given, and how many of them were read.
#[derive(Drop)]
pub(crate) struct Asking<'a> {
    source: Plain<&'a [u8]>,
    buffer: FrameBuffer,
    place: u32,
}

impl<'a> Asking<'a> {
    /// What these bytes ask.
    pub(crate) fn new(alloc: Global, given: &'a [u8]) -> Asking<'a> {
        Asking {
            source: Plain::new(given),
            buffer: FrameBuffer::new(alloc),
            place: 0,
        }
    }

    /// The next requests, `most` at most. Returns `None` if a frame is no request in its turn, or
    /// if memory was refused.
    pub(crate) fn next_group(&mut self, alloc: Global, most: u32) -> Option<Vec<Request>> {
        let mut group = Vec::new(alloc);
        for _ in 0..most {
            match self.next(alloc)? {
                Some(request) => group.push(request).ok()?,
                None => return Some(group),
            }
        }
        Some(group)
    }

    /// The next request, if there is one.
    fn next(&mut self, alloc: Global) -> Option<Option<Request>> {
        self.buffer.read_next(&mut self.source).ok()?;
        let Some(frame) = self.buffer.frame() else {
            return Some(None);
        };
        let number = self.place;
        let body = next_request(alloc, number, frame.body()).ok()?;
        self.place = number.wrapping_add(1);
        Some(Some(Request {
            agent: 0,
            number,
            body,
        }))
    }
}
