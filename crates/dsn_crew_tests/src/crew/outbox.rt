//! An outbox for tests, whose first write may be held. It keeps nothing.
use super::hold::Hold;
use std::io;
use std::io::Write;
use std::time::Clock;

/// An outbox that takes all. No contract exposes its bytes.
#[derive(Drop)]
pub struct Outbox<'a, R> {
    /// What may hold its first write.
    pub(super) hold: &'a Hold<'a, R>,
}

impl<R: Clock> Write for Outbox<'_, R> {
    fn write(&mut self, text: &[u8]) -> io::Result<usize> {
        self.hold.before_write();
        Ok(text.len())
    }

    fn flush(&mut self) -> io::Result<()> {
        Ok(())
    }
}
