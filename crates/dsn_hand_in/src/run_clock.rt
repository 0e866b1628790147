//! The moments of a run, in milliseconds since it began.
use std::thread;
use std::time::{Clock, Duration, Instant};

/// A clock, and the moment at which the run began.
#[derive(Drop)]
pub struct RunClock<'r, R> {
    clock: &'r R,
    began: Instant,
}

impl<'r, R: Clock> RunClock<'r, R> {
    /// A clock for a run that began at this moment.
    pub fn new(clock: &'r R, began: Instant) -> RunClock<'r, R> {
        RunClock { clock, began }
    }

    /// Milliseconds since the run began, or 0 if the clock can't be read.
    pub(crate) fn moment(&self) -> u64 {
        match Instant::now(self.clock) {
            Ok(now) => u64::try_from(
                now.saturating_duration_since(self.began).as_millis(),
            ).unwrap_or(u64::MAX),
            Err(_) => 0,
        }
    }

    /// Sleeps for this number of milliseconds.
    pub(crate) fn sleep(&self, milliseconds: u64) {
        thread::sleep(self.clock, Duration::from_millis(milliseconds));
    }
}
