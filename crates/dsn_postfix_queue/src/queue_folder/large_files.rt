//! The turn to hold a large queue file. Only one thread at a time has it, so that the process has
//! only one such file in memory.
use crossbeam_channel::{Receiver, Sender, bounded};
use std::alloc::{AllocError, Global};
use std::sync::Wait;
use std::time::{Clock, Duration};

/// For how many seconds a thread waits for the turn. The thread that has the turn may itself wait
/// as long for the mail server.
const SECONDS_FOR_TURN: u64 = 60;

/// The turn, while no thread has it.
#[derive(Drop)]
pub struct LargeFiles {
    back: Sender<()>,
    turns: Receiver<()>,
}

impl LargeFiles {
    /// The turn, which no thread has yet. Returns an error if memory was refused.
    pub fn new<W: Wait>(alloc: Global, waiting: &W) -> Result<LargeFiles, AllocError> {
        let (back, turns) = bounded(alloc, 1)?;
        let files = LargeFiles { back, turns };
        files.give_back(waiting);
        Ok(files)
    }

    /// Waits for the turn. Returns whether it came within 60 seconds.
    pub fn take<W: Wait + Clock>(&self, waiting: &W) -> bool {
        let limit = Duration::from_secs(SECONDS_FOR_TURN);
        self.turns.recv_timeout(waiting, limit).is_ok()
    }

    /// Returns the turn. Requires that the caller has it.
    pub fn give_back<W: Wait>(&self, waiting: &W) {
        // The channel has room, since the turn was taken from it.
        let _ = self.back.try_send(waiting, ());
    }
}
