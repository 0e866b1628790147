//! A gate that counts what was answered.
use dsn_crew::Gate;
use std::sync::atomic::{AtomicU64, Ordering};

/// A gate that counts the requests that were answered.
#[derive(Drop)]
pub(crate) struct Answered {
    count: AtomicU64,
}

impl Answered {
    /// A gate that has seen nothing.
    pub(crate) fn new() -> Answered {
        Answered {
            count: AtomicU64::new(0),
        }
    }

    /// How many requests were answered.
    pub(crate) fn count(&self) -> u64 {
        self.count.load(Ordering::SeqCst)
    }
}

impl Gate for Answered {
    fn before_ask(&self, _agent: u32, _number: u32) {}

    fn after_answer(&self, _agent: u32, _number: u32) {
        self.count.fetch_add(1, Ordering::SeqCst);
    }
}
