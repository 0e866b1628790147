//! A gate for tests, which holds asks until something else has happened.
use dsn_crew::Gate;
use std::sync::atomic::{AtomicU64, Ordering};
use std::thread;
use std::time::{Clock, Duration};

/// How often a hold looks again, a millisecond each, before it runs out.
const TURNS: u32 = 10_000;

/// What is held, and until when.
#[derive(Clone, Copy)]
pub(super) struct Until {
    /// How many agents are held: those below this number.
    pub(super) agents: u32,
    /// The number of the request before which each is held.
    pub(super) number: u32,
    /// A hold lasts until at least this number of agents have begun that request.
    pub(super) begun: u64,
    /// It lasts until at least this number of requests of agent `to` were answered.
    pub(super) answered: u64,
    /// The agent whose answers are counted.
    pub(super) to: u32,
    /// It lasts until the outbox was written to at least this number of times.
    pub(super) written: u64,
    /// The outbox's first write is held until this number of requests of agent `to` were answered.
    pub(super) write: u64,
}

/// Nothing is held.
pub(super) const FREE: Until = Until {
    agents: 0,
    number: 0,
    begun: 0,
    answered: 0,
    to: 0,
    written: 0,
    write: 0,
};

/// The gate, with what it has seen.
#[derive(Drop)]
pub struct Hold<'a, R> {
    rt: &'a R,
    until: Until,
    begun: AtomicU64,
    answered: AtomicU64,
    written: AtomicU64,
    ran_out: AtomicU64,
}

impl<'a, R> Hold<'a, R> {
    /// A gate that has seen nothing.
    pub(super) fn new(rt: &'a R, until: Until) -> Hold<'a, R> {
        Hold {
            rt,
            until,
            begun: AtomicU64::new(0),
            answered: AtomicU64::new(0),
            written: AtomicU64::new(0),
            ran_out: AtomicU64::new(0),
        }
    }

    /// How many holds ran out.
    pub(super) fn ran_out(&self) -> u64 {
        self.ran_out.load(Ordering::SeqCst)
    }
}

impl<R: Clock> Hold<'_, R> {
    /// Waits until the count has reached `wanted`, or runs out.
    fn wait(&self, seen: &AtomicU64, wanted: u64) {
        for _ in 0..TURNS {
            if seen.load(Ordering::SeqCst) >= wanted {
                return;
            }
            thread::sleep(self.rt, Duration::from_millis(1));
        }
        self.ran_out.fetch_add(1, Ordering::SeqCst);
    }

    /// Called where a write to the outbox begins.
    pub(super) fn before_write(&self) {
        if self.written.fetch_add(1, Ordering::SeqCst) == 0 {
            self.wait(&self.answered, self.until.write);
        }
    }
}

impl<R: Clock> Gate for Hold<'_, R> {
    fn before_ask(&self, agent: u32, number: u32) {
        if number != self.until.number {
            return;
        }
        self.begun.fetch_add(1, Ordering::SeqCst);
        if agent < self.until.agents {
            self.wait(&self.begun, self.until.begun);
            self.wait(&self.answered, self.until.answered);
            self.wait(&self.written, self.until.written);
        }
    }

    fn after_answer(&self, agent: u32, _number: u32) {
        if agent == self.until.to {
            self.answered.fetch_add(1, Ordering::SeqCst);
        }
    }
}
