//! How many requests of a run were answered, by their replies.
use dsn_outcome::Reply;
use std::sync::atomic::{AtomicU64, Ordering};

/// How many replies there are, with the refusal.
const REPLIES: usize = 13;

/// How many requests were carried out since a run began, by their replies, and how many were refused.
#[derive(Drop)]
pub(crate) struct AnswerCounts {
    logged: AtomicU64,
    sealed: AtomicU64,
    nothing: AtomicU64,
    no_return: AtomicU64,
    discarded: AtomicU64,
    forgotten: AtomicU64,
    closed: AtomicU64,
    table_full: AtomicU64,
    log_full: AtomicU64,
    not_closed: AtomicU64,
    differs: AtomicU64,
    goodbyes: AtomicU64,
    refused: AtomicU64,
}

impl AnswerCounts {
    /// No requests.
    pub(crate) fn new() -> AnswerCounts {
        AnswerCounts {
            logged: AtomicU64::new(0),
            sealed: AtomicU64::new(0),
            nothing: AtomicU64::new(0),
            no_return: AtomicU64::new(0),
            discarded: AtomicU64::new(0),
            forgotten: AtomicU64::new(0),
            closed: AtomicU64::new(0),
            table_full: AtomicU64::new(0),
            log_full: AtomicU64::new(0),
            not_closed: AtomicU64::new(0),
            differs: AtomicU64::new(0),
            goodbyes: AtomicU64::new(0),
            refused: AtomicU64::new(0),
        }
    }

    /// Counts a reply.
    pub(crate) fn count(&self, reply: Reply) {
        self.counter(reply).fetch_add(1, Ordering::SeqCst);
    }

    /// Counts a request that was refused.
    pub(crate) fn refuse(&self) {
        self.refused.fetch_add(1, Ordering::SeqCst);
    }

    /// How many requests sealed a notice.
    pub(crate) fn sealed(&self) -> u64 {
        self.sealed.load(Ordering::SeqCst)
    }

    /// Each count with its name.
    pub(crate) fn named(&self) -> [(&'static str, u64); REPLIES] {
        [
            ("answered_logged", self.logged.load(Ordering::SeqCst)),
            ("answered_sealed", self.sealed.load(Ordering::SeqCst)),
            ("answered_nothing", self.nothing.load(Ordering::SeqCst)),
            (
                "answered_no_return_path",
                self.no_return.load(Ordering::SeqCst),
            ),
            ("answered_discarded", self.discarded.load(Ordering::SeqCst)),
            ("answered_forgotten", self.forgotten.load(Ordering::SeqCst)),
            ("answered_closed", self.closed.load(Ordering::SeqCst)),
            (
                "answered_table_full",
                self.table_full.load(Ordering::SeqCst),
            ),
            ("answered_log_full", self.log_full.load(Ordering::SeqCst)),
            (
                "answered_not_closed",
                self.not_closed.load(Ordering::SeqCst),
            ),
            ("answered_differs", self.differs.load(Ordering::SeqCst)),
            ("answered_goodbyes", self.goodbyes.load(Ordering::SeqCst)),
            ("answered_refused", self.refused.load(Ordering::SeqCst)),
        ]
    }

    /// The counter of a reply.
    fn counter(&self, reply: Reply) -> &AtomicU64 {
        match reply {
            Reply::Logged(_) => &self.logged,
            Reply::Sealed(_) => &self.sealed,
            Reply::Nothing => &self.nothing,
            Reply::NoReturn(_) => &self.no_return,
            Reply::Discarded(_) => &self.discarded,
            Reply::Forgotten => &self.forgotten,
            Reply::Closed => &self.closed,
            Reply::TableFull => &self.table_full,
            Reply::LogFull => &self.log_full,
            Reply::NotClosed => &self.not_closed,
            Reply::Differs(_) => &self.differs,
            Reply::Gone => &self.goodbyes,
        }
    }
}
