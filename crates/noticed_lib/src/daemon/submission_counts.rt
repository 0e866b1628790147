//! How many notices of a run a mail server took or refused, and how many wait for it.
use dsn_submission::Verdict;
use std::sync::atomic::{AtomicU64, Ordering};

/// How many notices of a run the server accepted or refused, and how many wait.
#[derive(Drop)]
pub(crate) struct SubmissionCounts {
    accepted: AtomicU64,
    refused: AtomicU64,
    /// How many wait.
    waiting: AtomicU64,
}

impl SubmissionCounts {
    /// No notices.
    pub(crate) fn new() -> SubmissionCounts {
        SubmissionCounts {
            accepted: AtomicU64::new(0),
            refused: AtomicU64::new(0),
            waiting: AtomicU64::new(0),
        }
    }

    /// Counts a submission.
    pub(crate) fn count(&self, verdict: Verdict) {
        match verdict {
            Verdict::Accepted => {
                self.accepted.fetch_add(1, Ordering::SeqCst);
            }
            Verdict::RefusedForGood => {
                self.refused.fetch_add(1, Ordering::SeqCst);
            }
            Verdict::PutOff | Verdict::ServerAway => {}
        }
    }

    /// Notes how many wait.
    pub(crate) fn wait(&self, notices: usize) {
        self.waiting.store(notices as u64, Ordering::SeqCst);
    }

    /// How many wait.
    pub(crate) fn waiting(&self) -> u64 {
        self.waiting.load(Ordering::SeqCst)
    }

    /// Each count with its name.
    pub(crate) fn named(&self) -> [(&'static str, u64); 3] {
        [
            ("notices_accepted", self.accepted.load(Ordering::SeqCst)),
            ("notices_refused", self.refused.load(Ordering::SeqCst)),
            ("notices_waiting", self.waiting()),
        ]
    }
}
