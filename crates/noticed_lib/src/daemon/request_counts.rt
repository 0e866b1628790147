//! How many requests of a run were carried out, by what they ask.
use dsn_outcome::Body;
use std::sync::atomic::{AtomicU64, Ordering};

/// How many kinds of requests about a log there are.
const KINDS: usize = 4;

/// What a request about a log asks.
#[derive(Clone, Copy)]
pub enum RequestKind {
    /// To log an outcome.
    Append,
    /// To make a notice of a log.
    Flush,
    /// To drop a log.
    Discard,
    /// To release the key of a closed log.
    Forget,
}

impl RequestKind {
    /// The kind of a request with this body; `None` for a goodbye, which is about no log.
    pub(crate) fn of(body: &Body) -> Option<RequestKind> {
        match body {
            Body::Append(_, _) => Some(RequestKind::Append),
            Body::Flush(_, _) => Some(RequestKind::Flush),
            Body::Discard(_) => Some(RequestKind::Discard),
            Body::Forget(_) => Some(RequestKind::Forget),
            Body::Bye => None,
        }
    }
}

/// How many requests were carried out since a run began, by their kinds.
#[derive(Drop)]
pub(crate) struct RequestCounts {
    appends: AtomicU64,
    flushes: AtomicU64,
    discards: AtomicU64,
    forgets: AtomicU64,
}

impl RequestCounts {
    /// No requests.
    pub(crate) fn new() -> RequestCounts {
        RequestCounts {
            appends: AtomicU64::new(0),
            flushes: AtomicU64::new(0),
            discards: AtomicU64::new(0),
            forgets: AtomicU64::new(0),
        }
    }

    /// Counts a request.
    pub(crate) fn count(&self, kind: RequestKind) {
        let counter = match kind {
            RequestKind::Append => &self.appends,
            RequestKind::Flush => &self.flushes,
            RequestKind::Discard => &self.discards,
            RequestKind::Forget => &self.forgets,
        };
        counter.fetch_add(1, Ordering::SeqCst);
    }

    /// Each count with its name.
    pub(crate) fn named(&self) -> [(&'static str, u64); KINDS] {
        [
            ("requests_append", self.appends.load(Ordering::SeqCst)),
            ("requests_flush", self.flushes.load(Ordering::SeqCst)),
            ("requests_discard", self.discards.load(Ordering::SeqCst)),
            ("requests_forget", self.forgets.load(Ordering::SeqCst)),
        ]
    }
}
