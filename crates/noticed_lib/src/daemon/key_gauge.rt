//! How many keys a run holds.
use dsn_outcome::Reply;
use std::sync::atomic::{AtomicBool, AtomicU32, AtomicU64, Ordering};

/// Over how many percent of the limit that is logged.
const MANY: u64 = 75;

/// Under how many percent it may be logged again.
const FEW_AGAIN: u64 = 70;

/// Over how many percent of the limit that is logged each hour.
const NEARLY_ALL: u64 = 95;

/// How many seconds lie between two lines of that, at least.
const HOUR: u64 = 3_600;

/// What a request that was carried out changed about its key.
#[derive(Clone, Copy, PartialEq, Eq)]
pub(crate) enum KeyChange {
    /// A new key is held, with an open log.
    Opened,
    /// A new key is held, whose log is closed.
    HeldClosed,
    /// An open log was closed.
    Closed,
    /// The key of a closed log is no longer held.
    Forgotten,
    /// The log has this number of outcomes.
    Grew(u32),
    /// Nothing.
    Nothing,
}

impl KeyChange {
    /// What a reply says of its key. An open log has an outcome at least: so a request that found
    /// none of them found a new key.
    pub(crate) fn of(reply: Reply) -> KeyChange {
        match reply {
            Reply::Logged(0) => KeyChange::Opened,
            Reply::Logged(before) => KeyChange::Grew(before.saturating_add(1)),
            Reply::Nothing | Reply::Discarded(0) => KeyChange::HeldClosed,
            Reply::NoReturn(_) | Reply::Sealed(_) | Reply::Discarded(_) => KeyChange::Closed,
            Reply::Forgotten => KeyChange::Forgotten,
            Reply::Closed
            | Reply::TableFull
            | Reply::LogFull
            | Reply::NotClosed
            | Reply::Differs(_)
            | Reply::Gone => KeyChange::Nothing,
        }
    }

    /// Whether a new key is held.
    pub(crate) fn takes_a_key(self) -> bool {
        matches!(self, KeyChange::Opened | KeyChange::HeldClosed)
    }
}

/// How many keys a run holds, with open and with closed logs, and which of the lines about that were
/// written. One thread counts, others read.
#[derive(Drop)]
pub(crate) struct KeyGauge {
    limit: AtomicU32,
    open: AtomicU32,
    closed: AtomicU32,
    released: AtomicU64,
    /// Whether the line about 75 percent was written.
    is_logged: AtomicBool,
    /// After how many seconds the next line about 95 percent may be written.
    next_line: AtomicU64,
}

/// The counts of a gauge.
#[derive(Clone, Copy)]
pub(crate) struct KeyCounts {
    /// How many keys may be held.
    pub(crate) limit: u32,
    /// How many have an open log.
    pub(crate) open: u32,
    /// How many have a closed log.
    pub(crate) closed: u32,
    /// How many keys of closed logs made room for others.
    pub(crate) released: u64,
}

impl KeyCounts {
    /// How many keys are held.
    pub(crate) fn held(&self) -> u32 {
        self.open.saturating_add(self.closed)
    }

    /// How many keys others can't have. If closed ones make room, these are the open ones.
    pub(crate) fn in_use(&self) -> u32 {
        if self.released > 0 {
            self.open
        } else {
            self.held()
        }
    }

    /// Whether at least `percent` of the limit is in use.
    fn is_over(&self, percent: u64) -> bool {
        u64::from(self.in_use()).saturating_mul(100)
            >= u64::from(self.limit).saturating_mul(percent)
    }
}

impl KeyGauge {
    /// A gauge of no keys, without a limit yet.
    pub(crate) fn new() -> KeyGauge {
        KeyGauge {
            limit: AtomicU32::new(0),
            open: AtomicU32::new(0),
            closed: AtomicU32::new(0),
            released: AtomicU64::new(0),
            is_logged: AtomicBool::new(false),
            next_line: AtomicU64::new(0),
        }
    }

    /// Sets how many keys may be held.
    pub(crate) fn may_hold(&self, keys: u32) {
        self.limit.store(keys, Ordering::SeqCst);
    }

    /// Counts a change.
    pub(crate) fn count(&self, change: KeyChange) {
        match change {
            KeyChange::Opened => {
                self.make_room();
                self.open.fetch_add(1, Ordering::SeqCst);
            }
            KeyChange::HeldClosed => {
                self.make_room();
                self.closed.fetch_add(1, Ordering::SeqCst);
            }
            KeyChange::Closed => {
                self.open.fetch_sub(1, Ordering::SeqCst);
                self.closed.fetch_add(1, Ordering::SeqCst);
            }
            KeyChange::Forgotten => {
                self.closed.fetch_sub(1, Ordering::SeqCst);
            }
            KeyChange::Grew(_) | KeyChange::Nothing => {}
        }
    }

    /// The counts as they are.
    pub(crate) fn counts(&self) -> KeyCounts {
        KeyCounts {
            limit: self.limit.load(Ordering::SeqCst),
            open: self.open.load(Ordering::SeqCst),
            closed: self.closed.load(Ordering::SeqCst),
            released: self.released.load(Ordering::SeqCst),
        }
    }

    /// Whether a line about the keys in use is due: once over 75 percent, again only after it was
    /// under 70; and over 95 percent once an hour.
    pub(crate) fn is_line_due(&self, counts: &KeyCounts, elapsed: u64) -> bool {
        if !counts.is_over(FEW_AGAIN) {
            self.is_logged.store(false, Ordering::SeqCst);
            return false;
        }
        if counts.is_over(NEARLY_ALL) && elapsed >= self.next_line.load(Ordering::SeqCst) {
            let next = elapsed.saturating_add(HOUR);
            self.next_line.store(next, Ordering::SeqCst);
            self.is_logged.store(true, Ordering::SeqCst);
            return true;
        }
        counts.is_over(MANY) && !self.is_logged.swap(true, Ordering::SeqCst)
    }

    /// A keeper that lets a key in where the limit is reached has released a closed one for it.
    fn make_room(&self) {
        let counts = self.counts();
        if counts.limit > 0 && counts.held() >= counts.limit {
            self.closed.fetch_sub(1, Ordering::SeqCst);
            self.released.fetch_add(1, Ordering::SeqCst);
        }
    }
}
