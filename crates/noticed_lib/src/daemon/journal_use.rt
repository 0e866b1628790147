//! How much of a journal's file has records.
use dsn_book::RuledBook;
use dsn_journal::{Disk, MarkCount, Replaceable};
use dsn_ledger::KeptBook;
use std::sync::atomic::{AtomicU64, Ordering};

/// How many seconds lie between two lines about a journal that is nearly full, at least.
const HOUR: u64 = 3_600;

/// How many bytes of a journal's file have records, and how many it has in all.
#[derive(Clone, Copy)]
pub struct JournalUse {
    /// The bytes that have records.
    pub used: usize,
    /// All bytes of the file.
    pub size: usize,
}

impl JournalUse {
    /// Whether at least three quarters of the file have records.
    fn is_nearly_full(self) -> bool {
        self.used >= self.size - self.size / 4
    }
}

/// When a line says that the journal is nearly full: at most once an hour. One thread reports.
#[derive(Drop)]
pub(crate) struct JournalLine {
    /// How many bytes had records when that was reported last.
    used: AtomicU64,
    /// After how many seconds the next line may be written.
    next: AtomicU64,
}

impl JournalLine {
    /// Of a journal that nobody has reported yet.
    pub(crate) fn new() -> JournalLine {
        JournalLine {
            used: AtomicU64::new(u64::MAX),
            next: AtomicU64::new(0),
        }
    }

    /// Whether a journal is nearly full that can't be made shorter now: notices wait, or it has just
    /// been made shorter, as by a start.
    // A full journal is made shorter in a run. So that one is nearly full is no trouble by itself.
    pub(crate) fn may_be_due(&self, journal: JournalUse, waiting: u64) -> bool {
        let used = journal.used as u64;
        let before = self.used.swap(used, Ordering::SeqCst);
        journal.is_nearly_full() && (waiting > 0 || used < before)
    }

    /// Whether the line is due after this number of seconds.
    pub(crate) fn is_due(&self, elapsed: u64) -> bool {
        if elapsed < self.next.load(Ordering::SeqCst) {
            return false;
        }
        self.next
            .store(elapsed.saturating_add(HOUR), Ordering::SeqCst);
        true
    }
}

/// A keeper that may have a journal.
pub(crate) trait HasJournal {
    /// How much of its journal has records; `None` without a journal.
    fn journal_use(&self) -> Option<JournalUse>;
}

impl HasJournal for RuledBook {
    fn journal_use(&self) -> Option<JournalUse> {
        None
    }
}

impl<D: Replaceable, C: MarkCount> HasJournal for KeptBook<D, C> {
    fn journal_use(&self) -> Option<JournalUse> {
        let ledger = self.ledger();
        Some(JournalUse {
            used: ledger.used(),
            size: ledger.disk().size(),
        })
    }
}
