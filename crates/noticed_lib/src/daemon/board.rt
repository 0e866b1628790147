//! The counters of a run, which its threads write and whoever asks for its status reads.
//! Nothing that is proved reads them.
use crate::daemon::answer_counts::AnswerCounts;
use crate::daemon::journal_use::{JournalLine, JournalUse};
use crate::daemon::key_gauge::{KeyChange, KeyCounts, KeyGauge};
use crate::daemon::open_logs::{OpenLog, OpenLogs};
use crate::daemon::request_counts::RequestCounts;
use crate::daemon::submission_counts::SubmissionCounts;
use dsn_outcome::{Key, Reply};
use std::alloc::Global;
use std::sync::atomic::{AtomicI32, AtomicU32, AtomicU64, Ordering};
use std::sync::{Mutex, MutexGuard};
use std::{io, thread};

/// How often a thread tries to have the open logs. The other one has them for a millisecond at most.
// Not by waiting: only `main` may pass the right to wait, and a watch keeps no such handle.
const TRIES: u32 = 1_000_000;

/// The counters of a run.
#[derive(Drop)]
pub(crate) struct Board {
    pub(crate) keys: KeyGauge,
    pub(crate) answers: AnswerCounts,
    pub(crate) requests: RequestCounts,
    /// How many connections were accepted.
    connections: AtomicU64,
    /// How many clients were cut off.
    cut_off: AtomicU64,
    /// How many notices were written and flushed.
    written: AtomicU64,
    pub(crate) submissions: SubmissionCounts,
    /// How many bytes of the journal's file have records.
    journal_used: AtomicU64,
    /// How many bytes the journal's file has; 0 without a journal.
    journal_size: AtomicU64,
    pub(crate) journal_line: JournalLine,
    /// The number of the last fault; 0 for none.
    fault: AtomicU32,
    /// The system's number of its error; 0 for none.
    fault_error: AtomicI32,
    open: Mutex<OpenLogs>,
}

impl Board {
    /// The board of a run that begins.
    pub(crate) fn new(alloc: Global) -> Board {
        Board {
            keys: KeyGauge::new(),
            answers: AnswerCounts::new(),
            requests: RequestCounts::new(),
            connections: AtomicU64::new(0),
            cut_off: AtomicU64::new(0),
            written: AtomicU64::new(0),
            submissions: SubmissionCounts::new(),
            journal_used: AtomicU64::new(0),
            journal_size: AtomicU64::new(0),
            journal_line: JournalLine::new(),
            fault: AtomicU32::new(0),
            fault_error: AtomicI32::new(0),
            open: Mutex::new(OpenLogs::new(alloc)),
        }
    }

    /// Notes a key that is held as the run begins, `now` seconds after the watch was made.
    pub(crate) fn holds(&self, key: Key, outcomes: Option<u32>, now: u64) {
        match outcomes {
            Some(outcomes) => {
                self.keys.count(KeyChange::Opened);
                if let Some(mut logs) = self.logs() {
                    logs.open(key, outcomes, now);
                }
            }
            None => self.keys.count(KeyChange::HeldClosed),
        }
    }

    /// Notes what a request changed about its key, `now` seconds after the watch was made.
    pub(crate) fn changed(&self, key: Key, change: KeyChange, now: u64) {
        let is_same = matches!(
            change,
            KeyChange::HeldClosed | KeyChange::Forgotten | KeyChange::Nothing
        );
        if is_same {
            return;
        }
        let Some(mut logs) = self.logs() else {
            return;
        };
        match change {
            KeyChange::Opened => logs.open(key, 1, now),
            KeyChange::Grew(outcomes) => logs.count(&key, outcomes),
            KeyChange::Closed => logs.close(&key),
            KeyChange::HeldClosed | KeyChange::Forgotten | KeyChange::Nothing => {}
        }
    }

    /// The open logs, once no other thread has them. `None` after very many tries: the list is then
    /// not as the logs are.
    fn logs(&self) -> Option<MutexGuard<'_, OpenLogs>> {
        for _ in 0..TRIES {
            if let Some(logs) = self.open.try_lock() {
                return Some(logs);
            }
            thread::yield_now();
        }
        None
    }

    /// Counts a reply, and what it says of its key. Returns that.
    pub(crate) fn answered(&self, reply: Reply) -> KeyChange {
        let change = KeyChange::of(reply);
        self.answers.count(reply);
        self.keys.count(change);
        change
    }

    /// Counts a connection.
    pub(crate) fn connected(&self) {
        self.connections.fetch_add(1, Ordering::SeqCst);
    }

    /// Counts a client that was cut off.
    pub(crate) fn cut_off(&self) {
        self.cut_off.fetch_add(1, Ordering::SeqCst);
    }

    /// Counts a notice that was written and flushed.
    pub(crate) fn written(&self) {
        self.written.fetch_add(1, Ordering::SeqCst);
    }

    /// Notes how much of the journal has records.
    pub(crate) fn uses(&self, journal: JournalUse) {
        self.journal_used
            .store(journal.used as u64, Ordering::SeqCst);
        self.journal_size
            .store(journal.size as u64, Ordering::SeqCst);
    }

    /// How many bytes of the journal's file have records.
    pub(crate) fn journal_used(&self) -> u64 {
        self.journal_used.load(Ordering::SeqCst)
    }

    /// How many bytes the journal's file has; 0 without a journal.
    pub(crate) fn journal_size(&self) -> u64 {
        self.journal_size.load(Ordering::SeqCst)
    }

    /// Notes a fault with its number, and the system's error.
    pub(crate) fn failed(&self, code: u32, error: &io::Error) {
        let number = error.raw_os_error().unwrap_or(0);
        self.fault_error.store(number, Ordering::SeqCst);
        self.fault.store(code, Ordering::SeqCst);
    }

    /// Notes a fault that has no error of the system's.
    pub(crate) fn refused(&self, code: u32) {
        self.fault_error.store(0, Ordering::SeqCst);
        self.fault.store(code, Ordering::SeqCst);
    }

    /// The counts of the keys.
    pub(crate) fn key_counts(&self) -> KeyCounts {
        self.keys.counts()
    }

    /// How many connections were accepted, clients cut off, and notices sealed, written to an outbox
    /// or submitted.
    pub(crate) fn events(&self) -> [(&'static str, u64); 7] {
        let [accepted, refused, waiting] = self.submissions.named();
        [
            ("connections", self.connections.load(Ordering::SeqCst)),
            ("cut_off", self.cut_off.load(Ordering::SeqCst)),
            ("notices_sealed", self.answers.sealed()),
            ("notices_written", self.written.load(Ordering::SeqCst)),
            accepted,
            refused,
            waiting,
        ]
    }

    /// The number of the last fault, and the system's error, if there is one.
    pub(crate) fn last_fault(&self) -> Option<(u32, Option<io::Error>)> {
        let code = self.fault.load(Ordering::SeqCst);
        if code == 0 {
            return None;
        }
        match self.fault_error.load(Ordering::SeqCst) {
            0 => Some((code, None)),
            number => Some((code, Some(io::Error::from_raw_os_error(number)))),
        }
    }

    /// The open logs, in no order. Some are left out if there is no memory for them.
    pub(crate) fn open_logs(&self, alloc: Global) -> Vec<OpenLog> {
        // The memory is taken before the lock, and the lines are made after it: a request waits for
        // the copying alone.
        let many = match self.logs() {
            Some(logs) => logs.len(),
            None => 0,
        };
        let Ok(mut list) = Vec::with_capacity(alloc, many) else {
            return Vec::new(alloc);
        };
        if let Some(logs) = self.logs() {
            logs.copy_to(&mut list);
        }
        list
    }
}
