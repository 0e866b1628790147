//! The open logs of a run, for who asks which they are.
use dsn_outcome::Key;
use std::alloc::Global;
use std::collections::BTreeMap;

/// How many logs are listed at most: as many as a run can hold keys.
const MOST_LISTED: usize = 65_536;

/// An open log.
#[derive(Clone, Copy)]
pub(crate) struct OpenLog {
    /// Its key.
    pub(crate) key: Key,
    /// Its number of outcomes.
    pub(crate) outcomes: u32,
    /// When its first outcome came, in seconds since the watch was made.
    pub(crate) since: u64,
}

/// What is kept of an open log under its key.
#[derive(Clone, Copy)]
struct Listed {
    outcomes: u32,
    since: u64,
}

/// The open logs by their keys. One for which there is no room or no memory is left out.
#[derive(Drop)]
pub(crate) struct OpenLogs {
    logs: BTreeMap<Key, Listed, Global>,
}

impl OpenLogs {
    /// No logs.
    pub(crate) fn new(alloc: Global) -> OpenLogs {
        OpenLogs {
            logs: BTreeMap::new(alloc),
        }
    }

    /// Adds a log whose first outcome came `since` seconds after the watch was made.
    pub(crate) fn open(&mut self, key: Key, outcomes: u32, since: u64) {
        if self.logs.len() < MOST_LISTED {
            drop(self.logs.insert(key, Listed { outcomes, since }));
        }
    }

    /// Sets the number of outcomes of a log, if it is listed.
    pub(crate) fn count(&mut self, key: &Key, outcomes: u32) {
        if let Some(log) = self.logs.get_mut(key) {
            log.outcomes = outcomes;
        }
    }

    /// Takes away a log that was closed.
    pub(crate) fn close(&mut self, key: &Key) {
        let _ = self.logs.remove(key);
    }

    /// Copies the logs to a list, as far as there is memory for it.
    pub(crate) fn copy_to(&self, list: &mut Vec<OpenLog>) {
        for (key, log) in self.logs.iter() {
            let open = OpenLog {
                key: *key,
                outcomes: log.outcomes,
                since: log.since,
            };
            if list.push(open).is_err() {
                return;
            }
        }
    }

    /// How many logs are listed.
    pub(crate) fn len(&self) -> usize {
        self.logs.len()
    }
}
