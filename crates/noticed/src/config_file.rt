//! The configuration file of `serve`.
//! A line is `key = value`, empty, or a comment that begins with `#`.
use crate::start_error::StartError;
use std::alloc::Global;
use std::fs;
use std::io::ErrorKind;

/// The keys: the long names of the options and arguments of `serve`.
const KEYS: [&str; 16] = [
    "socket",
    "host",
    "agents",
    "max-use",
    "journal",
    "max-journal",
    "outbox",
    "hand-in",
    "give-up",
    "release-closed",
    "logs",
    "entries",
    "idle",
    "end-on-fault",
    "log",
    "inherited",
];

/// A configuration file: its path, and its settings in their order, each key at most once.
#[derive(Drop)]
pub(crate) struct ConfigFile {
    path: String,
    settings: Vec<Setting>,
}

/// A line that sets a value.
#[derive(Drop)]
pub(crate) struct Setting {
    key: String,
    /// The value.
    pub(crate) value: String,
    /// The number of the line, from 1.
    pub(crate) line: usize,
}

impl ConfigFile {
    /// Reads the file at this path. Returns an error that names the path, and the line if there is
    /// one: if it can't be read, or a line is malformed, has an unknown key, or one that was before.
    pub(crate) fn read(rt: &HostRuntime, path: &str) -> Result<ConfigFile, StartError> {
        let alloc = rt.alloc();
        let bytes = match fs::read(rt, path) {
            Ok(bytes) => bytes,
            Err(error) if error.kind() == ErrorKind::OutOfMemory => return Err(
                StartError::NoMemory,
            ),
            Err(error) => return Err(StartError::at_file(alloc, path, &error)),
        };
        let text = match str::from_utf8(&bytes) {
            Ok(text) => text,
            Err(error) => {
                let line = lines_before(&bytes, error.valid_up_to()).saturating_add(1);
                return Err(StartError::at_line(alloc, path, line, "is not UTF-8"));
            }
        };
        let mut file = ConfigFile {
            path: format!(in alloc; "{path}")?,
            settings: Vec::new(alloc),
        };
        for (index, line) in text.lines().enumerate() {
            file.add(alloc, line.trim(), index.saturating_add(1))?;
        }
        Ok(file)
    }

    /// The path of the file.
    pub(crate) fn path(&self) -> &str {
        self.path.as_str()
    }

    /// The setting of this key, if the file has one.
    pub(crate) fn setting(&self, key: &str) -> Option<&Setting> {
        self.settings
            .iter()
            .find(|setting| setting.key.as_str() == key)
    }

    /// Adds what a line sets, if it sets something.
    fn add(&mut self, alloc: Global, text: &str, line: usize) -> Result<(), StartError> {
        if text.is_empty() || text.starts_with('#') {
            return Ok(());
        }
        let Some((key, value)) = text.split_once('=') else {
            return Err(self.wrong(alloc, line, "is not of the form 'key = value'", text));
        };
        let (key, value) = (key.trim(), value.trim());
        if !KEYS.contains(&key) {
            return Err(self.wrong(alloc, line, "has an unknown key", key));
        }
        if self.setting(key).is_some() {
            return Err(self.wrong(alloc, line, "has a key that was set before", key));
        }
        if value.is_empty() {
            return Err(self.wrong(alloc, line, "has no value", key));
        }
        let setting = Setting {
            key: format!(in alloc; "{key}")?,
            value: format!(in alloc; "{value}")?,
            line,
        };
        self.settings
            .push(setting)
            .map_err(|_| StartError::NoMemory)
    }

    /// The error of a line.
    fn wrong(&self, alloc: Global, line: usize, why: &str, word: &str) -> StartError {
        match format!(in alloc; "{why}: '{word}'") {
            Ok(reason) => StartError::at_line(alloc, self.path(), line, reason.as_str()),
            Err(_) => StartError::NoMemory,
        }
    }
}

/// How many lines end before this place.
fn lines_before(bytes: &[u8], place: usize) -> usize {
    bytes
        .iter()
        .take(place)
        .filter(|byte| **byte == b'\n')
        .count()
}
