//! The line in the notes for a log that is still open.
use dsn_outcome::Key;

/// A key whose log is open, with the number of its outcomes.
#[derive(Clone, Copy, Debug, PartialEq, Eq)]
pub struct OpenLine {
    /// The log's key.
    pub key: Key,
    /// The number of its outcomes.
    pub count: u32,
}
