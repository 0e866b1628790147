//! The state of an outbox at its end.
use dsn_outcome::Letters;

/// An outbox at its end, and the letters that could not be written to it.
#[derive(Drop)]
pub struct OutboxEnd<W> {
    /// The outbox.
    pub outbox: W,
    /// Whether nothing failed. Then the outbox has the notice of each letter, and QUIT.
    pub whole: bool,
    /// The letters that could not be written, in order.
    pub unsent: Letters,
}
