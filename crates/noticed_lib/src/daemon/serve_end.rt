//! What is left of the daemon's run.

/// How a run of [`serve`](crate::daemon::serve) ended.
#[derive(Drop)]
pub struct ServeEnd<W> {
    /// The outbox.
    pub outbox: W,
    /// The exit status: 1 if a line of a fault was due, or a line of the notes could not be written;
    /// else 0.
    pub status: u8,
}
