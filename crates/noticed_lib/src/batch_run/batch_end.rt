//! What is left of a run.
use dsn_outcome::Letters;

/// How a run of [`batch`](crate::batch_run::batch) ended.
#[derive(Drop)]
pub struct BatchEnd<W> {
    /// The outbox.
    pub outbox: W,
    /// Whether the outbox has the notice of each sealed log, and QUIT.
    pub whole: bool,
    /// The number of the fault that ended the run: 9, 11 to 14, 46 or 47 of the reading, or 33 if a
    /// line of the notes was lost. `None` if the reading ended well and no line was lost. An outbox
    /// that failed is shown by `whole`, and open logs that could not be listed by `status` alone.
    pub fault: Option<u32>,
    /// The letters that could not be written, in order.
    pub unsent: Letters,
    /// The exit status: 1 if there was a fault, if the outbox isn't whole, or if the open logs
    /// could not be listed; otherwise 0.
    pub status: u8,
}
