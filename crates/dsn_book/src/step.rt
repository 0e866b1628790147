//! The result of a request.
use dsn_outcome::{Answer, Letter};

/// The result of a request.
#[derive(Drop)]
pub struct Step {
    /// The answer to the agent.
    pub answer: Answer,
    /// The letter that the request sealed, if it sealed one.
    pub letter: Option<Letter>,
}
