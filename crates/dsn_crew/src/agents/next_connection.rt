//! What a port answers.

/// What a port gives an agent that asks for its next connection.
#[derive(Drop)]
pub enum Next<S> {
    /// The next connection.
    Conn(S),
    /// There are no more connections.
    Done,
    /// A connection could not be got, and no more are.
    Failed,
}
