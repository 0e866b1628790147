//! The facts of a message whose queue file can't be read to its end.
use crate::message_facts::MessageFacts;
use thiserror::Error;

/// A queue file that can't be read to its last record. cleanup(8) has such a file while it writes
/// it, and asks for a notice of a message that it gave up.
#[derive(Clone, Copy, Debug, Error)]
#[error("a queue file that can't be read on")]
pub struct BrokenMessage<'a> {
    /// The facts that the records before the break state.
    pub before: MessageFacts<'a>,
}
