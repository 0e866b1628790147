//! The state of a recipient in a queue file.
//! Implements docs/postfix-internals.md, "Postfix's queue files".
ghost use Rattle.std.specs.Prelude.{◌≡◌};
ghost use Rattle.dsn_postfix_files.specs.QueueRecipients.{state_of_kind};

/// The state of a recipient, which is the type of its record.
#[derive(Clone, Copy, Debug, PartialEq, Eq)]
pub enum RecipientState {
    /// The message is still to be delivered (`R`).
    Waiting,
    /// The message was delivered, or its bounce was logged; in that case the sender may not have
    /// been notified yet (`D`).
    Done,
    /// The recipient was removed before delivery (`/`).
    Removed,
}

impl RecipientState {
    /// The state that the type of a record means, if it is the type of a recipient's record.
    pub(super) fn of_kind(kind: u8) -> Option<RecipientState>
        ensures { result ≡ state_of_kind kind }
    {
        match kind {
            b'R' => Some(RecipientState::Waiting),
            b'D' => Some(RecipientState::Done),
            b'/' => Some(RecipientState::Removed),
            _ => None,
        }
    }
}
