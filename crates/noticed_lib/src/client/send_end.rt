//! What is left of a send.

/// How a [`send`](crate::client::send) ended.
#[derive(Clone, Copy, Debug, PartialEq, Eq)]
pub struct SendEnd {
    /// The exit status: 1 where there was a fault, else 0.
    pub status: u8,
    /// The number of the fault that ended the send; none if the input was answered to its end.
    pub fault: Option<u32>,
}
