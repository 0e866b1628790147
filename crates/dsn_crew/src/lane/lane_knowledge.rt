//! What each half of a lane knows of it. No value of these types is made: they are for proofs
//! alone.
use std::collections::LinkedList;

/// What a sending half knows: its agent, and the items that it has sent, in order.
pub struct Sending<T> {
    /// The agent, from 0.
    pub agent: u64,
    /// What it has sent.
    pub sent: LinkedList<T>,
}

/// What the receiving half knows: how many agents have been given a half, and the items that it has
/// taken, in order. It also knows what the sending halves knew that it has taken back.
pub struct Taking<T> {
    /// How many agents have been given a half.
    pub made: u64,
    /// What was taken.
    pub taken: LinkedList<T>,
    /// What the halves that were taken back knew.
    pub back: LinkedList<Sending<T>>,
}

/// What a pass models: a sending half, the receiving half, or a half that was taken back. A
/// half knows first how many items its lane holds at most.
pub enum LaneKnowledge<T> {
    /// A sending half.
    Sends(u64, Sending<T>),
    /// The receiving half.
    Takes(u64, Taking<T>),
    /// A half that was taken back.
    Spent,
}
