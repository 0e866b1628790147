//! What is left of a lane that was closed.
use crate::lane::lane_lists::LaneLists;
use dsn_outcome::Carried;

/// A closed lane: how many items were taken, and how many waited and were dropped.
#[derive(Drop)]
pub struct LaneShut<T: Carried> {
    /// How many items were taken.
    pub taken: u64,
    /// How many items waited.
    pub waiting: u64,
    /// What was sent and taken, for contracts.
    pub lists: LaneLists<T>,
}
