//! What became of the letters of a lane, and what is left of their outlet.
use crate::lane::LaneGone;
use dsn_report::OutboxEnd;

/// What became of the letters of a lane, once all of them were sent and the poster has ended.
#[derive(Drop)]
pub(crate) struct Posted<L> {
    /// What is left of the outlet, and the letters that reached the poster and it couldn't pass on.
    pub(crate) end: OutboxEnd<L>,
    /// How many letters were posted.
    pub(crate) posted: u32,
    /// What the lane reported if it was lost; `None` if all letters reached the poster, and the end
    /// mark after them.
    pub(crate) lost: Option<LaneGone>,
}
