//! A body that has no answer.
use crate::lane::LaneGone;
use dsn_outcome::Body;

/// A body that has no answer, since the collector's side of a lane is gone.
#[derive(Drop)]
pub(crate) struct Unanswered {
    /// The body, if it was not sent.
    pub(crate) body: Option<Body>,
    /// What the lane reported.
    pub(crate) gone: LaneGone,
}
