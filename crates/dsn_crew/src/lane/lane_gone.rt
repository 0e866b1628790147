//! That the other side of a lane is gone.

/// The other side of a lane is gone: the lane itself reported it to one of its halves. Nothing
/// outside this folder makes a value of this type, so whoever shows one got the report.
#[derive(Clone, Copy, Debug, Drop, PartialEq, Eq)]
pub struct LaneGone {
    reported: (),
}

impl LaneGone {
    /// What a lane reports to a half whose other side is gone.
    pub(super) fn reported() -> LaneGone {
        LaneGone { reported: () }
    }
}
