//! An item that could not be sent.
ghost use Rattle.std.specs.Prelude.{◌≡◌};
ghost use Rattle.dsn_text.specs.FaultCode.{lane_lost_code};

use crate::lane::lane_gone::LaneGone;
use dsn_text::fault_code;

/// The receiving half of the lane is gone: the item is returned. A lane alone makes it.
#[derive(Drop)]
pub struct Lost<T> {
    /// The item that was not sent.
    pub item: T,
    /// That the receiving half is gone.
    pub gone: LaneGone,
}

impl<T> Lost<T> {
    /// The number of the fault, 41.
    pub fn code(&self) -> u32
        ensures { result ≡ lane_lost_code }
    {
        fault_code::LANE_LOST
    }
}
