//! How a lane ends.
ghost use Rattle.std.specs.Prelude.{◌≡◌};
ghost use Rattle.dsn_text.specs.FaultCode.{lane_lost_code};

use crate::lane::lane_gone::LaneGone;
use dsn_text::fault_code;
use thiserror::Error;

/// The sending halves of the lane are gone, and nothing waits. A lane alone makes it.
#[derive(Clone, Copy, Debug, PartialEq, Eq, Error)]
#[error("lane ended")]
pub struct LaneEnd {
    /// That the sending halves are gone.
    pub gone: LaneGone,
}

impl LaneEnd {
    /// The number of the fault, 41.
    pub fn code(&self) -> u32
        ensures { result ≡ lane_lost_code }
    {
        fault_code::LANE_LOST
    }
}
