//! What was sent over a lane and taken.
ghost use Rattle.std.specs.Prelude.{◌≡◌};

use crate::lane::lane_in::LaneIn;
use crate::lane::lane_out::LaneOut;
use dsn_outcome::Carried;
use std::marker::Model;
use std::snapshot::Snapshot;

/// The lists of a lane. It has no bytes: contracts see the halves as they were at the close, with
/// all that they had sent and taken.
#[derive(Drop)]
pub struct LaneLists<T: Carried> {
    halves: Snapshot<Vec<LaneIn<T>>>,
    out: Snapshot<LaneOut<T>>,
}

impl<T: Carried> Model for LaneLists<T> {
    ghost use Rattle.dsn_crew.specs.lane.Halves.{Lists};

    ghost Value = { Lists T };

    ghost view = { λ l. record { halves = l.halves.value.items; out = l.out.value } };
}

impl<T: Carried> LaneLists<T> {
    /// What these halves have sent and taken.
    pub(super) fn of(halves: &Vec<LaneIn<T>>, out: &LaneOut<T>) -> LaneLists<T>
        ensures { result ≡ record { halves = halves.now.items; out = out.now } }
    {
        LaneLists {
            halves: Snapshot::of(halves),
            out: Snapshot::of(out),
        }
    }
}
