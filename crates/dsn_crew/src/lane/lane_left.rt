//! What is left of a receiving half that was given up.
ghost use Rattle.std.specs.Prelude.{◌≡◌};

use crate::lane::lane_out::LaneOut;
use dsn_outcome::Carried;
use std::marker::Model;
use std::snapshot::Snapshot;

/// A receiving half that is gone. It has no bytes: contracts see the half as it was when it left,
/// with all that it had taken.
#[derive(Drop)]
pub struct LaneLeft<T: Carried> {
    out: Snapshot<LaneOut<T>>,
}

impl<T: Carried> Model for LaneLeft<T> {
    ghost use Rattle.dsn_crew.specs.lane.Halves.{Out};

    ghost Value = { Out T };

    ghost view = { λ l. l.out.value };
}

impl<T: Carried> LaneLeft<T> {
    /// What a receiving half leaves.
    pub(super) fn of(out: &LaneOut<T>) -> LaneLeft<T>
        ensures { result ≡ out.now }
    {
        LaneLeft {
            out: Snapshot::of(out),
        }
    }
}
