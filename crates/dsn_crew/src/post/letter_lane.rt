//! The opening of a lane of letters.
ghost use Rattle.std.specs.Prelude.{◌≡◌, ◌≤◌, false, [], IfOk};
ghost use Rattle.dsn_crew.specs.lane.Lane.{most_waiting};

use crate::lane::open_lane;
use crate::post::letter_sink::LetterSink;
use crate::post::letter_source::LetterSource;
use dsn_outcome::NoMemory;
use std::alloc::Global;
use std::sync::Wait;

/// A lane of letters that holds at most `capacity` of them: the half that sends them, and the one that
/// takes them. Returns `NoMemory` only if memory is refused. Outside this crate it is for tests.
pub fn open_post(
    rt: &impl Wait,
    alloc: Global,
    capacity: u32,
) -> Result<(LetterSink, LetterSource), NoMemory>
    requires capacity { (1 ≤ capacity) × (capacity ≤ most_waiting) }
    ensures sink { IfOk result (λ lane. lane.0 ≡ record { lane = lane.1.lane; letters = [] }) }
    ensures source { IfOk result
        (λ lane. lane.1 ≡ record { lane = lane.1.lane; letters = []; marked = false }) }
    ensures capacity { IfOk result (λ lane. lane.1.lane.capacity ≡ capacity) }
{
    let (mut room, parcels) = open_lane(rt, alloc, 0, 1, capacity)?;
    let Some(half) = room.pop() else {
        unreachable!()
    };
    Ok((LetterSink::new(half, room), LetterSource::new(parcels)))
}
