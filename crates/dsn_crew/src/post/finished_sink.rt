//! The end of the lane of letters.
ghost use Rattle.std.specs.Prelude.{◌≡◌, ◌≤◌, ◌+◌, ◌↔◌, true, [], length, vec_capacity};
ghost use mathlib.Core.List.{IsPrefix};
ghost use Rattle.dsn_crew.specs.inner.LetterSource.{letters_of, parcels_of};

use crate::lane::{LaneIn, close_lane};
use crate::post::letter_source::LetterSource;
use crate::post::parcel::Parcel;
use std::marker::Model;
use std::sync::Wait;

/// The sending half of a lane of letters that has sent the end mark, or could not. Contracts see its
/// lane, the letters that it has sent, and whether the mark was sent.
#[derive(Drop)]
pub(super) struct FinishedSink {
    half: LaneIn<Parcel>,
    room: Vec<LaneIn<Parcel>>,
    marked: bool,
}

impl Model for FinishedSink {
    ghost use Rattle.std.specs.Prelude.{◌≡◌, ◌≤◌, [], vec_capacity};
    ghost use Rattle.dsn_crew.specs.inner.LetterSource.{FinishedSink};
    ghost use Rattle.dsn_crew.specs.inner.LetterSource.{letters_of, parcels_of};

    ghost Value = { FinishedSink };

    ghost view = { λ s. record {
      lane = s.half.lane;
      letters = letters_of s.half.sent;
      marked = s.marked;
    } };

    ghost invariant = { λ s. (s.half.agent ≡ 0)
        × (s.half.sent ≡ parcels_of (letters_of s.half.sent) s.marked) × (s.room.items ≡ [])
        × (1 ≤ vec_capacity s.room) };
}

impl FinishedSink {
    /// What is left of the sink whose half this is.
    pub(super) fn new(half: LaneIn<Parcel>, room: Vec<LaneIn<Parcel>>, marked: bool) -> FinishedSink
        requires agent { half.agent ≡ 0 }
        requires sent { half.sent ≡ parcels_of (letters_of half.sent) marked }
        requires room { (room.items ≡ []) × (1 ≤ vec_capacity room) }
        ensures { result ≡ record {
          lane = half.lane;
          letters = letters_of half.sent;
          marked = marked;
        } }
    {
        FinishedSink { half, room, marked }
    }

    /// Closes the lane. Returns whether all that was sent was taken, the end mark included. What waits
    /// is dropped. It takes no memory.
    pub(super) fn close(self, rt: &impl Wait, source: LetterSource) -> bool
        requires lane { source.lane ≡ self.lane }
        ensures first { IsPrefix source.letters self.letters }
        ensures marked { source.marked ≡ true → source.letters ≡ self.letters }
        ensures few { length self.letters ≤ length source.letters + self.lane.capacity }
        ensures all { (result ≡ true)
            ↔ ((source.letters ≡ self.letters) × (source.marked ≡ self.marked)) }
    {
        let FinishedSink { half, mut room, .. } = self;
        room.push_reserved(half);
        close_lane(rt, room, source.parcels).waiting == 0
    }
}
