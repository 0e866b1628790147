//! The collector's side of the lane of letters.
ghost use Rattle.std.specs.Prelude.{◌≡◌, ◌≤◌, [], vec_capacity};

use crate::lane::LaneIn;
use crate::post::finished_sink::FinishedSink;
use crate::post::parcel::Parcel;
use crate::post::sink::Sink;
use dsn_outcome::Letter;
use std::marker::Model;
use std::sync::Wait;

/// How many letters are sent at most: the end mark needs a number of its own.
const MOST_LETTERS: u32 = 4_294_967_294;

/// The half by which a collector sends its letters to the poster, with room for it at the close.
/// Contracts see its lane and the letters that it has sent, in order.
#[derive(Drop)]
pub struct LetterSink {
    half: LaneIn<Parcel>,
    room: Vec<LaneIn<Parcel>>,
}

impl Model for LetterSink {
    ghost use Rattle.std.specs.Prelude.{◌≡◌, ◌<◌, ◌≤◌, false, [], length, vec_capacity};
    ghost use Rattle.dsn_crew.specs.lane.Lane.{most_sent};
    ghost use Rattle.dsn_crew.specs.post.LetterSink.{LetterSink};
    ghost use Rattle.dsn_crew.specs.inner.LetterSource.{letters_of, parcels_of};

    ghost Value = { LetterSink };

    ghost view = { λ s. record { lane = s.half.lane; letters = letters_of s.half.sent } };

    ghost invariant = { λ s. (s.half.agent ≡ 0)
        × (s.half.sent ≡ parcels_of (letters_of s.half.sent) false)
        × (length s.half.sent < most_sent) × (s.room.items ≡ []) × (1 ≤ vec_capacity s.room) };
}

impl Sink for LetterSink {
    ghost use Rattle.dsn_crew.specs.post.LetterSink.{TakesLetter};

    ghost takes = { TakesLetter };

    /// Sends a letter to the poster, and waits while the lane is full. It takes no memory. Returns the
    /// letter if the receiving half is gone, and if 4,294,967,294 were sent.
    fn hand(&mut self, rt: &impl Wait, letter: Letter) -> Result<(), Letter> {
        let number = self.half.count();
        if number >= MOST_LETTERS {
            return Err(letter);
        }
        let parcel = Parcel {
            number,
            letter: Some(letter),
        };
        match self.half.send(rt, parcel) {
            Ok(()) => Ok(()),
            Err(lost) => match lost.item.letter {
                Some(letter) => Err(letter),
                None => unreachable!(),
            },
        }
    }
}

impl LetterSink {
    /// A sink with the one sending half of a lane over which nothing was sent, and room for it.
    pub(super) fn new(half: LaneIn<Parcel>, room: Vec<LaneIn<Parcel>>) -> LetterSink
        requires unused { (half.agent ≡ 0) × (half.sent ≡ []) }
        requires room { (room.items ≡ []) × (1 ≤ vec_capacity room) }
        ensures { result ≡ record { lane = half.lane; letters = [] } }
    {
        LetterSink { half, room }
    }

    /// Sends the end mark, so that the poster doesn't take the lane for lost, and ends the sink.
    pub(super) fn mark(self, rt: &impl Wait) -> FinishedSink
        ensures { (result.lane ≡ self.lane) × (result.letters ≡ self.letters) }
    {
        let LetterSink { mut half, room } = self;
        let mark = Parcel {
            number: half.count(),
            letter: None,
        };
        let marked = half.send(rt, mark).is_ok();
        FinishedSink::new(half, room, marked)
    }
}
