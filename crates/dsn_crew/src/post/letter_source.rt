//! The poster's side of the lane of letters.
ghost use Rattle.std.specs.Prelude.{◌≡◌, ◌≤◌, false, true, [], length, IfNone, IfOk, IsSome};
ghost use Rattle.dsn_crew.specs.lane.Lane.{most_sent};
ghost use Rattle.dsn_crew.specs.inner.LetterSource.{HasTaken};

use crate::lane::{LaneGone, LaneOut};
use crate::post::parcel::Parcel;
use dsn_outcome::Letter;
use std::marker::Model;
use std::sync::Wait;

/// The half of a lane by which a poster takes the letters of a lane. Contracts see its lane, the
/// letters that it has taken, in order, and whether the end mark came after them.
#[derive(Drop)]
pub struct LetterSource {
    pub(super) parcels: LaneOut<Parcel>,
    marked: bool,
}

impl Model for LetterSource {
    ghost use Rattle.std.specs.Prelude.{◌≡◌};
    ghost use Rattle.dsn_crew.specs.post.LetterSource.{LetterSource};
    ghost use Rattle.dsn_crew.specs.inner.LetterSource.{taken_parcels};
    ghost use Rattle.dsn_crew.specs.inner.LetterSource.{letters_of};

    ghost Value = { LetterSource };

    ghost view = { λ s. record {
      lane = s.parcels.lane;
      letters = letters_of s.parcels.taken;
      marked = s.marked;
    } };

    ghost invariant = { λ s. s.parcels
        ≡ taken_parcels
        (record {
          lane = s.parcels.lane;
          letters = letters_of s.parcels.taken;
          marked = s.marked;
        }) };
}

impl LetterSource {
    /// The receiving half of a lane from which nothing was taken.
    pub(super) fn new(parcels: LaneOut<Parcel>) -> LetterSource
        requires unused { (parcels.first ≡ 0) × (parcels.past ≡ 1) × (parcels.taken ≡ []) }
        ensures { result ≡ record { lane = parcels.lane; letters = []; marked = false } }
    {
        LetterSource {
            parcels,
            marked: false,
        }
    }

    /// Whether the end mark was taken, so that no letter comes any more.
    pub(super) fn has_ended(&self) -> bool
        ensures { result ≡ self.now.marked }
    {
        self.marked
    }

    /// Takes the next letter, and waits for it. Returns `None` at the end mark and after it, and
    /// `LaneGone` if the sending half is gone before its mark.
    #[tactic(auto, using(crate::proofs::post::LetterSourceLemmas::parcels))]
    pub(super) fn take(&mut self, rt: &impl Wait) -> Result<Option<Letter>, LaneGone>
        ensures taken { HasTaken self.old self.new result }
        ensures few { IfOk result
            (λ letter. IsSome letter → length self.new.letters ≤ most_sent) }
        ensures ended { IfOk result (λ letter. IfNone letter (self.new.marked ≡ true)) }
    {
        if self.marked {
            return Ok(None);
        }
        let parcel = match self.parcels.take(rt) {
            Ok(parcel) => parcel,
            Err(end) => return Err(end.gone),
        };
        let Parcel { letter, .. } = parcel;
        match letter {
            Some(letter) => Ok(Some(letter)),
            None => {
                self.marked = true;
                Ok(None)
            }
        }
    }

    /// Takes the next letter if one waits, and doesn't wait. Returns `None` also if none waits, and at
    /// the end mark and after it; and `LaneGone` if the sending half is gone before its mark.
    #[tactic(auto, using(crate::proofs::post::LetterSourceLemmas::parcels))]
    pub(super) fn take_waiting(&mut self, rt: &impl Wait) -> Result<Option<Letter>, LaneGone>
        ensures taken { HasTaken self.old self.new result }
        ensures few { IfOk result
            (λ letter. IsSome letter → length self.new.letters ≤ most_sent) }
    {
        if self.marked {
            return Ok(None);
        }
        let parcel = match self.parcels.take_waiting(rt) {
            Ok(Some(parcel)) => parcel,
            Ok(None) => return Ok(None),
            Err(end) => return Err(end.gone),
        };
        let Parcel { letter, .. } = parcel;
        match letter {
            Some(letter) => Ok(Some(letter)),
            None => {
                self.marked = true;
                Ok(None)
            }
        }
    }
}
