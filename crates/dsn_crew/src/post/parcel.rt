//! What the lane of letters carries.
use dsn_outcome::{Carried, Letter};
use std::marker::Model;

/// A letter on its way to the poster with its place among the letters, from 0; or, with no letter,
/// the end mark, which comes after all of them. The last number is kept for the mark.
#[derive(Drop)]
pub(super) struct Parcel {
    /// How many letters were sent before.
    pub(super) number: u32,
    /// The letter; none at the end mark.
    pub(super) letter: Option<Letter>,
}

impl Model for Parcel {
    ghost use Rattle.std.specs.Prelude.{◌<◌, IsSome};
    ghost use Rattle.dsn_crew.specs.lane.Lane.{most_sent};
    ghost use Rattle.dsn_crew.specs.post.Parcel.{Parcel};

    ghost Value = { Parcel };

    ghost view = { λ p. record { number = p.number; letter = p.letter } };

    ghost invariant = { λ p. IsSome p.letter → p.number < most_sent };
}

impl Carried for Parcel {
    ghost agent = { λ parcel. 0 };

    ghost number = { λ parcel. parcel.number };

    fn agent(&self) -> u32 {
        0
    }

    fn number(&self) -> u32 {
        self.number
    }
}
