//! Moments that may be missing, packed into eight bytes.
ghost use Rattle.std.specs.Prelude.{◌≡◌, IsTrue};
ghost use Rattle.dsn_text.specs.Optional.{is_none_or};
ghost use Rattle.dsn_text.specs.Stamp.{is_moment};

use crate::stamp::Stamp;
use std::marker::Model;

/// A moment that may be missing, in eight bytes. An `Option<Stamp>` takes sixteen.
#[derive(Debug, Drop)]
pub struct PackedStamp {
    // The seconds since 1970 began. A number after the last moment means that the moment is
    // missing.
    seconds: u64,
}

impl Model for PackedStamp {
    ghost use Rattle.std.specs.Prelude.{ℕ, Option};
    ghost use Rattle.dsn_text.specs.inner.Kept.{moment_within};

    ghost Value = { Option ℕ };

    ghost view = { λ kept. moment_within kept.seconds };
}

impl PackedStamp {
    /// Packs a moment, or a missing one.
    pub fn new(stamp: Option<Stamp>) -> PackedStamp
        ensures same { result ≡ stamp }
        ensures dated { IsTrue (is_none_or is_moment result) }
    {
        let seconds = match stamp {
            Some(stamp) => stamp.seconds(),
            None => u64::MAX,
        };
        PackedStamp { seconds }
    }

    /// The moment, if there is one.
    pub fn get(&self) -> Option<Stamp>
        ensures same { result ≡ self.now }
        ensures dated { IsTrue (is_none_or is_moment self.now) }
    {
        Stamp::new(self.seconds)
    }
}
