//! How a notice's words are chosen.
//! Implements noticed-notice(5).
ghost use Rattle.std.specs.Prelude.{◌≡◌};
ghost use Rattle.dsn_outcome.specs.Wording.{wording_byte, wording_of_byte};

/// What the words of a notice depend on (this project's profile).
#[derive(Clone, Copy, Debug, PartialEq, Eq)]
pub enum Wording {
    /// Its service only.
    ByService,
    /// Its service and its outcomes. A trace in which every recipient succeeded has words of its
    /// own. The description of the returned part depends on the service. The original recipient is
    /// named if it isn't the final one.
    ByOutcome,
}

impl Wording {
    /// The meaning of a flush's byte: 0 is by service, 1 is by outcome. Returns `None` for any
    /// other byte.
    pub fn from_byte(byte: u8) -> Option<Wording>
        ensures { result ≡ wording_of_byte byte }
    {
        match byte {
            0 => Some(Wording::ByService),
            1 => Some(Wording::ByOutcome),
            _ => None,
        }
    }

    /// The byte that encodes it in a flush.
    pub fn byte(self) -> u8
        ensures { result ≡ wording_byte self }
    {
        match self {
            Wording::ByService => 0,
            Wording::ByOutcome => 1,
        }
    }
}
