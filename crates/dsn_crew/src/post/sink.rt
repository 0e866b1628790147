//! What takes a collector's letters.
ghost use Rattle.std.specs.Prelude.{◌≡◌, OnOk, IfErr};

use dsn_outcome::Letter;
use std::sync::Wait;

/// What takes a collector's letters, one after another.
pub trait Sink {
    ghost use Rattle.dsn_outcome.specs.Letter.{Letter};

    // What the sink becomes when it takes a letter.
    ghost takes: { Self → Letter → Self → Type 0 };

    /// Takes a letter. A sink that is gone, or takes no more, returns it, and stays as contracts see
    /// it.
    fn hand(&mut self, rt: &impl Wait, letter: Letter) -> Result<(), Letter>
        ensures ok { OnOk result (takes self.old letter self.new) }
        ensures lost { IfErr result (λ back. (back ≡ letter) × (self.new ≡ self.old)) };
}
