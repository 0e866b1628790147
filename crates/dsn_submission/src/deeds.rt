//! What lies behind a submitter: where refused letters are kept, and which ones are settled.
ghost use Rattle.std.specs.Prelude.{◌≡◌, is_ok};

use crate::mail::Mail;
use dsn_device::Broken;

/// A place where letters that are refused for good are kept.
pub trait RefusedLetters {
    ghost use Rattle.std.specs.Prelude.{ℕ, Bool, List};

    // What the place becomes when a letter, with its path and its message, and a reason are to be kept,
    // and whether that succeeds. Each implementation defines it, since no contract can describe a
    // file.
    ghost keeps: { Self → List ℕ → List ℕ → List ℕ → Bool → Self → Type 0 };

    /// Keeps a letter and the reason of its refusal, which is mostly the server's reply, so that no
    /// crash loses them. Returns `Broken` if one may.
    // A type parameter of the trait would be one that no thread could rely on.
    fn keep<T: Mail>(&mut self, letter: &T, reason: &[u8]) -> Result<(), Broken>
        ensures { keeps self.old (T.path_of letter.now) (T.message_of letter.now) reason.now
            (is_ok result) self.new };
}

/// A place where it is kept which letters are settled.
pub trait Marks {
    ghost use Rattle.std.specs.Prelude.{◌≡◌, ◌≢◌, ℕ, Bool};

    // What the place becomes when it is to keep that the letter with a serial is settled, and whether
    // that succeeds. Each implementation defines it, since no contract can describe a file.
    ghost settles: { Self → ℕ → Bool → Self → Type 0 };

    // Whether the place has the letter with a serial as settled.
    ghost has_settled: { Self → ℕ → Bool };

    // No other letter becomes settled by that, or isn't any more.
    ghost keeps_others: { (old : Self) (serial : ℕ) (ok : Bool) (new : Self) (other : ℕ)
        → settles old serial ok new → other ≢ serial → has_settled new other ≡ has_settled old other };

    /// Keeps that the letter with this serial is settled. Returns `Broken` if a crash may lose it.
    fn settle(&mut self, serial: u64) -> Result<(), Broken>
        ensures { settles self.old serial (is_ok result) self.new };

    /// Whether the letter with this serial was settled, also by an earlier run.
    fn has_settled(&self, serial: u64) -> bool
        ensures { result ≡ has_settled self.now serial };
}
