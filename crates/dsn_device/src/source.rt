//! The trait of devices that the daemon reads from.
ghost use Rattle.std.specs.Prelude.{◌≡◌, ℕ, Bool, false, List, Option, None, is_err};
ghost use Rattle.std.specs.Io.{ReadsAtMost};
ghost use Rattle.std.specs.Io.KnownBytes.{ReadConsumes, Keeps};
ghost use Rattle.dsn_device.specs.Failures.{counted};

use crate::broken::Broken;

/// A reader that counts its failures. An interrupted call is a failure like any other.
pub trait Source {
    // The bytes that reads will return from now on, if they are known.
    ghost remaining: { Self → Option (List ℕ) };

    // The bytes that the device holds, if it is written to as well and they are known.
    ghost holds: { Self → Option (List ℕ) } = { λ _. None };

    // How many times the device was flushed, if it is written to as well.
    ghost flushes: { Self → ℕ } = { λ _. 0 };

    // Whether such a device has taken bytes since its last successful flush.
    ghost unflushed: { Self → Bool } = { λ _. false };

    // How many calls have failed; the count stops at `u64::MAX`.
    ghost failures: { Self → ℕ };

    // No call fails. While this holds, calls keep it, and the count of failures doesn't change.
    ghost steady: { Self → Type 0 };

    /// Reads into the front of the buffer, and returns how many bytes it read. If the buffer has
    /// room, it returns 0 only at the end of the input. The bytes after them in the buffer are
    /// unspecified.
    fn read(&mut self, buffer: &mut [u8]) -> Result<usize, Broken>
        ensures bound { ReadsAtMost result buffer.new }
        ensures bytes { ReadConsumes (remaining self.old) (remaining self.new) result buffer.new }
        ensures held { Keeps (holds self.old) (holds self.new) }
        ensures no_flush { flushes self.new ≡ flushes self.old }
        ensures unflushed { unflushed self.new ≡ unflushed self.old }
        ensures count { failures self.new ≡ counted (is_err result) (failures self.old) }
        ensures steady { steady self.old
            → steady self.new × (failures self.new ≡ failures self.old) };
}
