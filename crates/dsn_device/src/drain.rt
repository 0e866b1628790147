//! The trait of devices that the daemon writes to.
ghost use Rattle.std.specs.Prelude.{◌≡◌, ℕ, Bool, ◌&&◌, ◌||◌, false, List, Option, None, IsOk, OnOk, is_err, is_ok};
ghost use Rattle.std.specs.Io.{WritesAtMost};
ghost use Rattle.std.specs.Io.KnownBytes.{WriteAppends, Keeps};
ghost use Rattle.dsn_device.specs.Failures.{counted, write_failed};
ghost use Rattle.dsn_device.specs.Flushes.{flushed, took_bytes};
ghost use Rattle.dsn_device.specs.Marking.{LeavesItsCount, SayCountOrNext, marked_by};
ghost use Rattle.dsn_device.specs.Throughout.{LeavesThroughout, StandsStill};

use crate::broken::Broken;

/// A writer that counts its failures and its flushes. An interrupted call is a failure, and also a
/// write that takes no byte of a text that isn't empty.
pub trait Drain {
    // The bytes that the device holds, if they are known.
    ghost contents: { Self → Option (List ℕ) };

    // The bytes that reads will return, if the device is read from as well and they are known.
    ghost left: { Self → Option (List ℕ) } = { λ _. None };

    // How many calls have failed; the count stops at `u64::MAX`.
    ghost failures: { Self → ℕ };

    // How many times the device was flushed, including failed flushes; the count stops at
    // `u64::MAX`.
    ghost flushes: { Self → ℕ };

    // Whether the device has taken bytes since its last successful flush. The count alone would
    // allow a flush before a letter's last line. Both together specify that a letter is flushed
    // once, after its whole text. No other clause shows it, since a flush changes no bytes.
    ghost unflushed: { Self → Bool };

    // How many letters are marked, if the device marks letters: those whose text was flushed, so
    // that no later run writes it again.
    ghost marked: { Self → Option ℕ } = { λ _. None };

    // The moment, as a number that never decreases.
    ghost moment: { Self → ℕ } = { λ _. 0 };

    // The marks that a crash since this moment may have left, during a call or between two calls.
    // If the device marks no letters, there are no such bytes.
    ghost left_since: { Self → ℕ → List ℕ → Type 0 } = { λ _ _ _. ⊥ };

    // A later run that finds these bytes of marks takes this number of letters as marked.
    ghost say: { List ℕ → ℕ → Type 0 } = { λ _ _. ⊥ };

    // No call fails. While this holds, calls keep it, and the count of failures doesn't change.
    ghost steady: { Self → Type 0 };

    // No flush fails. While this holds, writes and flushes keep it. A write to memory can be
    // refused, a flush can't. `Plain` can't promise this of the writer inside, since std's
    // contracts of writers don't express it. So memory is a device of its own, `MemoryDrain`.
    ghost flushes_surely: { Self → Type 0 } = { λ _. ⊥ };

    /// Writes a front of the text, and returns how many bytes it took.
    fn write(&mut self, text: &[u8]) -> Result<usize, Broken>
        ensures bound { WritesAtMost result text.now }
        ensures bytes { WriteAppends (contents self.old) (contents self.new) result text.now }
        ensures unread { Keeps (left self.old) (left self.new) }
        ensures count { failures self.new
            ≡ counted (write_failed result text.now) (failures self.old) }
        ensures no_flush { flushes self.new ≡ flushes self.old }
        ensures unflushed { unflushed self.new ≡ (unflushed self.old || took_bytes result) }
        ensures marked { marked self.new ≡ marked self.old }
        ensures no_moment { StandsStill (moment self.old) (moment self.new)
            (left_since self.old) (left_since self.new) }
        ensures surely { flushes_surely self.old → flushes_surely self.new }
        ensures steady { steady self.old
            → steady self.new × (failures self.new ≡ failures self.old) };

    /// Passes on what the device holds in a buffer of its own, if it has one.
    fn flush(&mut self) -> Result<(), Broken>
        ensures bytes { Keeps (contents self.old) (contents self.new) }
        ensures unread { Keeps (left self.old) (left self.new) }
        ensures count { failures self.new ≡ counted (is_err result) (failures self.old) }
        ensures once { flushes self.new ≡ flushed (flushes self.old) }
        ensures passed_on { unflushed self.new ≡ (unflushed self.old && is_err result) }
        ensures marked { marked self.new ≡ marked self.old }
        ensures no_moment { StandsStill (moment self.old) (moment self.new)
            (left_since self.old) (left_since self.new) }
        ensures surely { flushes_surely self.old → flushes_surely self.new × IsOk result }
        ensures steady { steady self.old
            → steady self.new × (failures self.new ≡ failures self.old) };

    /// Marks the letter with this serial, and all before it. Their text was flushed, so no later
    /// run writes it again. A device that marks no letters does nothing. After a failure, a crash
    /// may leave the letter marked or not.
    ///
    /// Requires that the device has taken no byte since its last flush.
    fn mark_letter(&mut self, serial: u64) -> Result<(), Broken>
        requires flushed { unflushed self.old ≡ false }
        ensures bytes { Keeps (contents self.old) (contents self.new) }
        ensures unread { Keeps (left self.old) (left self.new) }
        ensures count { failures self.new ≡ counted (is_err result) (failures self.old) }
        ensures no_flush { flushes self.new ≡ flushes self.old }
        ensures unflushed { unflushed self.new ≡ unflushed self.old }
        ensures marked { marked self.new
            ≡ marked_by (is_ok result) serial (marked self.old) }
        ensures unmarking { marked self.old ≡ None → IsOk result }
        ensures any_moment { LeavesItsCount moment left_since say marked self.old
            → LeavesThroughout moment left_since self.old self.new
            (SayCountOrNext say (marked self.old) serial) }
        ensures leaves { LeavesItsCount moment left_since say marked self.old
            → OnOk result (LeavesItsCount moment left_since say marked self.new) }
        ensures surely { flushes_surely self.old → flushes_surely self.new × IsOk result }
        ensures steady { steady self.old
            → steady self.new × (failures self.new ≡ failures self.old) };
}
