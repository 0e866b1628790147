//! Writing until a drain's first failure, and nothing after it.
ghost use Rattle.std.specs.Prelude.{◌≡◌, false};
ghost use Rattle.dsn_device.specs.UntilFailure.{WritesUntilFailure, FlushesUntilFailure, MarksUntilFailure};

use crate::drain::Drain;
use crate::transfer::send;

/// Whether a drain has failed so far. Texts that are written through it reach the drain until its
/// first failure, and nothing does after that. So callers need not check each text: `failed`
/// reports a failure after the last one.
///
/// It doesn't own the drain. A writer that is generic in its field can't know that a borrowed drain
/// is still the same one, so its caller would know nothing of the drain afterwards.
#[derive(Clone, Copy, Debug, PartialEq, Eq)]
pub struct UntilFailure {
    /// Whether the drain has failed.
    pub failed: bool,
}

impl UntilFailure {
    /// Nothing has failed so far.
    pub fn new() -> UntilFailure
        ensures { result.failed ≡ false }
    {
        UntilFailure { failed: false }
    }

    /// Writes the text, unless the drain has failed.
    pub fn write<D: Drain>(&mut self, drain: &mut D, text: &[u8])
        ensures { WritesUntilFailure D.Drain self.old.failed self.new.failed drain.old drain.new
            text.now }
    {
        self.failed = self.failed || send(drain, text).is_err();
    }

    /// Flushes the drain, unless it has failed.
    pub fn flush<D: Drain>(&mut self, drain: &mut D)
        ensures { FlushesUntilFailure D.Drain self.old.failed self.new.failed drain.old drain.new }
    {
        self.failed = self.failed || drain.flush().is_err();
    }

    /// Has the drain mark the letter with this serial, unless the drain has failed. Requires that
    /// the drain has failed, or has taken no byte since its last flush.
    pub fn mark_letter<D: Drain>(&mut self, drain: &mut D, serial: u64)
        requires { self.old.failed ≡ false → D.unflushed drain.old ≡ false }
        ensures { MarksUntilFailure D.Drain self.old.failed self.new.failed drain.old drain.new
            serial }
    {
        self.failed = self.failed || drain.mark_letter(serial).is_err();
    }
}
