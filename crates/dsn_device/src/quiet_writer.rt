//! A drain with a record of whether it has failed, after which nothing is written to it.
ghost use Rattle.std.specs.Prelude.{◌≡◌, false};
ghost use Rattle.dsn_device.specs.QuietWriter.{Writes, Flushes, MarksLetter};

use crate::drain::Drain;
use crate::until_failure::UntilFailure;
use std::marker::Model;

/// Writes texts to a drain, and neither writes nor flushes after the drain's first failure. So
/// callers need not check each text: `has_failed` reports a failure after the last one.
#[derive(Drop)]
pub struct QuietWriter<D> {
    drain: D,
    writing: UntilFailure,
}

impl<D> Model for QuietWriter<D> {
    ghost use Rattle.dsn_device.specs.QuietWriter.{QuietWriter};

    ghost Value = { QuietWriter D };

    ghost view = { λ w. record { drain = w.drain; failed = w.writing.failed } };
}

impl<D> QuietWriter<D> {
    /// A writer to this drain.
    pub fn new(drain: D) -> QuietWriter<D>
        ensures { result ≡ record { drain = drain; failed = false } }
    {
        QuietWriter {
            drain,
            writing: UntilFailure::new(),
        }
    }

    /// Whether the drain has failed.
    pub fn has_failed(&self) -> bool
        ensures { result ≡ self.now.failed }
    {
        self.writing.failed
    }

    /// The drain, and whether it has failed.
    pub fn into_parts(self) -> (D, bool)
        ensures drain { result.0 ≡ self.drain }
        ensures failed { result.1 ≡ self.failed }
    {
        let QuietWriter { drain, writing } = self;
        (drain, writing.failed)
    }
}

impl<D: Drain> QuietWriter<D> {
    /// Writes the text, unless the drain has failed.
    pub fn write(&mut self, text: &[u8])
        ensures { Writes D.Drain self.old self.new text.now }
    {
        self.writing.write(&mut self.drain, text);
    }

    /// Flushes the drain, unless it has failed.
    pub fn flush(&mut self)
        ensures { Flushes D.Drain self.old self.new }
    {
        self.writing.flush(&mut self.drain);
    }

    /// Has the drain mark the letter with this serial, unless the drain has failed. Requires that
    /// the drain has failed, or has taken no byte since its last flush.
    pub fn mark_letter(&mut self, serial: u64)
        requires { self.old.failed ≡ false → D.unflushed self.old.drain ≡ false }
        ensures { MarksLetter D.Drain self.old self.new serial }
    {
        self.writing.mark_letter(&mut self.drain, serial);
    }
}
