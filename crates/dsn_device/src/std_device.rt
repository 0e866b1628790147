//! Devices made of std's readers and writers.
ghost use Rattle.std.specs.Prelude.{◌≡◌, true, false};
ghost use Rattle.dsn_device.specs.Failures.{counted};

use crate::broken::Broken;
use crate::drain::Drain;
use crate::opaque_stream::OpaqueStream;
use crate::source::Source;
use crate::stream::Stream;
use std::io::{Read, Write};
use std::marker::Model;

/// A std reader or writer with counts of its failures and its flushes, which stop at `u64::MAX`.
/// Every error is a failure, including `Interrupted`, and no call is retried.
#[derive(Drop)]
pub struct Plain<T> {
    inner: T,
    failures: u64,
    flushes: u64,
    /// Whether bytes were taken since the last successful flush.
    unflushed: bool,
}

impl<T> Model for Plain<T> {
    ghost use Rattle.dsn_device.specs.Plain.{Plain};

    ghost Value = { Plain T };

    ghost view = { λ p. record {
      inner = p.inner;
      failures = p.failures;
      flushes = p.flushes;
      unflushed = p.unflushed;
    } };
}

impl<T> Plain<T> {
    /// A device that reads from or writes to `inner`. It has no failures and no flushes yet.
    pub fn new(inner: T) -> Plain<T>
        ensures { result ≡ record { inner = inner; failures = 0; flushes = 0; unflushed = false } }
    {
        Plain {
            inner,
            failures: 0,
            flushes: 0,
            unflushed: false,
        }
    }

    /// The reader or writer inside.
    pub fn into_inner(self) -> T
        ensures { result ≡ self.inner }
    {
        let Plain {
            inner,
            failures: _,
            flushes: _,
            unflushed: _,
        } = self;
        inner
    }

    // Counts a failure.
    fn count_failure(&mut self)
        ensures { self.new ≡ record self.old { failures = counted true self.old.failures } }
    {
        self.failures = self.failures.saturating_add(1);
    }

    // Counts a flush.
    fn count_flush(&mut self)
        ensures { self.new ≡ record self.old { flushes = counted true self.old.flushes } }
    {
        self.flushes = self.flushes.saturating_add(1);
    }
}

impl<T: Read> Source for Plain<T> {
    ghost remaining = { λ p. T.remaining p.inner };

    ghost failures = { λ p. p.failures };

    ghost flushes = { λ p. p.flushes };

    ghost unflushed = { λ p. p.unflushed };

    ghost steady = { λ _. ⊥ };

    fn read(&mut self, buffer: &mut [u8]) -> Result<usize, Broken> {
        match self.inner.read(buffer) {
            Ok(count) => Ok(count),
            Err(_) => {
                self.count_failure();
                Err(Broken)
            }
        }
    }
}

impl<T: Write> Drain for Plain<T> {
    ghost contents = { λ p. T.contents p.inner };

    ghost failures = { λ p. p.failures };

    ghost flushes = { λ p. p.flushes };

    ghost unflushed = { λ p. p.unflushed };

    ghost steady = { λ _. ⊥ };

    fn write(&mut self, text: &[u8]) -> Result<usize, Broken> {
        match self.inner.write(text) {
            Ok(0) if !text.is_empty() => {
                self.count_failure();
                Ok(0)
            }
            Ok(count) => {
                self.unflushed |= count > 0;
                Ok(count)
            }
            Err(_) => {
                self.count_failure();
                Err(Broken)
            }
        }
    }

    fn flush(&mut self) -> Result<(), Broken> {
        self.count_flush();
        match self.inner.flush() {
            Ok(()) => {
                self.unflushed = false;
                Ok(())
            }
            Err(_) => {
                self.count_failure();
                Err(Broken)
            }
        }
    }

    fn mark_letter(&mut self, _serial: u64) -> Result<(), Broken> {
        Ok(())
    }
}

impl<T: OpaqueStream> Stream for Plain<T> {
    ghost use Rattle.std.specs.Prelude.{refl};
    ghost use Rattle.std.proofs.Common.{sym};

    ghost one_count = { λ _. refl };

    ghost one_flush_count = { λ _. refl };

    ghost one_unflushed = { λ _. refl };

    ghost one_promise = { λ _. (λ h. h, λ h. h) };

    ghost held_is_written = { λ p. sym (T.untold_output p.inner) };

    ghost left_is_unread = { λ p. sym (T.untold_input p.inner) };
}
