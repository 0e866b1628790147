//! The writer of an outbox, under a watch.
//! The lines are read off the outbox's own bytes, between its buffer and the device. So a line says
//! what was written, and the crates that write it know nothing of an event log.
ghost use Rattle.std.specs.Prelude.{◌≡◌};

use crate::daemon::log_line::{LINE_ROOM, notice_line};
use crate::daemon::watch::Watch;
use arrayvec::ArrayString;
use std::io;
use std::io::{ErrorKind, Write};
use std::marker::Model;

/// What the envelope of a notice begins with.
const ENVELOPE: &[u8] = b"MAIL FROM:";

/// Whether the envelope of a notice begins in this text.
fn has_envelope(text: &[u8]) -> bool {
    text.windows(ENVELOPE.len()).any(|part| part == ENVELOPE)
}

/// A writer that reports to its watch each notice once it is flushed, and the first failure. What
/// is written between two flushes is one notice, as a poster writes them, and its first write has
/// its envelope and its header's beginning.
#[derive(Drop)]
pub struct WatchedOutbox<'a, W, H> {
    inner: W,
    watch: &'a H,
    /// Whether nothing was written since the last flush.
    is_flushed: bool,
    /// Whether a notice is being written, and not QUIT.
    is_notice: bool,
    /// The line of the notice that is being written, where lines are wanted.
    line: ArrayString<LINE_ROOM>,
    has_failed: bool,
}

impl<'a, W, H> Model for WatchedOutbox<'a, W, H> {
    ghost use Rattle.noticed_lib.specs.daemon.WatchedOutbox.{WatchedOutbox};

    ghost Value = { WatchedOutbox W };

    ghost view = { λ o. record { inner = o.inner } };
}

impl<'a, W, H: Watch> WatchedOutbox<'a, W, H> {
    /// The writer over `inner`, under this watch.
    pub fn new(inner: W, watch: &'a H) -> WatchedOutbox<'a, W, H>
        ensures { result ≡ record { inner = inner } }
    {
        WatchedOutbox {
            inner,
            watch,
            is_flushed: true,
            is_notice: false,
            line: ArrayString::new(),
            has_failed: false,
        }
    }

    /// The writer inside.
    pub fn into_inner(self) -> W
        ensures { result ≡ self.entry.inner }
    {
        let WatchedOutbox { inner, .. } = self;
        inner
    }

    /// Takes the line of the notice whose first bytes these are.
    fn begin(&mut self, text: &[u8])
        ensures { self.new ≡ self.old }
    {
        if self.is_flushed && !text.is_empty() {
            self.is_flushed = false;
            self.is_notice = has_envelope(text);
            self.line = if self.watch.logs() {
                notice_line(text)
            } else {
                ArrayString::new()
            };
        }
    }

    /// Reports a failure, if it is the first.
    fn failed(&mut self, error: &io::Error)
        ensures { self.new ≡ self.old }
    {
        if !self.has_failed {
            self.has_failed = true;
            self.watch.outbox_failed(error);
        }
    }
}

impl<W: Write, H: Watch> Write for WatchedOutbox<'_, W, H> {
    ghost contents = { λ o. W.contents o.inner };

    fn write(&mut self, text: &[u8]) -> io::Result<usize> {
        self.begin(text);
        let written = self.inner.write(text);
        match &written {
            Ok(0) if !text.is_empty() => self.failed(&io::Error::from(ErrorKind::WriteZero)),
            Ok(_) => {}
            Err(error) => self.failed(error),
        }
        written
    }

    fn flush(&mut self) -> io::Result<()> {
        let flushed = self.inner.flush();
        match &flushed {
            Ok(()) if self.is_notice => self.watch.notice_written(&self.line),
            Ok(()) => {}
            Err(error) => self.failed(error),
        }
        self.is_flushed = true;
        self.is_notice = false;
        self.line.clear();
        flushed
    }
}
