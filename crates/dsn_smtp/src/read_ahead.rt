//! A stream of which more was read than is wanted yet.
//! Implements RFC 2920 section 3.1: the replies to a group of commands may come in one piece.
ghost use Rattle.std.specs.Prelude.{◌≡◌, ◌≤◌, ◌<◌, ◌++◌, [], length, take, IfErr, IfOk, OnErr, OnOk, is_err, IsTrue, ◌↔◌};
ghost use Rattle.std.specs.Io.KnownBytes.{Consumes, IsAtEnd, Keeps};
ghost use Rattle.dsn_device.specs.Failures.{counted};

use crate::reply_buffer::LONGEST_REPLY;
use dsn_device::{Broken, Source};
use std::marker::Model;

/// A stream, and the bytes that were read from it and aren't wanted yet. Each read returns at most
/// one line of them, so that a reply ends with the piece that is read last.
pub(crate) struct ReadAhead<S> {
    stream: S,
    bytes: [u8; LONGEST_REPLY],
    /// The bytes from `start` to `end` aren't wanted yet.
    start: usize,
    end: usize,
}

impl<S> Model for ReadAhead<S> {
    ghost use Rattle.std.specs.Prelude.{◌≤◌, slice_range};
    ghost use Rattle.dsn_smtp.specs.Reply.{longest_server_reply};
    ghost use Rattle.dsn_smtp.specs.inner.ReadAhead.{StreamAhead};

    ghost Value = { StreamAhead S };

    ghost view = { λ a. record { stream = a.stream; ahead = slice_range a.bytes a.start a.end } };

    ghost invariant = { λ a. (a.start ≤ a.end) × (a.end ≤ longest_server_reply) };
}

impl<S> ReadAhead<S> {
    /// A stream of which nothing was read.
    pub(crate) fn new(stream: S) -> ReadAhead<S>
        ensures { result ≡ record { stream = stream; ahead = [] } }
    {
        ReadAhead {
            stream,
            bytes: [0; LONGEST_REPLY],
            start: 0,
            end: 0,
        }
    }

    /// The stream. The bytes that aren't wanted yet are lost.
    pub(crate) fn into_stream(self) -> S
        ensures { result ≡ self.stream }
    {
        let ReadAhead {
            stream,
            bytes: _,
            start: _,
            end: _,
        } = self;
        stream
    }

    /// Whether there are no bytes that aren't wanted yet.
    pub(crate) fn is_empty(&self) -> bool
        ensures { IsTrue result ↔ (self.now.ahead ≡ []) }
    {
        self.bytes[self.start..self.end].is_empty()
    }

    /// Drops the bytes that aren't wanted yet.
    pub(crate) fn clear(&mut self)
        ensures { self.new ≡ record { stream = self.old.stream; ahead = [] } }
    {
        self.start = 0;
        self.end = 0;
    }

    /// Moves bytes of one line to the front of a buffer, and returns how many: 0 only if nothing is
    /// left, or the buffer has no room.
    fn give(&mut self, buffer: &mut [u8]) -> usize
        ensures within { result ≤ length buffer.new }
        ensures stream { self.new.stream ≡ self.old.stream }
        ensures bytes { self.old.ahead ≡ take result buffer.new ++ self.new.ahead }
        ensures some { result ≡ 0 → 0 < length buffer.new → self.old.ahead ≡ [] }
    {
        let ahead = &self.bytes[self.start..self.end];
        let count = line_size(ahead).min(buffer.len());
        buffer[..count].copy_from_slice(&ahead[..count]);
        self.start += count;
        count
    }
}

/// The size of the first line with its LF, or the number of bytes if there is no LF.
fn line_size(bytes: &[u8]) -> usize
    ensures within { result ≤ length bytes.now }
    ensures some { 0 < length bytes.now → 0 < result }
{
    let mut size = 0;
    while size < bytes.len() {
        size += 1;
        if bytes[size - 1] == b'\n' {
            return size;
        }
    }
    size
}

impl<S: Source> ReadAhead<S> {
    /// Reads a piece from the stream, in place of the bytes that aren't wanted yet.
    fn fill(&mut self) -> Result<(), Broken>
        ensures read { OnOk result
            (Consumes (S.remaining self.old.stream) (S.remaining self.new.stream) self.new.ahead) }
        ensures end { OnOk result (self.new.ahead ≡ [] → IsAtEnd (S.remaining self.new.stream)) }
        ensures failed { OnErr result
            (Keeps (S.remaining self.old.stream) (S.remaining self.new.stream)) }
        ensures none { OnErr result (self.new.ahead ≡ []) }
        ensures held { Keeps (S.holds self.old.stream) (S.holds self.new.stream) }
        ensures no_flush { S.flushes self.new.stream ≡ S.flushes self.old.stream }
        ensures unflushed { S.unflushed self.new.stream ≡ S.unflushed self.old.stream }
        ensures count { S.failures self.new.stream
            ≡ counted (is_err result) (S.failures self.old.stream) }
        ensures steady { S.steady self.old.stream
            → S.steady self.new.stream × (S.failures self.new.stream ≡ S.failures self.old.stream) }
    {
        self.start = 0;
        self.end = 0;
        let count = self.stream.read(&mut self.bytes)?;
        self.end = count;
        Ok(())
    }
}

impl<S: Source> Source for ReadAhead<S> {
    ghost use Rattle.std.specs.Io.KnownBytes.{prepend_known};

    ghost remaining = { λ a. prepend_known a.ahead (S.remaining a.stream) };

    ghost holds = { λ a. S.holds a.stream };

    ghost flushes = { λ a. S.flushes a.stream };

    ghost unflushed = { λ a. S.unflushed a.stream };

    ghost failures = { λ a. S.failures a.stream };

    ghost steady = { λ a. S.steady a.stream };

    fn read(&mut self, buffer: &mut [u8]) -> Result<usize, Broken> {
        if self.is_empty() {
            self.fill()?;
        }
        Ok(self.give(buffer))
    }
}
