//! A buffer for one reply, which is read from a device in the pieces that the device gives.
//! Implements RFC 5321 section 4.2.
ghost use Rattle.std.specs.Prelude.{◌≡◌, ◌<◌, ◌≤◌, [], length, take, IfOk, IfErr, OnErr};
ghost use Rattle.std.specs.Io.KnownBytes.{Keeps};
ghost use Rattle.dsn_device.specs.Failures.{counted};
ghost use Rattle.dsn_smtp.specs.Reply.{last_text_of, longest_server_reply};
ghost use Rattle.dsn_smtp.specs.inner.ReplyState.{ReadsNoReplyPiece, ReadsReplyPiece};
ghost use Rattle.dsn_smtp.specs.ReplyReading.{ReadsNoReply, ReadsReply, reply_device_failed};

use crate::queue_id_text::after_last_byte;
use crate::reply_code::ReplyCode;
use crate::reply_fault::ReplyFault;
use crate::reply_state::{ReplyScan, scan};
use dsn_device::Source;
use std::marker::Model;

/// The longest reply that is read, in bytes (this project's profile).
pub const LONGEST_REPLY: usize = 8_192;

/// Room for one reply at a time, without allocation.
#[derive(Drop)]
pub struct ReplyBuffer {
    /// The reply that was read last is at the front. The bytes behind it are remains of longer
    /// ones.
    bytes: [u8; LONGEST_REPLY],
    /// The size of that reply in bytes; 0 if there is no reply.
    size: usize,
}

impl Model for ReplyBuffer {
    ghost use Rattle.std.specs.Prelude.{ℕ, List, ◌≤◌, take};
    ghost use Rattle.dsn_smtp.specs.Reply.{longest_server_reply};

    ghost Value = { List ℕ };

    ghost view = { λ b. take b.size b.bytes };

    ghost invariant = { λ b. b.size ≤ longest_server_reply };
}

impl ReplyBuffer {
    /// A buffer without a reply.
    pub fn new() -> ReplyBuffer
        ensures { result ≡ [] }
    {
        ReplyBuffer {
            bytes: [0; LONGEST_REPLY],
            size: 0,
        }
    }

    /// Reads one reply of at most [`LONGEST_REPLY`] bytes, holds it in place of the last one, and
    /// returns its code. After a fault the buffer holds no reply.
    /// Doesn't read past the end of the reply. So bytes behind it are a fault (`Trailing`) only if
    /// they came in one piece with the end.
    pub fn read_next<S: Source>(&mut self, source: &mut S) -> Result<ReplyCode, ReplyFault>
        ensures reply { IfOk result
            (λ code. ReadsReply (S.remaining source.old) (S.remaining source.new) code self.new) }
        ensures refused { IfErr result
            (λ fault. ReadsNoReply (S.remaining source.old) (S.remaining source.new) fault) }
        ensures none { OnErr result (self.new ≡ []) }
        ensures held { Keeps (S.holds source.old) (S.holds source.new) }
        ensures no_flush { S.flushes source.new ≡ S.flushes source.old }
        ensures unflushed { S.unflushed source.new ≡ S.unflushed source.old }
        ensures count { S.failures source.new
            ≡ counted (reply_device_failed result) (S.failures source.old) }
        ensures steady { S.steady source.old
            → S.steady source.new × (S.failures source.new ≡ S.failures source.old) }
    {
        self.size = 0;
        let read = read_into(&mut self.bytes, source)?;
        self.size = read.size;
        Ok(read.code)
    }

    /// All bytes of the reply that was read last; empty if there is no reply.
    pub fn bytes(&self) -> &[u8]
        ensures { result.now ≡ self.now }
    {
        &self.bytes[..self.size]
    }

    /// The text of the last line of the reply that was read last, without its code; empty if there
    /// is no text or no reply.
    pub fn last_text(&self) -> &[u8]
        ensures { result.now ≡ last_text_of self.now }
    {
        let bytes = self.bytes();
        let lines = &bytes[..bytes.len().saturating_sub(2)];
        let line = after_last_byte(lines, b'\n');
        &line[line.len().min(4)..]
    }
}

/// A reply at the front of a buffer.
#[derive(Clone, Copy)]
struct ReadReply {
    /// Its size in bytes.
    size: usize,
    code: ReplyCode,
}

/// Reads a reply to the front of a buffer. Requires a buffer of [`LONGEST_REPLY`] bytes.
fn read_into<S: Source>(bytes: &mut [u8], source: &mut S) -> Result<ReadReply, ReplyFault>
    requires room { length bytes.old ≡ longest_server_reply }
    ensures reply { IfOk result
        (λ read. ReadsReply (S.remaining source.old) (S.remaining source.new) read.code
        (take read.size bytes.new)) }
    ensures within { IfOk result (λ read. read.size ≤ longest_server_reply) }
    ensures refused { IfErr result
        (λ fault. ReadsNoReply (S.remaining source.old) (S.remaining source.new) fault) }
    ensures held { Keeps (S.holds source.old) (S.holds source.new) }
    ensures no_flush { S.flushes source.new ≡ S.flushes source.old }
    ensures unflushed { S.unflushed source.new ≡ S.unflushed source.old }
    ensures count { S.failures source.new ≡ counted (reply_device_failed result) (S.failures source.old) }
    ensures steady { S.steady source.old
        → S.steady source.new × (S.failures source.new ≡ S.failures source.old) }
{
    let mut filled = 0;
    while filled < LONGEST_REPLY {
        let count = read_piece(bytes, filled, source)?;
        filled += count;
        match scan(&bytes[..filled]) {
            ReplyScan::Open => {}
            ReplyScan::Whole(code) => return Ok(ReadReply { size: filled, code }),
            ReplyScan::Behind => return Err(ReplyFault::Trailing),
            ReplyScan::Wrong => return Err(ReplyFault::NoReply),
        }
    }
    Err(ReplyFault::TooLong)
}

/// Reads a piece into a buffer, behind its first `filled` bytes, which stay. Returns the size of
/// the piece in bytes, 1 or more. Requires room for one byte.
fn read_piece<S: Source>(
    bytes: &mut [u8],
    filled: usize,
    source: &mut S,
) -> Result<usize, ReplyFault>
    requires short { filled < length bytes.old }
    ensures piece { IfOk result
        (λ count. ReadsReplyPiece (S.remaining source.old) (S.remaining source.new) filled bytes.new
        count) }
    ensures refused { IfErr result
        (λ fault. ReadsNoReplyPiece (S.remaining source.old) (S.remaining source.new) filled fault) }
    ensures front { take filled bytes.new ≡ take filled bytes.old }
    ensures held { Keeps (S.holds source.old) (S.holds source.new) }
    ensures no_flush { S.flushes source.new ≡ S.flushes source.old }
    ensures unflushed { S.unflushed source.new ≡ S.unflushed source.old }
    ensures count { S.failures source.new ≡ counted (reply_device_failed result) (S.failures source.old) }
    ensures steady { S.steady source.old
        → S.steady source.new × (S.failures source.new ≡ S.failures source.old) }
{
    match source.read(&mut bytes[filled..]) {
        Ok(0) if filled == 0 => Err(ReplyFault::Nothing),
        Ok(0) => Err(ReplyFault::CutShort),
        Ok(count) => Ok(count),
        Err(_) => Err(ReplyFault::Read),
    }
}
