//! A buffer for frames, which is kept from one frame to the next.
//! Implements noticed-protocol(5).
ghost use Rattle.std.specs.Prelude.{◌≡◌, ◌≢◌, ◌+◌, ◌<◌, ◌≤◌, length, take, drop, IfOk, IfErr, OnOk, OnErr};
ghost use Rattle.std.specs.Io.KnownBytes.{Consumes, Keeps};
ghost use Rattle.dsn_device.specs.Failures.{counted};
ghost use Rattle.dsn_frame.specs.bodies.FrameBody.{IsFrameLength};
ghost use Rattle.dsn_frame.specs.inner.FrameBuffer.{BodyMissing, IsHeld};
ghost use Rattle.dsn_frame.specs.Frame.{LacksRoom, ReadsNext, ReadsNone, length_prefix, longest_frame};
ghost use Rattle.dsn_frame.specs.inner.FrameBuffer.{IsAtFront, body_at_front};
ghost use Rattle.dsn_frame.specs.FrameBuffer.{LeavesRoom, RoomAfter, RoomFor};
ghost use Rattle.dsn_frame.specs.FrameFault.{source_failed};

use crate::frame::{LENGTH, LONGEST_BODY, fill_frame, read_length};
use crate::frame_fault::FrameFault;
use crate::frame_ref::FrameRef;
use dsn_outcome::Source;
use std::alloc::{AllocError, Global};
use std::marker::Model;

/// The length of the longest frame, in bytes.
const LONGEST_FRAME: usize = LENGTH + LONGEST_BODY;

/// Room for one frame at a time, into which all frames of a session are read. It grows only for a
/// frame that is longer than its room, to twice the room or to the length of the frame if that is
/// longer. It never exceeds the longest frame, 65,540 bytes, and releases its memory only when it
/// is dropped.
#[derive(Debug, Drop)]
pub struct FrameBuffer {
    /// The last frame is at the front. The bytes after it are left over from longer frames.
    bytes: Vec<u8>,
    /// The length of the last frame in bytes, or `None` if there is no frame.
    whole: Option<usize>,
}

impl Model for FrameBuffer {
    ghost use Rattle.std.specs.Prelude.{length, ◌≤◌};
    ghost use Rattle.dsn_frame.specs.Frame.{longest_frame};
    ghost use Rattle.dsn_frame.specs.FrameBuffer.{Buffered};
    ghost use Rattle.dsn_frame.specs.inner.FrameBuffer.{IsAtFront, body_at_front};

    ghost Value = { Buffered };

    ghost view = { λ b. record { room = length b.bytes.items; held = body_at_front b.bytes.items b.whole } };

    ghost invariant = { λ b. (length b.bytes.items ≤ longest_frame) × IsAtFront b.bytes.items b.whole };
}

impl FrameBuffer {
    /// A buffer with no frame and no room. Allocates no memory.
    pub fn new(alloc: Global) -> FrameBuffer
        ensures room { result.room ≡ 0 }
        ensures none { result.held ≡ None }
    {
        FrameBuffer {
            bytes: Vec::new(alloc),
            whole: None,
        }
    }

    /// Reads the next frame as [`read_frame`](crate::read_frame) does, and holds it in place of the
    /// last one. The buffer holds no frame if the input ends before the frame's first byte, or
    /// after an error. Memory is allocated only for a frame that is longer than the room, and
    /// `NoMemory` is returned only if that is refused.
    pub fn read_next<S: Source>(&mut self, source: &mut S) -> Result<(), FrameFault>
        ensures next { IfOk result
            (λ _. ReadsNext (S.remaining source.old) (S.remaining source.new) self.new.held) }
        ensures refused { IfErr result
            (λ fault. ReadsNone (S.remaining source.old) (S.remaining source.new) fault) }
        ensures none { OnErr result (self.new.held ≡ None) }
        ensures keeps { self.old.room ≤ self.new.room }
        ensures room { OnOk result (RoomAfter self.new.held self.old.room self.new.room) }
        ensures room_at_fault { IfErr result
            (λ fault. LeavesRoom (S.remaining source.old) (S.remaining source.new) fault
            self.old.room self.new.room) }
        ensures wanting { IfErr result
            (λ fault. fault ≡ FrameFault.NoMemory
            → LacksRoom self.old.room (S.remaining source.old) (S.remaining source.new)) }
        ensures held { Keeps (S.holds source.old) (S.holds source.new) }
        ensures no_flush { S.flushes source.new ≡ S.flushes source.old }
        ensures count { S.failures source.new
            ≡ counted (source_failed result) (S.failures source.old) }
        ensures steady { S.steady source.old
            → S.steady source.new × (S.failures source.new ≡ S.failures source.old) }
    {
        self.whole = None;
        self.whole = read_into(&mut self.bytes, source)?;
        Ok(())
    }

    /// The frame that the last call of [`read_next`](Self::read_next) read, or `None` if it read
    /// none.
    ///
    /// `read_next` doesn't return it: the contract of a call that lends a part of the buffer can't
    /// say what room the buffer has afterwards.
    pub fn frame(&self) -> Option<FrameRef<'_>>
        ensures { result ≡ self.now.held }
    {
        match self.whole {
            Some(whole) => Some(FrameRef {
                bytes: &self.bytes[..whole],
            }),
            None => None,
        }
    }
}

/// Reads the next frame to the front of a buffer. Returns its length in bytes, or `None` if the
/// input ends before its first byte.
#[tactic(auto, using(crate::proofs::FrameLaws::frame_read, crate::proofs::FrameLaws::length_missed, crate::proofs::FrameLaws::frame_missed, crate::proofs::FrameRoom::room_of_none, crate::proofs::FrameRoom::room_refused, crate::proofs::FrameRoom::room_of_part))]
fn read_into<S: Source>(bytes: &mut Vec<u8>, source: &mut S) -> Result<Option<usize>, FrameFault>
    requires bounded { length bytes.old.items ≤ longest_frame }
    ensures next { IfOk result
        (λ whole. ReadsNext (S.remaining source.old) (S.remaining source.new)
        (body_at_front bytes.new.items whole)) }
    ensures front { IfOk result (λ whole. IsAtFront bytes.new.items whole) }
    ensures refused { IfErr result
        (λ fault. ReadsNone (S.remaining source.old) (S.remaining source.new) fault) }
    ensures keeps { length bytes.old.items ≤ length bytes.new.items }
    ensures bounded { length bytes.new.items ≤ longest_frame }
    ensures room { IfOk result
        (λ whole. RoomAfter (body_at_front bytes.new.items whole) (length bytes.old.items)
        (length bytes.new.items)) }
    ensures room_at_fault { IfErr result
        (λ fault. LeavesRoom (S.remaining source.old) (S.remaining source.new) fault
        (length bytes.old.items) (length bytes.new.items)) }
    ensures wanting { IfErr result
        (λ fault. fault ≡ FrameFault.NoMemory
        → LacksRoom (length bytes.old.items) (S.remaining source.old) (S.remaining source.new)) }
    ensures held { Keeps (S.holds source.old) (S.holds source.new) }
    ensures no_flush { S.flushes source.new ≡ S.flushes source.old }
    ensures count { S.failures source.new ≡ counted (source_failed result) (S.failures source.old) }
    ensures steady { S.steady source.old
        → S.steady source.new × (S.failures source.new ≡ S.failures source.old) }
{
    let Some(size) = read_length(source)? else {
        return Ok(None);
    };
    let whole = LENGTH + size;
    if make_room(bytes, whole).is_err() {
        return Err(FrameFault::NoMemory);
    }
    fill_front(source, size, bytes)?;
    Ok(Some(whole))
}

/// Makes a buffer at least as long as a frame. Its bytes stay, and zeros follow. The buffer is
/// unchanged if memory is refused.
fn make_room(bytes: &mut Vec<u8>, whole: usize) -> Result<(), AllocError>
    requires bounded { length bytes.old.items ≤ longest_frame }
    requires legal { whole ≤ longest_frame }
    ensures room { OnOk result (RoomFor whole (length bytes.old.items) (length bytes.new.items)) }
    ensures refused { OnErr result (bytes.new.items ≡ bytes.old.items) }
    ensures wanting { OnErr result (length bytes.old.items < whole) }
{
    if whole <= bytes.len() {
        return Ok(());
    }
    // At least doubled each time, so a session grows the buffer at most seventeen times.
    let room = whole.max(2 * bytes.len()).min(LONGEST_FRAME);
    bytes.try_reserve_exact(room - bytes.len())?;
    bytes.resize(room, 0)
}

/// Reads a frame whose length was read to the front of a buffer. The bytes after the frame stay.
fn fill_front<S: Source>(source: &mut S, size: usize, bytes: &mut [u8]) -> Result<(), FrameFault>
    requires legal { IsFrameLength size }
    requires room { length_prefix + size ≤ length bytes.old }
    ensures whole { OnOk result (IsHeld (take (length_prefix + size) bytes.new)) }
    ensures body { OnOk result
        ((length (drop length_prefix (take (length_prefix + size) bytes.new)) ≡ size)
        × Consumes (S.remaining source.old) (S.remaining source.new)
        (drop length_prefix (take (length_prefix + size) bytes.new))) }
    ensures refused { IfErr result
        (λ fault. BodyMissing (S.remaining source.old) (S.remaining source.new) size fault) }
    ensures no_growth { IfErr result (λ fault. fault ≢ FrameFault.NoMemory) }
    ensures held { Keeps (S.holds source.old) (S.holds source.new) }
    ensures no_flush { S.flushes source.new ≡ S.flushes source.old }
    ensures count { S.failures source.new ≡ counted (source_failed result) (S.failures source.old) }
    ensures steady { S.steady source.old
        → S.steady source.new × (S.failures source.new ≡ S.failures source.old) }
{
    fill_frame(source, size, &mut bytes[..LENGTH + size])
}
