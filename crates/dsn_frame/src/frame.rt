//! Frames: a length in four bytes, and a body of that length.
//! Implements noticed-protocol(5).
ghost use Rattle.std.specs.Prelude.{◌≡◌, ◌≢◌, ℕ, ◌+◌, length, drop, IfOk, IfErr, OnOk, MatchOption};
ghost use Rattle.std.specs.Int.{w32, from_be_bytes, to_be_bytes};
ghost use Rattle.std.specs.Io.KnownBytes.{Consumes, IsAtEnd, Keeps};
ghost use Rattle.dsn_device.specs.Failures.{counted};
ghost use Rattle.dsn_frame.specs.bodies.FrameBody.{IsFrameLength, IsFrameBody, frame};
ghost use Rattle.dsn_frame.specs.inner.FrameBuffer.{BodyMissing, IsHeld, LengthMissing, ReadsLength};
ghost use Rattle.dsn_frame.specs.Frame.{ReadsNext, ReadsNone, length_prefix};
ghost use Rattle.dsn_frame.specs.FrameFault.{source_failed};

use crate::frame_fault::FrameFault;
use dsn_outcome::{Source, fill};
use std::alloc::Global;
use std::marker::Model;

/// The longest body of a frame, in bytes.
pub const LONGEST_BODY: usize = 65_536;

/// How many bytes a frame's length has.
pub(crate) const LENGTH: usize = 4;

/// A frame that was read.
#[derive(Debug, Drop)]
pub struct Frame {
    /// The length, and then the body.
    bytes: Vec<u8>,
}

impl Model for Frame {
    ghost use Rattle.std.specs.Prelude.{ℕ, List, drop};
    ghost use Rattle.dsn_frame.specs.inner.FrameBuffer.{IsHeld};
    ghost use Rattle.dsn_frame.specs.Frame.{length_prefix};

    ghost Value = { List ℕ };

    ghost view = { λ f. drop length_prefix f.bytes.items };

    ghost invariant = { λ f. IsHeld f.bytes.items };
}

impl Frame {
    /// The body, 1 to 65,536 bytes.
    pub fn body(&self) -> &[u8]
        ensures same { result.now ≡ self.now }
        ensures whole { IsFrameBody self.now }
    {
        &self.bytes[LENGTH..]
    }

    /// The whole frame: its length in four bytes, and the body.
    pub fn bytes(&self) -> &[u8]
        ensures { result.now ≡ frame self.now }
    {
        self.bytes.as_slice()
    }
}

/// Reads the next frame. Returns `None` if the input ends before the frame's first byte.
///
/// Returns `TooLong` if the frame declares more than 65,536 bytes, `Empty` if it declares 0, and
/// `CutShort` if the input ends within it. Returns `NoMemory` if memory for the frame is refused,
/// and `Read` if a read fails. The length is checked before memory is allocated, and memory is
/// allocated before any byte of the body is read. Don't use the source after an error. At most
/// 65,540 reads are made.
///
/// Each frame is allocated. This is for embedders and tests that keep frames; the daemon reuses a
/// [`FrameBuffer`](crate::FrameBuffer).
#[tactic(auto, using(crate::proofs::FrameLaws::frame_read, crate::proofs::FrameLaws::length_missed, crate::proofs::FrameLaws::frame_missed))]
pub fn read_frame<S: Source>(alloc: Global, source: &mut S) -> Result<Option<Frame>, FrameFault>
    ensures next { IfOk result
        (λ next. ReadsNext (S.remaining source.old) (S.remaining source.new) next) }
    ensures refused { IfErr result
        (λ fault. ReadsNone (S.remaining source.old) (S.remaining source.new) fault) }
    ensures held { Keeps (S.holds source.old) (S.holds source.new) }
    ensures no_flush { S.flushes source.new ≡ S.flushes source.old }
    ensures count { S.failures source.new ≡ counted (source_failed result) (S.failures source.old) }
    ensures steady { S.steady source.old
        → S.steady source.new × (S.failures source.new ≡ S.failures source.old) }
{
    let Some(size) = read_length(source)? else {
        return Ok(None);
    };
    let bytes = read_after_length(alloc, source, size)?;
    Ok(Some(Frame { bytes }))
}

/// Reads the length of the next frame's body, 1 to 65,536 bytes. Returns `None` if the input ends
/// before its first byte.
///
/// Returns `Read` if a read fails, and `CutShort` if the input ends within the length. Returns
/// `TooLong` above 65,536, and `Empty` for 0.
#[tactic(auto, using(crate::proofs::FrameLaws::length_read))]
pub(crate) fn read_length<S: Source>(source: &mut S) -> Result<Option<usize>, FrameFault>
    ensures next { IfOk result
        (λ size. ReadsLength (S.remaining source.old) (S.remaining source.new) size) }
    ensures refused { IfErr result
        (λ fault. LengthMissing (S.remaining source.old) (S.remaining source.new) fault) }
    ensures held { Keeps (S.holds source.old) (S.holds source.new) }
    ensures no_flush { S.flushes source.new ≡ S.flushes source.old }
    ensures count { S.failures source.new ≡ counted (source_failed result) (S.failures source.old) }
    ensures steady { S.steady source.old
        → S.steady source.new × (S.failures source.new ≡ S.failures source.old) }
{
    let mut bytes = [0; 4];
    let Ok(count) = fill(source, &mut bytes) else {
        return Err(FrameFault::Read);
    };
    if count == 0 {
        return Ok(None);
    }
    if count < 4 {
        return Err(FrameFault::CutShort);
    }
    let size = number_in(bytes) as usize;
    // An invalid length ends the session: the start of the next frame is unknown.
    if size > LONGEST_BODY {
        return Err(FrameFault::TooLong);
    }
    if size == 0 {
        return Err(FrameFault::Empty);
    }
    Ok(Some(size))
}

/// Reads the body of a frame whose length was read, and returns the whole frame. Returns `NoMemory`
/// if memory for it is refused, and otherwise fails as [`fill_frame`] does.
fn read_after_length<S: Source>(
    alloc: Global,
    source: &mut S,
    size: usize,
) -> Result<Vec<u8>, FrameFault>
    requires legal { IsFrameLength size }
    ensures whole { IfOk result (λ bytes. IsHeld bytes.items) }
    ensures body { IfOk result
        (λ bytes. (length (drop length_prefix bytes.items) ≡ size)
        × Consumes (S.remaining source.old) (S.remaining source.new)
        (drop length_prefix bytes.items)) }
    ensures refused { IfErr result
        (λ fault. BodyMissing (S.remaining source.old) (S.remaining source.new) size fault) }
    ensures held { Keeps (S.holds source.old) (S.holds source.new) }
    ensures no_flush { S.flushes source.new ≡ S.flushes source.old }
    ensures count { S.failures source.new ≡ counted (source_failed result) (S.failures source.old) }
    ensures steady { S.steady source.old
        → S.steady source.new × (S.failures source.new ≡ S.failures source.old) }
{
    let Ok(mut bytes) = vec![in alloc; 0; LENGTH + size] else {
        return Err(FrameFault::NoMemory);
    };
    fill_frame(source, size, &mut bytes)?;
    Ok(bytes)
}

/// Writes a length into the first four bytes of `room`, and reads the body into the rest. Returns
/// `Read` if a read fails, and `CutShort` if the input ends within the body.
pub(crate) fn fill_frame<S: Source>(
    source: &mut S,
    size: usize,
    room: &mut [u8],
) -> Result<(), FrameFault>
    requires legal { IsFrameLength size }
    requires room { length room.old ≡ length_prefix + size }
    ensures long { length room.new ≡ length_prefix + size }
    ensures whole { OnOk result (IsHeld room.new) }
    ensures body { OnOk result
        ((length (drop length_prefix room.new) ≡ size)
        × Consumes (S.remaining source.old) (S.remaining source.new)
        (drop length_prefix room.new)) }
    ensures refused { IfErr result
        (λ fault. BodyMissing (S.remaining source.old) (S.remaining source.new) size fault) }
    ensures no_growth { IfErr result (λ fault. fault ≢ FrameFault.NoMemory) }
    ensures held { Keeps (S.holds source.old) (S.holds source.new) }
    ensures no_flush { S.flushes source.new ≡ S.flushes source.old }
    ensures count { S.failures source.new ≡ counted (source_failed result) (S.failures source.old) }
    ensures steady { S.steady source.old
        → S.steady source.new × (S.failures source.new ≡ S.failures source.old) }
{
    room[..LENGTH].copy_from_slice(&(size as u32).to_be_bytes());
    let Ok(count) = fill(source, &mut room[LENGTH..]) else {
        return Err(FrameFault::Read);
    };
    if count < size {
        return Err(FrameFault::CutShort);
    }
    Ok(())
}

/// The number in four bytes, highest byte first.
#[tactic(auto, using(std::proofs::lemmas::Nat::be_bytes_4))]
pub(crate) fn number_in(bytes: [u8; 4]) -> u32
    ensures value { result ≡ from_be_bytes w32 bytes }
    ensures written { bytes ≡ to_be_bytes w32 result }
{
    u32::from_be_bytes(bytes)
}
