//! A buffer for lists of attributes, which is kept from one list to the next.
//! Implements docs/postfix-internals.md, "What Postfix's programs send".
ghost use Rattle.std.specs.Prelude.{◌≡◌, ◌<◌, ◌≤◌, length, take, None, IfOk, IfErr, IfSome, OnErr, OnOk};
ghost use Rattle.std.specs.Option.{option_map};
ghost use Rattle.std.specs.Io.KnownBytes.{Keeps};
ghost use Rattle.dsn_device.specs.Failures.{counted};
ghost use Rattle.dsn_postfix.specs.ListBuffer.{HoldsList, IsList, ReadsList, ReadsNoList, RoomAfterBytes, device_failed, longest_list};
ghost use Rattle.dsn_postfix.specs.inner.ListState.{IsListAtFront, ReadsNoPiece, ReadsPiece};

use crate::list_fault::ListFault;
use crate::list_state::{ListState, ListStep};
use dsn_device::Source;
use std::alloc::{AllocError, Global};
use std::marker::Model;

/// The longest list that is read, in bytes, with the byte that ends it. Postfix's programs send
/// some hundreds of bytes.
pub const LONGEST_LIST: usize = 65_536;

/// The least room of a buffer that has room, in bytes.
const LEAST_ROOM: usize = 1_024;

/// Room for one list at a time, which is read from a device in the pieces that the device gives.
/// The room grows only if it is full: to twice its size, to 1,024 bytes at least, and to the
/// longest list at most. The buffer keeps its room until it is dropped.
#[derive(Debug, Drop)]
pub struct ListBuffer {
    /// The list that was read last is at the front. The bytes behind it are remains of longer ones.
    bytes: Vec<u8>,
    /// The size of that list in bytes; `None` if there is no list.
    whole: Option<usize>,
}

impl Model for ListBuffer {
    ghost use Rattle.std.specs.Prelude.{length, ◌≤◌};
    ghost use Rattle.dsn_postfix.specs.ListBuffer.{BufferedList, longest_list};
    ghost use Rattle.dsn_postfix.specs.inner.ListState.{IsListAtFront, list_at_front};

    ghost Value = { BufferedList };

    ghost view = { λ b. record { room = length b.bytes.items; held = list_at_front b.bytes.items b.whole } };

    ghost invariant = { λ b. (length b.bytes.items ≤ longest_list) × IsListAtFront b.bytes.items b.whole };
}

impl ListBuffer {
    /// A buffer without a list and without room. Doesn't allocate.
    pub fn new(alloc: Global) -> ListBuffer
        ensures room { result.room ≡ 0 }
        ensures none { result.held ≡ None }
    {
        ListBuffer {
            bytes: Vec::new(alloc),
            whole: None,
        }
    }

    /// Reads a list of at most [`LONGEST_LIST`] bytes and holds it in place of the last one. After
    /// a fault the buffer holds no list.
    /// Reads pieces no longer than the room, and nothing after the piece in which the list ends. So
    /// bytes behind the list are a fault (`Trailing`) only if they came in one piece with its end.
    /// Allocates only if the room is full. Returns `NoMemory` only if that was refused.
    pub fn read_next<S: Source>(&mut self, source: &mut S) -> Result<(), ListFault>
        ensures list { OnOk result (HoldsList (S.remaining source.old) (S.remaining source.new)
            self.old.room self.new.room self.new.held) }
        ensures refused { IfErr result
            (λ fault. ReadsNoList (S.remaining source.old) (S.remaining source.new)
            self.old.room self.new.room fault) }
        ensures none { OnErr result (self.new.held ≡ None) }
        ensures held { Keeps (S.holds source.old) (S.holds source.new) }
        ensures no_flush { S.flushes source.new ≡ S.flushes source.old }
        ensures count { S.failures source.new
            ≡ counted (device_failed result) (S.failures source.old) }
        ensures steady { S.steady source.old
            → S.steady source.new × (S.failures source.new ≡ S.failures source.old) }
    {
        self.whole = None;
        self.whole = Some(read_into(&mut self.bytes, source)?);
        Ok(())
    }

    /// The list that was read last, with the byte that ends it. Returns `None` unless the last call
    /// of [`read_next`](Self::read_next) succeeded.
    pub fn list(&self) -> Option<&[u8]>
        ensures same { option_map (λ list. list.now) result ≡ self.now.held }
        ensures whole { IfSome result (λ list. IsList list.now) }
    {
        match self.whole {
            Some(whole) => Some(&self.bytes[..whole]),
            None => None,
        }
    }

    /// The list that was read last, without the buffer's further room. Returns `None` unless the
    /// last call of [`read_next`](Self::read_next) succeeded.
    pub fn into_list(self) -> Option<Vec<u8>>
        ensures same { option_map (λ list. list.items) result ≡ self.held }
        ensures whole { IfSome result (λ list. IsList list.items) }
    {
        let ListBuffer { mut bytes, whole } = self;
        let whole = whole?;
        bytes.truncate(whole);
        Some(bytes)
    }
}

/// Reads a list to the front of a buffer, and returns its size in bytes.
fn read_into<S: Source>(bytes: &mut Vec<u8>, source: &mut S) -> Result<usize, ListFault>
    requires bounded { length bytes.old.items ≤ longest_list }
    ensures list { IfOk result
        (λ whole. ReadsList (S.remaining source.old) (S.remaining source.new)
        (length bytes.old.items) (length bytes.new.items) (take whole bytes.new.items)) }
    ensures front { IfOk result (λ whole. IsListAtFront bytes.new.items (Some whole)) }
    ensures refused { IfErr result
        (λ fault. ReadsNoList (S.remaining source.old) (S.remaining source.new)
        (length bytes.old.items) (length bytes.new.items) fault) }
    ensures bounded { length bytes.new.items ≤ longest_list }
    ensures held { Keeps (S.holds source.old) (S.holds source.new) }
    ensures no_flush { S.flushes source.new ≡ S.flushes source.old }
    ensures count { S.failures source.new ≡ counted (device_failed result) (S.failures source.old) }
    ensures steady { S.steady source.old
        → S.steady source.new × (S.failures source.new ≡ S.failures source.old) }
{
    let mut filled = 0;
    let mut place = ListState::Front;
    // bounce(8) sets no bound to a list; this bounds what a client can make the service keep.
    while filled < LONGEST_LIST {
        let count = read_piece(bytes, filled, source)?;
        match place.step_over(&bytes[filled..filled + count]) {
            ListStep::Within(next) => place = next,
            // A client keeps its half open and waits for the status, so the list's own end counts.
            // Bytes after that piece are never read.
            ListStep::Ended(size) if size < count => return Err(ListFault::Trailing),
            ListStep::Ended(_) => return Ok(filled + count),
        }
        filled += count;
    }
    Err(ListFault::TooLong)
}

/// Reads a piece into a buffer, behind its first `filled` bytes, which stay. Returns the size of
/// the piece in bytes, 1 or more.
fn read_piece<S: Source>(
    bytes: &mut Vec<u8>,
    filled: usize,
    source: &mut S,
) -> Result<usize, ListFault>
    requires within { filled ≤ length bytes.old.items }
    requires bounded { length bytes.old.items ≤ longest_list }
    requires short { filled < longest_list }
    ensures piece { IfOk result
        (λ count. ReadsPiece (S.remaining source.old) (S.remaining source.new) filled
        bytes.new.items count) }
    ensures refused { IfErr result
        (λ fault. ReadsNoPiece (S.remaining source.old) (S.remaining source.new) filled
        (length bytes.new.items) fault) }
    ensures front { take filled bytes.new.items ≡ take filled bytes.old.items }
    ensures within { filled ≤ length bytes.new.items }
    ensures bounded { length bytes.new.items ≤ longest_list }
    ensures room { RoomAfterBytes filled (length bytes.old.items) (length bytes.new.items) }
    ensures held { Keeps (S.holds source.old) (S.holds source.new) }
    ensures no_flush { S.flushes source.new ≡ S.flushes source.old }
    ensures count { S.failures source.new ≡ counted (device_failed result) (S.failures source.old) }
    ensures steady { S.steady source.old
        → S.steady source.new × (S.failures source.new ≡ S.failures source.old) }
{
    if make_list_room(bytes, filled).is_err() {
        return Err(ListFault::NoMemory);
    }
    match source.read(&mut bytes[filled..]) {
        Ok(0) if filled == 0 => Err(ListFault::Nothing),
        Ok(0) => Err(ListFault::CutShort),
        Ok(count) => Ok(count),
        Err(_) => Err(ListFault::Read),
    }
}

/// Makes a buffer longer than its first `filled` bytes, which stay. Returns an error only if memory
/// was refused.
fn make_list_room(bytes: &mut Vec<u8>, filled: usize) -> Result<(), AllocError>
    requires within { filled ≤ length bytes.old.items }
    requires bounded { length bytes.old.items ≤ longest_list }
    requires short { filled < longest_list }
    ensures longer { OnOk result (filled < length bytes.new.items) }
    ensures refused { OnErr result ((bytes.new.items ≡ bytes.old.items) × (filled ≡ length bytes.old.items)) }
    ensures front { take filled bytes.new.items ≡ take filled bytes.old.items }
    ensures bounded { length bytes.new.items ≤ longest_list }
    ensures room { RoomAfterBytes filled (length bytes.old.items) (length bytes.new.items) }
{
    if filled < bytes.len() {
        return Ok(());
    }
    let room = LEAST_ROOM.max(2 * bytes.len()).min(LONGEST_LIST);
    bytes.try_reserve_exact(room - bytes.len())?;
    bytes.resize(room, 0)
}
