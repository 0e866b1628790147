//! The step at a place of a queue file.
//! Implements docs/postfix-internals.md, "Postfix's queue files".
ghost use Rattle.std.specs.Prelude.{◌≡◌, ◌≤◌, drop, length};
ghost use Rattle.dsn_postfix_files.specs.QueueWalk.{pointer_step, step_at};
ghost use Rattle.dsn_postfix_files.specs.inner.QueueReading.{step_in};

use crate::log_line::without_leading_spaces;
use crate::log_record::written_number;
use crate::placed_record::PlacedRecord;
use crate::queue_record::QueueRecord;

/// The type of a pointer.
const POINTER: u8 = b'p';
/// The type of the last record.
const END: u8 = b'E';

/// The step at a place. A record and a pointer have the bytes from the next place on, and the
/// number of pointers that may still lead back.
#[derive(Clone, Copy)]
pub(super) enum QueueStep<'a> {
    /// A record.
    Record(PlacedRecord<'a>, &'a [u8], u32),
    /// A pointer.
    Pointer(&'a [u8], u32),
    /// The last record of the file.
    End,
    /// The file can't be read further.
    Broken,
}

/// The step of a pointer.
fn pointer_step<'a>(
    file: &'a [u8],
    after: &'a [u8],
    jumps: u32,
    target: Option<u64>,
) -> QueueStep<'a>
    ensures { step_in result ≡ pointer_step file.now after.now jumps target }
{
    let Some(target) = target else {
        return QueueStep::Broken;
    };
    if target == 0 {
        return QueueStep::Pointer(after, jumps);
    }
    let there = from_place(file, target);
    if there.len() <= after.len() {
        QueueStep::Pointer(there, jumps)
    } else if jumps == 0 {
        QueueStep::Broken
    } else {
        QueueStep::Pointer(there, jumps - 1)
    }
}

/// The bytes from a place on, or no bytes if it is after the end.
fn from_place(file: &[u8], place: u64) -> &[u8]
    ensures { result.now ≡ drop place file.now }
{
    if place < file.len() as u64 {
        &file[place as usize..]
    } else {
        &[]
    }
}

/// The step at a place of a file.
#[tactic(auto, unfolding(crate::specs::QueueWalk::step_at))]
pub(super) fn step_at<'a>(file: &'a [u8], rest: &'a [u8], jumps: u32) -> QueueStep<'a>
    requires { length rest.now ≤ length file.now }
    ensures { step_in result ≡ step_at file.now (record { rest = rest.now; jumps = jumps }) }
{
    let Some((found, after)) = QueueRecord::read(rest) else {
        return QueueStep::Broken;
    };
    match found.kind {
        POINTER => {
            let target = written_number(without_leading_spaces(found.bytes));
            pointer_step(file, after, jumps, target)
        }
        END => QueueStep::End,
        _ => {
            let placed = PlacedRecord {
                place: (file.len() - rest.len()) as u64,
                kind: found.kind,
                bytes: found.bytes,
            };
            QueueStep::Record(placed, after, jumps)
        }
    }
}
