//! Files of marks, and letters that are marked in their turn.
use crate::assert_same::same;
use dsn_device::{Broken, Drain, Plain};
use dsn_fakes::MemoryDisk;
use dsn_journal::{MarkedOutbox, Marks, MarksError, settle};
use std::alloc::Global;
use std::test::Fail;

/// Opens a file of marks.
fn open_marks(alloc: Global, bytes: &[u8]) -> Result<Marks<MemoryDisk>, MarksError> {
    let Ok(bytes) = bytes.to_vec(alloc) else {
        return Err(MarksError::Foreign);
    };
    match Marks::open(alloc, MemoryDisk::new(alloc, bytes)) {
        Ok(marks) => Ok(marks),
        Err(left) => Err(left.cause),
    }
}

/// The mark that a file has.
fn mark_in(alloc: Global, bytes: &[u8]) -> Result<u64, MarksError> {
    Ok(open_marks(alloc, bytes)?.mark())
}

/// Files, and the marks that they have.
const FILES: &[(&[u8], Result<u64, MarksError>)] = &[
    (b"\0\0\0\0\0\0\0\0\0\0\0\0\0\0\0\0\0\0\0\0\0\0\0\0\0", Ok(0)),
    // Some mark may have no room in 24 bytes.
    (
        b"\0\0\0\0\0\0\0\0\0\0\0\0\0\0\0\0\0\0\0\0\0\0\0\0",
        Err(MarksError::TooShort),
    ),
    (b"", Err(MarksError::TooShort)),
    // The mark 1, and what a crash leaves of it.
    (
        b"\x01\x01\x01\x01\x01\x01\x01\x01\x01\x01\x01\x01\x01\x01\x01\x02~C1\x89\0\0\0\0\0\0",
        Ok(0),
    ),
    (
        b"\0\x01\x01\x01\x01\x01\x01\x01\x01\x01\x01\x01\x01\x01\x01\x02~C1\x89\x02\0\0\0\0\0",
        Ok(0),
    ),
    (
        b"\x01\x01\x01\x01\x01\x01\x01\x01\x01\x01\x01\x01\x01\x01\x01\x02~C1\x89\x02\0\0\0\0\0",
        Ok(1),
    ),
    // The mark 513 behind another record.
    (
        b"12345678\x02\x01\x01\x01\x01\x01\x01\x01\x01\x01\x01\x01\x01\x01\x03\x01\x02Y\x06\x01\x02g\x02\0",
        Ok(513),
    ),
    // The mark 2, and 4 and 5 settled above it; two numbers, and three that don't rise.
    (
        b"\x01\x01\x01\x01\x01\x01\x01\x01\x01\x01\x01\x01\x01\x01\x01\x03\x01\x01\x01\x01\x01\x01\x01\x01\x01\x01\x01\x01\x01\x01\x04\x01\x01\x01\x01\x01\x01\x01\x01\x01\x01\x01\x01\x01\x01\x06\xc3\x5cq\x8b\x02\0\0",
        Ok(2),
    ),
    (
        b"\x01\x01\x01\x01\x01\x01\x01\x01\x01\x01\x01\x01\x01\x01\x01\x03\x01\x01\x01\x01\x01\x01\x01\x01\x01\x01\x01\x01\x01\x01\x04h{\xd7\x94\x02\0\0",
        Err(MarksError::Damaged),
    ),
    (
        b"\x01\x01\x01\x01\x01\x01\x01\x01\x01\x01\x01\x01\x01\x01\x01\x03\x01\x01\x01\x01\x01\x01\x01\x01\x01\x01\x01\x01\x01\x01\x06\x01\x01\x01\x01\x01\x01\x01\x01\x01\x01\x01\x01\x01\x01\x04\xcf\xf6\xdb\x1d\x02\0\0",
        Err(MarksError::Damaged),
    ),
    // Files without a record that are foreign.
    (
        b"\x01\x01\x01\x01\x01\x01\x01\x01\x01\x01\x01\x01\x01\x01\x01\x03m\0\0\0\0\0\0\0\0\0",
        Err(MarksError::Foreign),
    ),
    (
        b"\0\0\0\0\0\0\0\0\0\0\0\0\0\0\0\0\0\0\0\0\0\0\0\0\x02",
        Err(MarksError::Foreign),
    ),
    (b"J", Err(MarksError::Foreign)),
    // Last records that are no mark's: of other lengths, the first with what a crash left of another
    // one; without a check sum; with another byte.
    (b"1234567\x02rest\0\0\0\0", Err(MarksError::Damaged)),
    (b"123456789\xe3\x06\x92\x83\x02\0", Err(MarksError::Damaged)),
    (
        b"\x01\x01\x01\x01\x01\x01\x01\x01\x01\x01\x01\x01\x01\x01\x01\x02\x02\0",
        Err(MarksError::Damaged),
    ),
    (
        b"\x03\x01\x01\x01\x01\x01\x01\x01\x01\x01\x01\x01\x01\x01\x02~C1\x89\x02\0",
        Err(MarksError::Damaged),
    ),
];

#[test]
fn marks_of_files(rt: HostRuntime) {
    for (bytes, wanted) in FILES {
        let found = mark_in(rt.alloc(), bytes);
        same(&rt, (*bytes, found), (*bytes, *wanted));
    }
}

/// Marks the letter with this serial over new marks: the answer, and the mark then.
fn mark_first(alloc: Global, serial: u64) -> Result<(Result<(), Broken>, u64), Fail> {
    let marks = open_marks(alloc, &[0; 40]).ok().ok_or("marks")?;
    let written: Vec<u8> = Vec::new(alloc);
    let mut outbox = MarkedOutbox::new(alloc, Plain::new(written), marks);
    let answer = outbox.mark_letter(serial);
    let (_, marks) = outbox.into_parts();
    Ok((answer, marks.mark()))
}

/// Settles the letters with these serials over new marks, and opens what a crash leaves: the edges,
/// or `None` if they have no room.
fn settled(alloc: Global, serials: &[u64]) -> Result<Option<Vec<u64>>, Fail> {
    let mut marks = open_marks(alloc, &[0; 90]).ok().ok_or("marks")?;
    for serial in serials {
        if settle(alloc, &mut marks, *serial).is_err() {
            return Ok(None);
        }
    }
    let disk = marks.into_disk();
    let bytes = disk.crashed(disk.moment(), u64::MAX)?;
    let again = open_marks(alloc, &bytes).ok().ok_or("marks again")?;
    Ok(Some(again.letters().edges().to_vec(alloc)?))
}

#[test]
fn letters_are_settled_in_any_order(rt: HostRuntime) -> Result<(), Fail> {
    let alloc = rt.alloc();
    let found = settled(alloc, &[2, 5, 2])?.ok_or("room")?;
    same(&rt, found.as_slice(), [0, 2, 3, 5, 6].as_slice());
    // Three gaps have no room here.
    same(&rt, settled(alloc, &[2, 4, 6])?.is_none(), true);
    let found = settled(alloc, &[1, 2, 0])?.ok_or("room")?;
    same(&rt, found.as_slice(), [3].as_slice());
    Ok(())
}

#[test]
fn a_letter_is_marked_in_its_turn(rt: HostRuntime) -> Result<(), Fail> {
    same(&rt, mark_first(rt.alloc(), 1)?, (Err(Broken), 0));
    same(&rt, mark_first(rt.alloc(), 0)?, (Ok(()), 1));
    Ok(())
}
