//! A journal whose limits are raised while letters wait to be posted.
use crate::assert_same::same;
use crate::bodies::{Kind, body};
use dsn_book::Limits;
use dsn_fakes::MemoryDisk;
use dsn_journal::SettledLetters;
use dsn_ledger::{Ledger, LedgerError, Opened, open, open_to_raise};
use dsn_outcome::{Letter, Request};
use std::alloc::Global;
use std::test::Fail;

/// How many bytes a journal has.
const SIZE: usize = 4_096;

/// How many of the letters are posted and marked before the limits are raised.
const MARK: u64 = 1;

/// The limits under which a journal with this many logs is made.
fn limits_of(logs: u32) -> Result<Limits, Fail> {
    Ok(Limits::new(logs, 8, 8).ok_or("limits")?)
}

/// Appends to the logs of some messages and flushes each, and appends to one more.
fn three_letters_and_a_log(alloc: Global) -> Result<Vec<Request>, Fail> {
    let mut requests = Vec::new(alloc);
    for (kind, message) in [
        (Kind::Append, b"K1"),
        (Kind::Flush, b"K1"),
        (Kind::Append, b"K2"),
        (Kind::Flush, b"K2"),
        (Kind::Append, b"K3"),
        (Kind::Flush, b"K3"),
        (Kind::Append, b"K4"),
    ] {
        let body = body(alloc, kind, message).ok_or("no body")?;
        requests.push(Request {
            agent: 0,
            number: 0,
            body,
        })?;
    }
    Ok(requests)
}

/// The bytes of a journal that sealed three letters and holds an open log.
fn journal_with_letters(alloc: Global) -> Result<Vec<u8>, Fail> {
    let disk = MemoryDisk::new(alloc, vec![in alloc; 0; SIZE]?);
    let settled = SettledLetters::below(alloc, 0)?;
    let Ok(opened) = open(alloc, disk, limits_of(4)?, &settled) else {
        return Err(Fail::from("not opened"));
    };
    let mut ledger = opened.ledger;
    let mut requests = three_letters_and_a_log(alloc)?;
    if ledger.base() > 0 || ledger.book().sealed() > 0 || requests.len() > 10 {
        return Err(Fail::from("not new"));
    }
    ledger.apply_all(alloc, &mut requests)?;
    left_of(ledger)
}

/// What a crash leaves of a ledger's journal.
fn left_of(ledger: Ledger<MemoryDisk>) -> Result<Vec<u8>, Fail> {
    let disk = ledger.into_disk();
    Ok(disk.crashed(disk.moment(), u64::MAX)?)
}

/// Raises the limits of a journal to twice as many logs, and gives what a crash leaves of it.
fn raised(alloc: Global, bytes: Vec<u8>) -> Result<Vec<u8>, Fail> {
    let higher = limits_of(8)?;
    let settled = SettledLetters::below(alloc, MARK)?;
    let Ok(opened) = open_to_raise(alloc, MemoryDisk::new(alloc, bytes), higher, &settled) else {
        return Err(Fail::from("not opened to raise"));
    };
    let Opened {
        mut ledger,
        letters,
    } = opened;
    if !ledger.raise(alloc, letters.as_slice(), higher)? {
        return Err(Fail::from("not raised"));
    }
    left_of(ledger)
}

/// The serials of letters.
fn serials(alloc: Global, letters: &[Letter]) -> Result<Vec<u64>, Fail> {
    let mut serials = Vec::new(alloc);
    for letter in letters {
        serials.push(letter.serial())?;
    }
    Ok(serials)
}

#[test]
fn letters_outlive_raised_limits(rt: HostRuntime) -> Result<(), Fail> {
    let alloc = rt.alloc();
    let bytes = raised(alloc, journal_with_letters(alloc)?)?;
    let settled = SettledLetters::below(alloc, MARK)?;
    let Ok(opened) = open(
        alloc,
        MemoryDisk::new(alloc, bytes),
        limits_of(8)?,
        &settled,
    ) else {
        return Err(Fail::from("not opened again"));
    };
    let found = serials(alloc, opened.letters.as_slice())?;
    same(&rt, found.as_slice(), [1, 2].as_slice());
    let ledger = opened.ledger;
    same(&rt, (ledger.base(), ledger.book().sealed()), (MARK, 2));
    same(&rt, ledger.book().entries().len(), 4);
    Ok(())
}

// The old limits aren't in the header any more.
#[test]
fn raised_limits_are_not_lowered(rt: HostRuntime) -> Result<(), Fail> {
    let alloc = rt.alloc();
    let bytes = raised(alloc, journal_with_letters(alloc)?)?;
    let settled = SettledLetters::below(alloc, MARK)?;
    let cause = match open(
        alloc,
        MemoryDisk::new(alloc, bytes),
        limits_of(4)?,
        &settled,
    ) {
        Ok(_) => None,
        Err(left) => Some(left.cause),
    };
    same(&rt, cause, Some(LedgerError::OtherHeader));
    Ok(())
}
