//! Tests of notices and outboxes, over what `dsn_report` makes public. tests/examples.py and
//! tests/fuzz_batch.py compare their whole texts.
use crate::assert_same::same;
use crate::device::{ALWAYS, held, writer};
use crate::outcome::letter;
use crate::postfix_letter::site;
use crate::texts::append_all;
use dsn_device::Plain;
use dsn_fakes::PieceWriter;
use dsn_outcome::Letter;
use dsn_report::{Ended, Poster, boundary, mail_data};
use std::alloc::{AllocError, AllocGlobal, Global};
use std::process::Abort;
use std::test::Fail;

/// A header whose lines begin or end with dots.
const DOTTED: &[u8] = b".\n..a: b\nc: .\n";

/// The end of the mail data that returns it.
const DOTTED_END: &[u8] = b"\r\n\r\n..\r\n...a: b\r\nc: .\r\n\r\n--B.A.1.0000--\r\n.\r\n";

/// A poster to an outbox that fails once.
type MemoryPoster = Poster<Plain<PieceWriter>>;

/// Posts a letter. Returns the number of the fault, or 0, and the letter that came back.
fn posted(poster: &mut MemoryPoster, letter: Letter) -> (u32, Option<Letter>) {
    match poster.post(letter) {
        Ok(()) => (0, None),
        Err(fault) => (fault.code(), Some(fault.into_letter())),
    }
}

/// Posts a letter, and once more the one that came back. Returns the numbers of the two faults, or
/// 0.
fn faults(poster: &mut MemoryPoster, letter: Letter) -> (u32, u32) {
    let (first, back) = posted(poster, letter);
    match back {
        Some(letter) => (first, posted(poster, letter).0),
        None => (first, 0),
    }
}

/// Whether the outbox is whole once the poster ends, and what it holds.
fn ended(poster: MemoryPoster) -> (bool, Vec<u8>) {
    let Ended { outbox, whole } = poster.finish();
    (whole, held(outbox))
}

/// Posts a letter to an outbox that fails once, after `room` bytes, and expects these faults.
/// Returns the bytes that the outbox holds.
fn held_after(
    rt: &(impl Abort + AllocGlobal),
    room: usize,
    faulty: (u32, u32),
    is_whole: bool,
) -> Result<Vec<u8>, Fail> {
    let letter = letter(rt.alloc(), DOTTED)?;
    let mut poster = Poster::new(site(rt.alloc())?, writer(rt.alloc(), ALWAYS, room));
    let found = faults(&mut poster, letter);
    let (whole, held) = ended(poster);
    same(rt, (room, found, whole), (room, faulty, is_whole));
    Ok(held)
}

/// Wherever an outbox fails once, it holds a front of the whole outbox. Nothing reaches it after
/// the fault, though it works again.
#[test]
fn nothing_after_the_fault(rt: HostRuntime) -> Result<(), Fail> {
    let whole = held_after(&rt, ALWAYS, (0, 0), true)?;
    for room in 0..whole.len() {
        // the transaction and its flush come before QUIT
        let is_posted = room.saturating_add(b"QUIT\r\n".len()) > whole.len();
        let faulty = if is_posted { (0, 0) } else { (31, 32) };
        let held = held_after(&rt, room, faulty, false)?;
        same(&rt, held.as_slice(), &whole[..room]);
    }
    Ok(())
}

/// The mail data of a letter.
fn data_of(alloc: Global, letter: &Letter) -> Result<Vec<u8>, Fail> {
    let site = site(alloc)?;
    Ok(mail_data(alloc, &site, letter)?)
}

/// The commands before the mail data.
const BEFORE_DATA: &[u8] =
    b"EHLO mx.example.net\r\nMAIL FROM:<>\r\nRCPT TO:<ann@example.com>\r\nDATA\r\n";

/// Mail data is what an outbox has between the command DATA and the next one.
#[test]
fn mail_data_is_in_the_outbox(rt: HostRuntime) -> Result<(), Fail> {
    let letter = letter(rt.alloc(), DOTTED)?;
    let data = data_of(rt.alloc(), &letter)?;
    same(&rt, data.ends_with(DOTTED_END), true);
    let outbox = held_after(&rt, ALWAYS, (0, 0), true)?;
    let front = outbox.strip_suffix(b"QUIT\r\n").ok_or("no QUIT")?;
    let front = front.strip_suffix(data.as_slice()).ok_or("no data")?;
    same(&rt, front, BEFORE_DATA);
    Ok(())
}

/// The four digits of a boundary's number.
fn digits(number: u16) -> [u8; 4] {
    [
        b'0' + (number / 1000 % 10) as u8,
        b'0' + (number / 100 % 10) as u8,
        b'0' + (number / 10 % 10) as u8,
        b'0' + (number % 10) as u8,
    ]
}

/// A header that rules out the numbers below this one, the highest first.
fn header_of(alloc: Global, numbers: u16) -> Result<Vec<u8>, AllocError> {
    let mut header = Vec::new(alloc);
    for number in (0..numbers).rev() {
        append_all(&mut header, &[b"--B.A.1.", &digits(number), b"\n"])?;
    }
    Ok(header)
}

/// The longest header rules out 2,520 numbers. A search that tries them in turn would take seconds.
#[test]
fn many_numbers_ruled_out(rt: HostRuntime) -> Result<(), Fail> {
    let header = header_of(rt.alloc(), 2_520)?;
    let letter = letter(rt.alloc(), &header)?;
    same(&rt, boundary(&letter), 2_520);
    Ok(())
}
