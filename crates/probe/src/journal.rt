//! A ledger over a file: the requests of standard input are kept in groups, and then answered. Its
//! letters count as posted. If there is no room, the journal is replaced by a shorter one. The
//! ledger keeps no marks: the caller gives the mark, which is the base of a file with a shorter
//! journal.
mod asking;
mod taking;

use asking::Asking;
use dsn_book::{Limits, Step};
use dsn_frame::{Spoken, encode_answer};
use dsn_journal::{FileDisk, Replaceable, SettledLetters, create_file};
use dsn_ledger::{Opened, open};
use std::alloc::Global;
use std::io::Write;
use std::{fs, io};
use taking::{Came, Taking};

/// The file of a ledger, and how the ledger is run.
#[derive(Drop)]
pub(crate) struct Keeping {
    /// The file.
    pub(crate) path: String,
    /// How many bytes the file gets if it is to be made; 0 if it exists.
    pub(crate) size: u32,
    /// The limits.
    pub(crate) limits: Limits,
    /// How many requests are kept at once.
    pub(crate) group: u32,
    /// The mark, as a file of marks would have it.
    pub(crate) mark: u64,
}

/// Opens a ledger, and has the given requests kept and answered, frame by frame. Standard output
/// gets a line once the ledger is open, and then the answers' frames, each group in one write after
/// it is kept. It gets a line too if a group found no room, and for the error that ended the
/// ledger.
pub(crate) fn keep(rt: &HostRuntime, keeping: &Keeping, given: &[u8]) -> Option<()> {
    let disk = match open_file(rt, keeping) {
        Ok(disk) => disk,
        Err(error) => {
            println!(rt; "no file: {error}").ok()?;
            return None;
        }
    };
    let settled = SettledLetters::below(rt.alloc(), keeping.mark).ok()?;
    let Opened {
        ledger,
        letters: _posted,
    } = match open(rt.alloc(), disk, keeping.limits, &settled) {
        Ok(opened) => opened,
        Err(left) => {
            println!(rt; "not opened: {}", left.cause).ok()?;
            return None;
        }
    };
    println!(rt; "opened {}", ledger.used()).ok()?;
    answer_all(rt, rt.alloc(), Taking { ledger }, given, keeping.group)
}

/// Opens the file, which is made first where it is to be and isn't there.
fn open_file<'a>(rt: &'a HostRuntime, keeping: &Keeping) -> io::Result<FileDisk<'a>> {
    let path = keeping.path.as_str();
    if keeping.size > 0 && !fs::exists(rt, path)? {
        create_file(rt, path, keeping.size as usize)?;
    }
    FileDisk::open(rt, path)
}

/// Keeps what is given, and answers it.
fn answer_all<D: Replaceable + Drop>(
    rt: &impl Print,
    alloc: Global,
    first: Taking<D>,
    given: &[u8],
    most: u32,
) -> Option<()> {
    let mut asking = Asking::new(alloc, given);
    let mut taking = first;
    for _ in 0..u64::MAX {
        let group = asking.next_group(alloc, most)?;
        if group.is_empty() {
            return Some(());
        }
        taking = match taking.take(alloc, group) {
            Came::Kept(then, steps) => {
                show_answers(rt, alloc, &steps)?;
                then
            }
            Came::Full(then) => {
                println!(rt; "full").ok()?;
                then
            }
            Came::Ended(error) => {
                println!(rt; "{error}").ok()?;
                return None;
            }
        };
    }
    None
}

/// Writes the frames of a group's answers.
fn show_answers(rt: &impl Print, alloc: Global, steps: &[Step]) -> Option<()> {
    let mut frames = Vec::new(alloc);
    for step in steps {
        let said = Spoken::Reply(step.answer.replied()).told_to(b"\x01");
        frames
            .extend_from_slice(encode_answer(step.answer.number, &said).bytes())
            .ok()?;
    }
    io::writer(rt).write_all(&frames).ok()
}
