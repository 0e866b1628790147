//! The files of a journal's folder, and that of an outbox.
use crate::fault_note::print_fault_line;
use dsn_journal::{FileDisk, create_file, sync_folder};
use dsn_text::fault_code;
use noticed_lib::JournalFolder;
use std::fs::{File, TryLockError};
use std::io::{Error, ErrorKind, Write};
use std::os::unix::fs::OpenOptionsExt;
use std::{fs, io};

/// The size of the file of a new journal, in bytes.
// Room for some 450,000 requests.
const JOURNAL_SIZE: usize = 67_108_864;

/// The size up to which the file of a journal is lengthened, in MiB, unless it is said.
pub(crate) const MAX_JOURNAL: u32 = 256;

/// The largest such size, in MiB.
pub(crate) const MOST_MAX_JOURNAL: u32 = 4_096;

/// How many bytes are written at once to a file that is lengthened.
const PIECE: usize = 65_536;

/// The size of the file of new marks, in bytes.
const MARKS_SIZE: usize = 65_536;

/// The exit status of a run that couldn't have its journal.
const FAULT: u8 = 1;

/// Opens the journal and the marks of a folder, for this process alone. Makes both if the folder
/// has neither, and the marks if the journal is unwritten.
/// Returns an error of the kind `NotFound`, and makes nothing, if otherwise one is missing: the
/// state of the other is then unknown. Returns one of the kind `WouldBlock` if another process has
/// them.
pub(crate) fn open_folder<'a>(
    rt: &'a HostRuntime,
    folder: &str,
) -> io::Result<JournalFolder<FileDisk<'a>, FileDisk<'a>>> {
    let journal = path_in(rt, folder, "journal")?;
    let marks = path_in(rt, folder, "marks")?;
    make_files(rt, journal.as_str(), marks.as_str())?;
    open_both(rt, journal.as_str(), marks.as_str())
}

/// Opens the files of a journal and of its marks.
fn open_both<'a>(
    rt: &'a HostRuntime,
    journal: &str,
    marks: &str,
) -> io::Result<JournalFolder<FileDisk<'a>, FileDisk<'a>>> {
    Ok(JournalFolder {
        journal: FileDisk::open(rt, journal)?,
        marks: FileDisk::open(rt, marks)?,
    })
}

/// Makes the files of a new journal: first the journal, then its marks. A crash between the two
/// leaves a journal of zeros without marks, which still gets them.
fn make_files(rt: &HostRuntime, journal: &str, marks: &str) -> io::Result<()> {
    let (has_journal, has_marks) = (fs::exists(rt, journal)?, fs::exists(rt, marks)?);
    if has_journal && has_marks {
        return Ok(());
    }
    if has_marks {
        // A new journal would lose all open logs.
        return Err(not_found("the journal is missing, and its marks are there"));
    }
    if !has_journal {
        make_file(rt, journal, JOURNAL_SIZE)?;
    } else if !is_unwritten(rt, journal)? {
        // New marks would send each notice again.
        return Err(not_found("the marks are missing, and their journal is there"));
    }
    make_file(rt, marks, MARKS_SIZE)
}

/// Makes a file of zeros, unless it exists by then.
fn make_file(rt: &HostRuntime, path: &str, size: usize) -> io::Result<()> {
    match create_file(rt, path, size) {
        Err(error) if error.kind() == ErrorKind::AlreadyExists => Ok(()),
        made => made,
    }
}

/// Whether a file has only zeros.
fn is_unwritten(rt: &HostRuntime, path: &str) -> io::Result<bool> {
    Ok(fs::read(rt, path)?.iter().all(|byte| *byte == 0))
}

/// Lengthens the file of a journal by zeros, to twice its size and at most to `most` bytes, and
/// syncs it. Returns its new size; `None` if it has that size. After an error it is as long as
/// before, if the system allows it. One of the kind `WouldBlock` says that another process has it.
///
/// A crash leaves a file with some of the zeros, which is the journal that it was.
pub(crate) fn lengthen_journal(rt: &HostRuntime, path: &str, most: u64) -> io::Result<Option<u64>> {
    let file = File::options().append(true).open(rt, path)?;
    match file.try_lock() {
        Ok(()) => {}
        Err(TryLockError::WouldBlock) => return Err(Error::from(ErrorKind::WouldBlock)),
        Err(TryLockError::Error(error)) => return Err(error),
    }
    let size = file.metadata()?.len();
    let longer = size.saturating_mul(2).min(most);
    if longer <= size {
        return Ok(None);
    }
    if let Err(error) = write_zeros(&file, longer - size) {
        // A disk that is full has its room back.
        let _ = file.set_len(size);
        return Err(error);
    }
    Ok(Some(longer))
}

/// Appends this number of zeros to a file, and syncs it. So the disk has room for what is written in
/// their place.
fn write_zeros(file: &File, count: u64) -> io::Result<()> {
    let zeros = [0; PIECE];
    let mut writer = file;
    for _ in 0..count / PIECE as u64 {
        writer.write_all(&zeros)?;
    }
    let rest = usize::try_from(count % PIECE as u64)
        .unwrap_or(0)
        .min(PIECE);
    writer.write_all(&zeros[..rest])?;
    file.sync_all()
}

/// The error if one of two files is missing.
fn not_found(words: &str) -> io::Error {
    Error::new(ErrorKind::NotFound, words)
}

/// The path of the file of this name.
pub(crate) fn path_in(rt: &HostRuntime, folder: &str, name: &str) -> io::Result<String> {
    Ok(format!(in rt.alloc(); "{folder}/{name}")?)
}

/// Opens the file of an outbox. Makes it if it doesn't exist, for its owner alone. Syncs its name.
/// Returns an error of the kind `AlreadyExists` if the file isn't empty. An earlier run may have
/// been cut off within a letter, and text behind that would be read as a part of the letter.
pub(crate) fn open_outbox(rt: &HostRuntime, path: &str) -> io::Result<File> {
    let file = File::options()
        .append(true)
        .create(true)
        .mode(0o600)
        .open(rt, path)?;
    if file.metadata()?.len() > 0 {
        // It is neither appended to nor cut to its last whole notice: a daemon doesn't know what
        // others do with it.
        return Err(Error::from(ErrorKind::AlreadyExists));
    }
    sync_folder(rt, path)?;
    Ok(file)
}

/// Prints that a file of a journal isn't available, and the system's error. Returns the status.
pub(crate) fn print_journal_fault(rt: &HostRuntime, path: &str, error: &io::Error) -> u8 {
    print_fault(rt, fault_code::JOURNAL_FAILED, path, error)
}

/// Prints that the outbox isn't available, and the system's error. Returns the status.
pub(crate) fn print_outbox_fault(rt: &HostRuntime, path: &str, error: &io::Error) -> u8 {
    print_fault(rt, fault_code::OUTBOX_WRITE, path, error)
}

/// Prints a fault of a path.
fn print_fault(rt: &HostRuntime, code: u32, path: &str, error: &io::Error) -> u8 {
    print_fault_line(rt, code);
    let _ = eprintln!(rt; "{path}: {error}");
    FAULT
}
