//! The command `journal`: prints what a journal's folder holds, also beside a running daemon.
use crate::buffer::{ROOM, let_go};
use crate::fault_note::print_worded_fault;
use crate::journal_copies::{Copies, copy_files};
use crate::start_error::StartError;
use dsn_outcome::Plain;
use dsn_text::fault_code;
use noticed_lib::{JournalFolder, ListingFault, list_journal};
use std::io;
use std::io::{BufWriter, Eprint, Write};

/// The exit status of a listing that wasn't finished.
const FAULT: u8 = 1;

/// How many times the files are read until their copies fit together.
const TRIES: u32 = 5;

/// Why a folder wasn't listed.
#[derive(Drop)]
enum NotListed {
    /// A file could not be read.
    Unread(io::Error),
    /// The copies could not be opened or listed.
    Fault(ListingFault),
}

/// Prints what the journal of this folder holds, in lines of standard output. Neither changes nor
/// locks it. Returns the status.
pub(crate) fn run_journal(rt: &HostRuntime, folder: &str) -> Result<u8, StartError> {
    let writer = BufWriter::with_capacity(rt.alloc(), ROOM, rt.stdout()).map_err(
        |_| StartError::NoMemory,
    )?;
    let mut lines = Plain::new(writer);
    let mut end = list(rt, folder, &mut lines);
    for _ in 1..TRIES {
        if !is_other_later(&end) {
            break;
        }
        end = list(rt, folder, &mut lines);
    }
    let_go(lines.into_inner());
    match end {
        Ok(()) => Ok(0),
        Err(NotListed::Unread(error)) => Ok(print_unread(rt, folder, &error)),
        Err(NotListed::Fault(fault)) => Ok(print_listing_fault(rt, folder, fault)),
    }
}

/// Lists copies of the folder's files.
fn list<W: Write + Drop>(
    rt: &HostRuntime,
    folder: &str,
    lines: &mut Plain<W>,
) -> Result<(), NotListed> {
    let Copies { folder, limits } = match copy_files(rt, folder) {
        Ok(copies) => copies,
        Err(error) => return Err(NotListed::Unread(error)),
    };
    let JournalFolder {
        mut journal,
        mut marks,
    } = folder;
    match list_journal(rt.alloc(), limits, &mut journal, &mut marks, lines) {
        Ok(()) => Ok(()),
        Err(fault) => Err(NotListed::Fault(fault)),
    }
}

/// Whether the files may be others by now. A daemon that made its journal shorter between the two
/// reads has newer marks than those that were read; one that wrote during a read may leave a gap in
/// the copy. Nothing was printed then.
fn is_other_later(end: &Result<(), NotListed>) -> bool {
    match end {
        Err(NotListed::Fault(fault)) => match fault {
            ListingFault::Marks(_) | ListingFault::Journal(_) => {
                fault.code() != fault_code::NO_MEMORY
            }
            ListingFault::NoMemory | ListingFault::NotWritten => false,
        },
        Ok(()) | Err(NotListed::Unread(_)) => false,
    }
}

/// Prints that a file of the folder could not be read, and the system's error. Returns the status.
fn print_unread(rt: &impl Eprint, folder: &str, error: &io::Error) -> u8 {
    print_worded_fault(rt, fault_code::JOURNAL_FAILED);
    let _ = eprintln!(rt; "{folder}: {error}");
    FAULT
}

/// Prints why a folder wasn't listed, with its path if the fault is about its files. Returns the
/// status.
fn print_listing_fault(rt: &impl Eprint, folder: &str, fault: ListingFault) -> u8 {
    print_worded_fault(rt, fault.code());
    if fault != ListingFault::NotWritten {
        let _ = eprintln!(rt; "{folder}: {fault}");
    }
    FAULT
}
