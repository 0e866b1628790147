//! Copies of the files of a journal's folder, in memory.
use crate::journal_files::path_in;
use noticed_lib::{CopiedDisk, JournalFolder, Limits, limits_in};
use std::alloc::AllocError;
use std::fs::File;
use std::io;
use std::os::unix::fs::FileExt;

/// Copies of the files of a folder, and the limits of its journal.
#[derive(Drop)]
pub(crate) struct Copies {
    pub(crate) folder: JournalFolder<CopiedDisk, CopiedDisk>,
    /// The limits in the journal's header, or those of the program if it has none.
    pub(crate) limits: Limits,
}

/// Reads the journal and the marks of a folder, which a daemon may have meanwhile. Neither is
/// locked, so a daemon isn't held up. Returns an error if one of them can't be read.
pub(crate) fn copy_files(rt: &HostRuntime, folder: &str) -> io::Result<Copies> {
    // The marks first: a daemon marks only what its journal has. So marks are never ahead of a
    // journal that is read later.
    let marks = copy_file(rt, path_in(rt, folder, "marks")?.as_str())?;
    let journal = copy_file(rt, path_in(rt, folder, "journal")?.as_str())?;
    let Ok(limits) = limits_in(rt.alloc(), journal.as_slice()) else {
        return Err(io::Error::from(AllocError));
    };
    Ok(Copies {
        folder: JournalFolder {
            journal: CopiedDisk::of_bytes(journal),
            marks: CopiedDisk::of_bytes(marks),
        },
        limits: limits.unwrap_or(Limits::of_program()),
    })
}

/// Reads a file.
fn copy_file(rt: &HostRuntime, path: &str) -> io::Result<Vec<u8>> {
    let file = File::open(rt, path)?;
    let size = file.metadata()?.len();
    let mut bytes = vec![in rt.alloc(); 0; size as usize]?;
    // One read, in the order of the file: what a daemon wrote later is later in a journal.
    file.read_exact_at(&mut bytes, 0)?;
    Ok(bytes)
}
