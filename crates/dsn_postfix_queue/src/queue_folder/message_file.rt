//! The file of a message in one of Postfix's queues.
//! Implements docs/postfix-internals.md, "Files".
use std::fs::File;
use std::io;
use std::io::{Error, ErrorKind};
use std::os::unix::fs::FileExt;

/// The size in bytes above which a message's file is large. Only one thread at a time has a large
/// file in memory.
pub(super) const LARGE: u64 = 1_048_576;

/// More bytes than the C library ever keeps of released memory, instead of returning it to the
/// system (`M_MMAP_THRESHOLD` of mallopt(3)).
const NEVER_KEPT: u64 = 33_554_432 + 1;

/// The first byte of a recipient's record, before and after the recipient is done.
const RECIPIENT: u8 = b'R';

const DONE: u8 = b'D';

/// Opens a message's file with a shared lock. So a queue manager that is restarted meanwhile
/// doesn't deliver the message again. Returns `None` if there is no such file, and an error if
/// another process has it locked.
pub(super) fn open_shared(rt: &HostRuntime, path: &str) -> io::Result<Option<File>> {
    let file = match File::options().read(true).write(true).open(rt, path) {
        Ok(file) => file,
        Err(error) if error.kind() == ErrorKind::NotFound => return Ok(None),
        Err(error) => return Err(error),
    };
    file.try_lock_shared()?;
    Ok(Some(file))
}

/// All bytes of a large file, in memory that returns to the system as soon as it is released.
/// Otherwise each thread would keep the memory of its last file. The memory beyond the file's size
/// is never used, and takes up nothing.
pub(super) fn read_large(rt: &HostRuntime, file: &File, size: u64) -> io::Result<Vec<u8>> {
    let mut bytes = Vec::with_capacity(rt.alloc(), size.max(NEVER_KEPT) as usize)?;
    bytes.resize(size as usize, 0)?;
    file.read_exact_at(&mut bytes, 0)?;
    Ok(bytes)
}

/// Marks a recipient as done. `place` is the place of its record in the file, in bytes. The file
/// may have been renamed. If no record of a recipient begins there, writes nothing and returns
/// `InvalidData`.
pub(super) fn mark_done(file: &File, place: u64) -> io::Result<()> {
    let mut found = [0];
    file.read_exact_at(&mut found, place)?;
    match found {
        [RECIPIENT] => file.write_all_at(&[DONE], place),
        [DONE] => Ok(()),
        _ => Err(Error::from(ErrorKind::InvalidData)),
    }
}
