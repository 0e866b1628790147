//! New files: one in place of another, and one at a path that no file has.
ghost use Rattle.std.specs.Prelude.{◌++◌, codes, replicate};
ghost use Rattle.dsn_journal.specs.FileDeeds.{Tries, TriesWithMemory, making, putting_in_place, putting_new};

use crate::file_calls::FileCalls;
use crate::system_files::SystemFiles;
use std::alloc::Global;
use std::io;

/// The mode of each file that is made: its owner alone may read and write it.
const OWNER_ALONE: u32 = 0o600;

/// Replaces the file at `path` by a new one with these bytes. The bytes are written and synced
/// under the name `beside`, which a crash may leave behind. The file is locked before it is renamed
/// to `path`, and then the folder is synced. Allocates no memory.
pub(crate) fn put_in_place<C: FileCalls>(
    calls: &mut C,
    beside: &str,
    path: &str,
    bytes: &[u8],
) -> io::Result<()>
    ensures { Tries result (putting_in_place beside.now path.now bytes.now)
        (C.deeds calls.old) (C.deeds calls.new) }
{
    make_anew(calls, beside, bytes)?;
    calls.rename(beside, path)?;
    calls.sync_folder(path)?;
    Ok(())
}

/// Makes a file with these bytes, for its owner and this process alone, and syncs it. First removes
/// its name from what a crash may have left there.
fn make_anew<C: FileCalls>(calls: &mut C, path: &str, bytes: &[u8]) -> io::Result<()>
    ensures { Tries result (making path.now bytes.now) (C.deeds calls.old) (C.deeds calls.new) }
{
    calls.remove(path)?;
    calls.make(path, OWNER_ALONE)?;
    calls.lock()?;
    calls.write(0, bytes)?;
    calls.sync_all()?;
    Ok(())
}

/// Creates the file of a new journal, as [`create_over`] does, among the files of the system.
pub fn create_file(rt: &HostRuntime, path: &str, size: usize) -> io::Result<()> {
    create_over(rt.alloc(), &mut SystemFiles::new(rt), path, size)
}

/// Creates the file of a new journal, with `size` zeros. They are written and synced under another
/// name, `path` with `.new` behind it. Then the file gets its own name, and the folder is synced.
/// So a crash leaves the whole file or none. The other name may remain after a crash or an error.
/// If `path` exists, its file isn't changed, and the error is of the kind `AlreadyExists`.
pub fn create_over<C: FileCalls>(
    alloc: Global,
    calls: &mut C,
    path: &str,
    size: usize,
) -> io::Result<()>
    ensures { TriesWithMemory result
        (putting_new (path.now ++ codes ".new") path.now (replicate size 0))
        (C.deeds calls.old) (C.deeds calls.new) }
{
    let beside = format!(in alloc; "{path}.new")?;
    // Opening the file takes as much memory.
    let zeros = vec![in alloc; 0; size]?;
    put_new(calls, beside.as_str(), path, &zeros)
}

/// Creates a file with these bytes under the name `beside`, and gives it the name `path`.
fn put_new<C: FileCalls>(calls: &mut C, beside: &str, path: &str, bytes: &[u8]) -> io::Result<()>
    ensures { Tries result (putting_new beside.now path.now bytes.now)
        (C.deeds calls.old) (C.deeds calls.new) }
{
    make_anew(calls, beside, bytes)?;
    // A rename would replace an existing journal. A crash between these two calls leaves both names
    // on one file, so `make_anew` removes the name and never writes over the file.
    calls.link(beside, path)?;
    calls.remove(beside)?;
    calls.sync_folder(path)?;
    Ok(())
}
