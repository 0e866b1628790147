//! The calls of files that the disk of a file is made of.
//! A disk's effects are calls of one trait. So its contract can state which are made, and in which
//! order, without a file.
ghost use Rattle.std.specs.Prelude.{◌≡◌};
ghost use Rattle.dsn_journal.specs.FileDeeds.{BytesRead, BytesWritten, DataSynced, FolderSynced, Linked, Locked, Made, NameChecked, Opened, Removed, Renamed, Synced, answered, measured, with_deed};

use std::io;

/// What a disk does to its file and to the names of its folder. The file is the one opened or made
/// last. The one before it stays open, and locked, until a rename.
///
/// Each call is one deed: it ends before the next one begins, and reports its result. Which error a
/// call returns is in no clause.
pub trait FileCalls: Drop {
    ghost use Rattle.std.specs.Prelude.{List, Option};
    ghost use Rattle.dsn_journal.specs.FileDeeds.{FileDeed};

    // The deeds so far, done or tried, in their order; `None` if they aren't exposed. The system's
    // calls expose nothing; calls in memory may.
    ghost deeds: { Self → Option (List FileDeed) };

    /// Opens the file of this name, to be read and written.
    fn open(&mut self, path: &str) -> io::Result<()>
        ensures { deeds self.new ≡ with_deed (deeds self.old) (answered result (Opened path.now)) };

    /// Makes a file under this name, with this mode. Returns an error if the name exists.
    fn make(&mut self, path: &str, mode: u32) -> io::Result<()>
        ensures { deeds self.new
            ≡ with_deed (deeds self.old) (answered result (Made path.now mode)) };

    /// Locks the file for this process alone. Returns an error of the kind `WouldBlock` if another
    /// process has locked it.
    fn lock(&mut self) -> io::Result<()>
        ensures { deeds self.new ≡ with_deed (deeds self.old) (answered result Locked) };

    /// Returns an error of the kind `WouldBlock` if the name isn't the file's any more.
    fn check_name(&mut self, path: &str) -> io::Result<()>
        ensures { deeds self.new
            ≡ with_deed (deeds self.old) (answered result (NameChecked path.now)) };

    /// Returns the length of the file in bytes.
    fn measure(&mut self) -> io::Result<u64>
        ensures { deeds self.new ≡ with_deed (deeds self.old) (measured result) };

    /// Fills `buffer` with the first bytes of the file.
    fn read(&mut self, buffer: &mut [u8]) -> io::Result<()>
        ensures { deeds self.new
            ≡ with_deed (deeds self.old) (answered result (BytesRead buffer.new)) };

    /// Writes all of `bytes` from the offset `at` on.
    fn write(&mut self, at: u64, bytes: &[u8]) -> io::Result<()>
        ensures { deeds self.new
            ≡ with_deed (deeds self.old) (answered result (BytesWritten at bytes.now)) };

    /// Makes the file's bytes and attributes durable.
    fn sync_all(&mut self) -> io::Result<()>
        ensures { deeds self.new ≡ with_deed (deeds self.old) (answered result Synced) };

    /// Makes the file's bytes durable.
    fn sync_data(&mut self) -> io::Result<()>
        ensures { deeds self.new ≡ with_deed (deeds self.old) (answered result DataSynced) };

    /// Gives the file of the name `from` the name `to`, in place of the file that has it.
    fn rename(&mut self, from: &str, to: &str) -> io::Result<()>
        ensures { deeds self.new
            ≡ with_deed (deeds self.old) (answered result (Renamed from.now to.now)) };

    /// Gives the file of the name `from` the name `to` too. Returns an error of the kind
    /// `AlreadyExists` if the name `to` exists.
    fn link(&mut self, from: &str, to: &str) -> io::Result<()>
        ensures { deeds self.new
            ≡ with_deed (deeds self.old) (answered result (Linked from.now to.now)) };

    /// Removes a name. A name that doesn't exist counts as removed. If the file has another name
    /// too, it keeps its bytes.
    fn remove(&mut self, path: &str) -> io::Result<()>
        ensures { deeds self.new
            ≡ with_deed (deeds self.old) (answered result (Removed path.now)) };

    /// Makes the names of the folder that has this name durable.
    fn sync_folder(&mut self, path: &str) -> io::Result<()>
        ensures { deeds self.new
            ≡ with_deed (deeds self.old) (answered result (FolderSynced path.now)) };
}
