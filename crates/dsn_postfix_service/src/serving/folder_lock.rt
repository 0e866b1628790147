//! The lock of a Postfix's folder.
//! The sockets can't keep a second process out: it must replace those of an ended process, so it
//! would also replace those of a running one. A lock ends with its process.
//! Implements docs/postfix-internals.md, "Files".
use std::fs::File;
use std::io;
use std::os::unix::fs::OpenOptionsExt;

/// Keeps other processes out of the folder of a Postfix's sockets until it is dropped.
#[derive(Drop)]
pub(super) struct FolderLock {
    _file: File,
}

impl FolderLock {
    /// Locks the folder. Returns an error of the kind `WouldBlock` if another process has the lock.
    pub(super) fn take(rt: &HostRuntime, folder: &str) -> io::Result<FolderLock> {
        let path = format!(in rt.alloc(); "{folder}/private/noticed.lock")?;
        let file = File::options()
            .write(true)
            .create(true)
            .mode(0o600)
            .open(rt, path.as_str())?;
        file.try_lock()?;
        Ok(FolderLock { _file: file })
    }
}
