//! The file beside a socket that a run of the daemon keeps locked.
//! The socket's own file wouldn't do: one that is inherited belongs to who listens on it, and a
//! socket's file can't be locked.
use std::fs::{File, TryLockError};
use std::io::{Error, ErrorKind};
use std::os::unix::fs::{MetadataExt, OpenOptionsExt};
use std::{fs, io};

/// How often a run tries to get its file, while others remove it.
const TRIES: u32 = 100;

/// The file of a run, `SOCKET.run`. The run ends once the file is removed, and its lock ends with
/// the run.
#[derive(Drop)]
pub(crate) struct RunFile {
    _file: File,
    path: String,
}

impl RunFile {
    /// Makes the file of a run at this socket, or takes one that an earlier run left, and locks it.
    /// Returns an error of the kind `AddrInUse` if another daemon has it.
    pub(crate) fn take(rt: &HostRuntime, socket: &str) -> io::Result<RunFile> {
        let path = run_path(rt, socket)?;
        for _ in 0..TRIES {
            let file = File::options()
                .write(true)
                .create(true)
                .mode(0o600)
                .open(rt, path.as_str())?;
            match file.try_lock() {
                Ok(()) => {}
                Err(TryLockError::WouldBlock) => return Err(in_use()),
                Err(TryLockError::Error(error)) => return Err(error),
            }
            // A stop of an earlier run may have removed it just before it was locked.
            if is_at(rt, &file, path.as_str())? {
                return Ok(RunFile { _file: file, path });
            }
        }
        Err(in_use())
    }

    /// The path of the file.
    pub(crate) fn path(&self) -> &str {
        self.path.as_str()
    }
}

/// Removes the file of the run at this socket, and waits until the run has ended. Returns an error
/// of the kind `NotFound` if there is no such file, and `ConnectionRefused` if its run has ended.
pub(crate) fn end_run(rt: &HostRuntime, socket: &str) -> io::Result<()> {
    let path = run_path(rt, socket)?;
    let file = File::options().write(true).open(rt, path.as_str())?;
    match file.try_lock() {
        Ok(()) => return Err(Error::from_raw_os_error(NOBODY_LISTENS)),
        Err(TryLockError::WouldBlock) => {}
        Err(TryLockError::Error(error)) => return Err(error),
    }
    // If the path is by now that of a later run, the run of this file has ended.
    if is_at(rt, &file, path.as_str())? {
        match fs::remove_file(rt, path.as_str()) {
            Err(error) if error.kind() != ErrorKind::NotFound => return Err(error),
            _ => {}
        }
    }
    file.lock()
}

/// The system's number for a socket on which nobody listens.
const NOBODY_LISTENS: i32 = 111;

/// The path of the file of a run at this socket.
fn run_path(rt: &HostRuntime, socket: &str) -> io::Result<String> {
    Ok(format!(in rt.alloc(); "{socket}.run")?)
}

/// The error if another daemon has the file.
fn in_use() -> Error {
    Error::new(ErrorKind::AddrInUse, "another daemon has this socket")
}

/// Whether an open file is the one at this path.
pub(crate) fn is_at(rt: &HostRuntime, file: &File, path: &str) -> io::Result<bool> {
    let own = file.metadata()?;
    match fs::symlink_metadata(rt, path) {
        Ok(found) => Ok(found.dev() == own.dev() && found.ino() == own.ino()),
        Err(error) if error.kind() == ErrorKind::NotFound => Ok(false),
        Err(error) => Err(error),
    }
}
