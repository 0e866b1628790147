//! The socket of a run of `serve`: made, in place of one that a killed run left, or inherited.
use crate::arguments::LONGEST_PATH;
use os::FromRawFd;
use std::io::{Error, ErrorKind};
use std::os::unix::fs::FileTypeExt;
use std::os::unix::net::{UnixListener, UnixStream};
use std::path::Path;
use std::{fs, io};

/// The descriptor of an inherited socket, as in sd_listen_fds(3).
const INHERITED: i32 = 3;

/// Returns an error of the kind `InvalidInput` if no socket can have this path, and of the kind
/// `AlreadyExists` if a file that is no socket has it.
pub(crate) fn check_place(rt: &HostRuntime, path: &str) -> io::Result<()> {
    // The system would bind an empty path to a name that every account gets to.
    if path.is_empty() || path.len() > LONGEST_PATH {
        return Err(Error::new(ErrorKind::InvalidInput, "the path must have 1 to 107 bytes"));
    }
    match fs::symlink_metadata(rt, path) {
        Ok(file) if !file.file_type().is_socket() => Err(Error::new(
            ErrorKind::AlreadyExists,
            "is no socket, and is left alone",
        )),
        Err(error) if error.kind() != ErrorKind::NotFound => Err(error),
        _ => Ok(()),
    }
}

/// Listens at this path. A socket at which nobody listens is replaced. Requires that the run's file
/// is locked: else two runs could replace each other's sockets. Returns an error of the kind
/// `AlreadyExists` if another file has the path, and `AddrInUse` if somebody listens there.
pub(crate) fn make_socket(rt: &HostRuntime, path: &str) -> io::Result<UnixListener> {
    check_place(rt, path)?;
    if fs::exists(rt, path)? {
        remove_unused(rt, path)?;
    }
    UnixListener::bind(rt, path)
}

/// Removes a socket at which nobody listens.
fn remove_unused(rt: &HostRuntime, path: &str) -> io::Result<()> {
    match UnixStream::connect(rt, path) {
        Ok(_) => Err(Error::new(ErrorKind::AddrInUse, "somebody listens there")),
        Err(error) if error.kind() == ErrorKind::ConnectionRefused => fs::remove_file(rt, path),
        Err(error) => Err(error),
    }
}

/// Takes the socket at which the starter of the process listens, and which it keeps after the
/// process ends: descriptor 3. Returns an error of the kind `InvalidInput` if it isn't at this path.
///
/// # Safety
///
/// Nothing else in the process may have this descriptor.
pub(crate) unsafe fn inherit_socket(path: &str) -> io::Result<UnixListener> {
    // An option, and not the environment: another service's `LISTEN_FDS` would be taken for this
    // one's.
    let listener = UnixListener::from_raw_fd(INHERITED);
    let address = listener.local_addr()?;
    match address.as_pathname() {
        Some(found) if found == Path::new(path) => {}
        _ => return Err(Error::new(
            ErrorKind::InvalidInput,
            "the inherited socket is not at this path",
        )),
    }
    // Its starter may have had it the other way.
    listener.set_nonblocking(false)?;
    Ok(listener)
}
