//! The descriptors of closed standard streams.
use crate::start_error::StartError;
use std::fs::File;
use std::io::ErrorKind;
use std::os::fd::{AsRawFd, IntoRawFd};

/// How many standard streams there are: their descriptors are below this number.
const STREAMS: i32 = 3;

/// The system's number for "too many open files".
const TOO_MANY_FILES: i32 = 24;

/// Takes the descriptors of closed standard streams, so that no socket gets one of them and is read
/// or written as a standard stream. Each then is the root folder, which can be neither read nor
/// written: so reads and writes of the stream fail, as on a closed one. Returns an error if a
/// descriptor couldn't be taken and a socket might still get it.
pub(crate) fn take_closed_streams(rt: &HostRuntime) -> Result<(), StartError> {
    for _ in 0..STREAMS {
        // Not the null device: with it, a daemon without standard output would lose its notices
        // silently.
        match File::open(rt, "/") {
            Ok(folder) if folder.as_raw_fd() < STREAMS => {
                let _ = folder.into_raw_fd();
            }
            Ok(_) => return Ok(()),
            // No descriptor is left, so no socket can get one either.
            Err(error) if error.raw_os_error() == Some(TOO_MANY_FILES) => return Ok(()),
            Err(error) if error.kind() == ErrorKind::OutOfMemory => return Err(
                StartError::NoMemory,
            ),
            Err(error) => return Err(StartError::NoStream(error)),
        }
    }
    Ok(())
}
