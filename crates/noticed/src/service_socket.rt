//! The service manager's socket, at the path that the environment has (sd_notify(3)).
//! std has no datagram sockets of Unix: so the C library is asked for one.
use crate::start_error::StartError;
use libc::net::{_SS_SIZE, AF_UNIX, SOCK_CLOEXEC, SOCK_DGRAM, connect, socket};
use noticed_lib::ServiceManager;
use os::FromRawFd;
use std::env;
use std::env::VarError;
use std::os::unix::net::UnixStream;
use std::time::Duration;

/// The length of an address's family, in bytes.
const FAMILY: usize = 2;

/// The longest path in an address, in bytes: a 0 follows it.
const LONGEST_PATH: usize = 107;

/// The service manager that the environment names. None if it names none, or if it can't be
/// reached: the run doesn't depend on it. Returns an error if memory is refused.
pub(crate) fn service_manager(rt: &HostRuntime) -> Result<Option<ServiceManager>, StartError> {
    let Some(path) = variable(rt, "NOTIFY_SOCKET")? else {
        return Ok(None);
    };
    let interval = match variable(rt, "WATCHDOG_USEC")? {
        Some(text) => watchdog_interval(text.as_str()),
        None => None,
    };
    match connected(path.as_bytes()) {
        Some(socket) => Ok(ServiceManager::new(socket, interval).ok()),
        None => Ok(None),
    }
}

/// A variable of the environment, if it is set and is text.
fn variable(rt: &HostRuntime, name: &str) -> Result<Option<String>, StartError> {
    match env::var(rt, name) {
        Ok(text) => Ok(Some(text)),
        Err(VarError::OutOfMemory) => Err(StartError::NoMemory),
        Err(_) => Ok(None),
    }
}

/// Half of this number of microseconds, after which the service manager takes the run for hung.
fn watchdog_interval(text: &str) -> Option<Duration> {
    let microseconds = text.parse::<u64>().ok()?;
    Some(Duration::from_micros(microseconds / 2))
}

/// A datagram socket that is connected to this path, if the system connects it.
fn connected(path: &[u8]) -> Option<UnixStream> {
    if path.is_empty() || path.len() > LONGEST_PATH {
        return None;
    }
    let address = address_of(path);
    let length = (FAMILY + path.len()) as u32;
    let descriptor = unsafe { socket(AF_UNIX, SOCK_DGRAM | SOCK_CLOEXEC, 0) };
    if descriptor < 0 {
        return None;
    }
    let stream = unsafe { UnixStream::from_raw_fd(descriptor) };
    if unsafe { connect(descriptor, &address, length) } < 0 {
        return None;
    }
    Some(stream)
}

/// The address of a socket at this path, which is cut at 107 bytes. A path that begins with `@` is
/// an abstract one (unix(7)).
fn address_of(path: &[u8]) -> [u8; _SS_SIZE] {
    let mut address = [0u8; _SS_SIZE];
    address[0] = 1;
    for (place, byte) in address[FAMILY..]
        .iter_mut()
        .zip(path.iter().take(LONGEST_PATH))
    {
        *place = *byte;
    }
    if address[FAMILY] == b'@' {
        address[FAMILY] = 0;
    }
    address
}
