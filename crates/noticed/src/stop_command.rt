//! The command `stop`: it ends the daemon at a socket, and waits until it has ended.
use crate::run_file::end_run;
use crate::socket_fault::print_socket_fault;
use crate::start_error::StartError;
use std::io::ErrorKind;

/// Ends the daemon at this socket, and waits until it has ended. Returns the status.
pub(crate) fn run_stop(rt: &HostRuntime, socket: &str) -> Result<u8, StartError> {
    match end_run(rt, socket) {
        Ok(()) => Ok(0),
        Err(error) if error.kind() == ErrorKind::OutOfMemory => Err(StartError::NoMemory),
        Err(error) => Ok(print_socket_fault(rt, socket, &error)),
    }
}
