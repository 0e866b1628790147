//! A socket that isn't available.
//! The fault's number doesn't show whether a folder is missing, a file is in the way, or rights are
//! missing. So the system's words follow, where noticed-protocol(5) doesn't give the lines.
use crate::fault_note::{print_fault_line, print_worded_fault};
use dsn_text::fault_code;
use std::io;
use std::io::{Eprint, IsTerminal};

/// The exit status of a run that couldn't have its socket.
const FAULT: u8 = 1;

/// Prints that a socket isn't available, and the system's error. Returns the status.
pub(crate) fn print_socket_fault(rt: &impl Eprint, path: &str, error: &io::Error) -> u8 {
    print_worded_fault(rt, fault_code::SOCKET);
    let _ = eprintln!(rt; "{path}: {error}");
    FAULT
}

/// Prints that the socket of `serve` or `send` isn't available. The system's error follows if events
/// are logged, or on a terminal. Returns the status.
pub(crate) fn note_socket_fault(rt: &HostRuntime, logs: bool, path: &str, error: &io::Error) -> u8 {
    print_fault_line(rt, fault_code::SOCKET);
    if logs || rt.stderr().is_terminal() {
        let _ = eprintln!(rt; "{path}: {error}");
    }
    FAULT
}
