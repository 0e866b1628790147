//! The command `status`: it asks a daemon for its status, and prints that.
use crate::socket_fault::print_socket_fault;
use crate::start_error::StartError;
use crate::status_metrics::{metrics_of, value_in};
use crate::status_socket::status_path;
use std::alloc::AllocError;
use std::io;
use std::io::{Error, ErrorKind, Print};
use std::os::unix::net::UnixStream;
use std::time::Duration;

/// How many seconds the daemon may take for a part of its answer.
const PATIENCE: u64 = 10;

/// The last line of a status.
const END: &str = "\nend\n";

/// The exit status of a command that couldn't print.
const FAULT: u8 = 1;

/// What is printed of a status.
#[derive(Clone, Copy, Drop, PartialEq, Eq)]
pub(crate) enum StatusView {
    /// The counts.
    Counts,
    /// The open logs, the oldest first.
    Open,
    /// The counts as metrics, in the text format of Prometheus.
    Metrics,
}

/// Prints the status of the daemon at this socket. Returns the status of the command.
pub(crate) fn run_status(
    rt: &HostRuntime,
    socket: &str,
    view: StatusView,
) -> Result<u8, StartError> {
    let path = status_path(rt.alloc(), socket)?;
    let text = match read_status(rt, path.as_str()) {
        Ok(text) => text,
        Err(error) if error.kind() == ErrorKind::OutOfMemory => return Err(StartError::NoMemory),
        Err(error) => return Ok(print_socket_fault(rt, path.as_str(), &error)),
    };
    let shown = match view {
        StatusView::Counts => counts_of(rt, text.as_str())?,
        StatusView::Open => open_logs_of(rt, text.as_str())?,
        StatusView::Metrics => metrics_of(rt.alloc(), text.as_str())?,
    };
    match print!(rt; "{shown}") {
        Ok(()) => Ok(0),
        Err(_) => Ok(FAULT),
    }
}

/// The text that the daemon at this path answers. Returns an error if it is cut.
fn read_status(rt: &HostRuntime, path: &str) -> io::Result<String> {
    let stream = UnixStream::connect(rt, path)?;
    stream.set_read_timeout(Some(Duration::from_secs(PATIENCE)))?;
    let text = io::read_to_string(rt.alloc(), stream)?;
    if text.ends_with(END) {
        Ok(text)
    } else {
        Err(Error::from(ErrorKind::UnexpectedEof))
    }
}

/// The lines of the counts.
fn counts_of(rt: &HostRuntime, text: &str) -> Result<String, AllocError> {
    let mut shown = String::new(rt.alloc());
    for line in text.lines() {
        if line != "end" && !line.starts_with("open ") {
            shown.push_str(line)?;
            shown.push_str("\n")?;
        }
    }
    Ok(shown)
}

/// The lines of the open logs. If some are left out, the last line says how many.
fn open_logs_of(rt: &HostRuntime, text: &str) -> Result<String, AllocError> {
    let mut shown = String::new(rt.alloc());
    for line in text.lines() {
        if let Some(log) = line.strip_prefix("open ") {
            shown.push_str(log)?;
            shown.push_str("\n")?;
        }
    }
    let left_out = number_in(text, "keys_open").saturating_sub(number_in(text, "listed"));
    if left_out > 0 {
        shown.push_str(format!(in rt.alloc(); "{left_out} more are not listed\n")?.as_str())?;
    }
    Ok(shown)
}

/// The number of the line of this name, or 0.
fn number_in(text: &str, name: &str) -> u64 {
    match value_in(text, name) {
        Some(value) => value.parse().unwrap_or(0),
        None => 0,
    }
}
