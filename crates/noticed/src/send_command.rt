//! The command `send`: sends the frames of standard input to a daemon's socket, and prints its
//! answers to standard output.
use crate::buffer::ROOM;
use crate::fault_note::print_fault_line;
use crate::socket_fault::note_socket_fault;
use crate::start_error::StartError;
use dsn_outcome::Plain;
use noticed_lib::send;
use std::io::BufReader;
use std::os::unix::net::UnixStream;
use std::sync::Wait;

/// Sends the frames of standard input to the daemon at this socket. Prints each answer in a line of
/// standard output as it comes, and a fault on standard error. Returns the status. Only in `main`
/// may the runtime wait, so `waiting` passes it again with this right.
pub(crate) fn run_send(
    rt: &HostRuntime,
    waiting: &impl Wait,
    socket: &str,
) -> Result<u8, StartError> {
    let reader = BufReader::with_capacity(rt.alloc(), ROOM, rt.stdin()).map_err(
        |_| StartError::NoMemory,
    )?;
    let connection = match UnixStream::connect(rt, socket) {
        Ok(connection) => connection,
        Err(error) => return Ok(note_socket_fault(rt, false, socket, &error)),
    };
    let mut input = Plain::new(reader);
    let mut stream = Plain::new(connection);
    let mut lines = Plain::new(rt.stdout());
    let end = send(waiting, rt.alloc(), &mut input, &mut stream, &mut lines);
    if let Some(code) = end.fault {
        print_fault_line(rt, code);
    }
    Ok(end.status)
}
