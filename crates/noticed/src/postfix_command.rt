//! The command `postfix`.
//! It ends only by a signal, and has nothing to finish: Postfix repeats a request that isn't
//! answered. So it needs no `stop`, and its sockets stay.
use crate::fault_note::print_worded_fault;
use crate::postfix_serving::PostfixServing;
use crate::start_error::StartError;
use dsn_postfix_queue::PostfixSetup;
use dsn_postfix_service::{Listeners, StartFault, serve_postfix};
use dsn_text::fault_code;
use std::sync::Wait;
use std::thread::Threads;
use std::time::Clock;

/// The exit status of a run that couldn't have its sockets, or that ended.
const FAULT: u8 = 1;

/// Serves the programs of a Postfix until the process is ended. Returns the status if that fails.
/// Only in `main` may the runtime start threads and wait, so `waiting` passes it again with these
/// rights.
pub(crate) fn run_postfix<R: Threads + Wait + Clock + Copy + Send + Sync + Drop + 'static>(
    rt: &HostRuntime,
    waiting: &R,
    serving: PostfixServing,
) -> Result<u8, StartError> {
    let hashed = serving.values.hashed_queues(rt.alloc())?;
    let place = serving.place(hashed.as_slice());
    let listeners = match listen(rt, &place, serving.inherits) {
        Ok(listeners) => listeners,
        Err(fault) => return Ok(print_fault(rt, place.queues.root, &fault)),
    };
    let served = serve_postfix(rt, waiting, &listeners, place, serving.settings());
    if served.is_err() {
        return Err(StartError::NoMemory);
    }
    print_worded_fault(rt, fault_code::CREW_REFUSED);
    Ok(FAULT)
}

/// The sockets of a run, which are made or inherited.
fn listen(
    rt: &HostRuntime,
    place: &PostfixSetup<'_>,
    inherits: bool,
) -> Result<Listeners, StartFault> {
    if !inherits {
        return Listeners::make(rt, place);
    }
    // Nothing else has these descriptors: no file that the process opened so far is still open, and
    // only this thread runs.
    unsafe { Listeners::inherit(rt, place) }
}

/// Prints why the Postfix isn't served. Returns the status.
fn print_fault(rt: &HostRuntime, folder: &str, fault: &StartFault) -> u8 {
    print_worded_fault(rt, fault_code::SOCKET);
    let _ = eprintln!(rt; "{folder}/{fault}");
    FAULT
}
