//! The command `batch`.
use crate::buffer::{ROOM, let_go};
use crate::fault_note::NoteWriter;
use crate::start_error::StartError;
use dsn_outcome::Plain;
use dsn_report::Site;
use noticed_lib::{BatchEnd, Limits, batch};
use std::io::{BufReader, BufWriter};

/// Runs `batch` over the standard streams, and returns its status.
pub(crate) fn run_batch(rt: &HostRuntime, site: Site) -> Result<u8, StartError> {
    let reader = BufReader::with_capacity(rt.alloc(), ROOM, rt.stdin()).map_err(
        |_| StartError::NoMemory,
    )?;
    let writer = BufWriter::with_capacity(rt.alloc(), ROOM, rt.stdout()).map_err(
        |_| StartError::NoMemory,
    )?;
    let mut input = Plain::new(reader);
    let mut notes = Plain::new(NoteWriter::new(rt, None));
    let end = batch(
        rt.alloc(),
        &Limits::of_program(),
        site,
        &mut input,
        Plain::new(writer),
        &mut notes,
    );
    let BatchEnd {
        outbox,
        whole: _,
        fault: _,
        unsent: _,
        status,
    } = end;
    let_go(outbox.into_inner());
    Ok(status)
}
