//! The writer of notices for C. A call gets the requests of one log as frames
//! (noticed-protocol(5)), and writes the notice into the caller's room (noticed-notice(5)). Nothing
//! is kept between two calls.
#![tactic(auto)]

ghost use Rattle.std.specs.Prelude.{◌≡◌};
ghost use Rattle.dsn_report.specs.Notice.{notice_of, return_path_of};
ghost use Rattle.dsn_report.specs.Outbox.{mail_data};
ghost use Rattle.dsn_report.specs.Site.{plain_site};
ghost use Rattle.noticed_dsn.specs.Calls.{GivesText, IsCallRefused, IsTextOf, library_words};
ghost use Rattle.noticed_dsn.specs.Log.{IsRefused};

mod log_fault;
mod memory_source;
mod next_request;
mod one_log;
mod room;
mod texts;

use crate::log_fault::library_words;
use crate::one_log::read_letter;
use crate::room::{give, refuse};
use crate::texts::text_for;
use std::alloc::Global;

/// Writes the notice of a log, as a mail program shows it, into `out`, and sets `fault` to 0.
/// Returns its length; if it is longer than `out`, nothing is written.
///
/// `frames` are the appends of one log, numbered from 0, and then its flush. `serial` becomes a part
/// of the Message-ID. Returns 0 and sets `fault` if there is no notice: to 51 if `host` is not a
/// host name, or to the number of the first fault of the frames, 101 to 104 among them. 9 means that
/// memory was refused.
#[unsafe(no_mangle)]
pub extern "C" fn noticed_dsn_notice(
    alloc: Global,
    host: &[u8],
    frames: &[u8],
    serial: u64,
    out: &mut [u8],
    fault: &mut u32,
) -> usize
    ensures { GivesText (IsTextOf (notice_of (plain_site host.now)) frames.now serial)
        (IsCallRefused host.now frames.now) out.old out.new result fault.new }
{
    match text_for(alloc, host, frames, serial, false) {
        Ok(text) => give(text.as_slice(), out, fault),
        Err(code) => refuse(code, fault),
    }
}

/// Writes the same notice as the mail data that follow the command DATA: with the dots that SMTP
/// adds and the final dot.
#[unsafe(no_mangle)]
pub extern "C" fn noticed_dsn_mail_data(
    alloc: Global,
    host: &[u8],
    frames: &[u8],
    serial: u64,
    out: &mut [u8],
    fault: &mut u32,
) -> usize
    ensures { GivesText (IsTextOf (mail_data (plain_site host.now)) frames.now serial)
        (IsCallRefused host.now frames.now) out.old out.new result fault.new }
{
    match text_for(alloc, host, frames, serial, true) {
        Ok(text) => give(text.as_slice(), out, fault),
        Err(code) => refuse(code, fault),
    }
}

/// Writes the address that the notice of a log is sent to into `out`, as `noticed_dsn_notice` does.
#[unsafe(no_mangle)]
pub extern "C" fn noticed_dsn_return_path(
    alloc: Global,
    frames: &[u8],
    out: &mut [u8],
    fault: &mut u32,
) -> usize
    ensures { GivesText (IsTextOf return_path_of frames.now 0) (IsRefused frames.now) out.old out.new
        result fault.new }
{
    match read_letter(alloc, frames, 0) {
        Ok(letter) => give(letter.return_path().bytes(), out, fault),
        Err(code) => refuse(code, fault),
    }
}

/// Writes the words of a fault's number into `out`. Returns their length, 0 if there is no such
/// fault; if they are longer than `out`, nothing is written.
#[unsafe(no_mangle)]
pub extern "C" fn noticed_dsn_fault(code: u32, out: &mut [u8]) -> usize
    ensures { GivesText (λ text. text ≡ library_words code) (λ _. ⊥) out.old out.new result 0 }
{
    give(library_words(code).as_bytes(), out, &mut 0)
}
