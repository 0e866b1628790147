//! The line of a fault on standard error.
//! noticed-protocol(5) gives the bytes of the lines of `batch`, `serve` and `send`: programs compare
//! them. So a fault has its number alone there, and its words only on a terminal.
use dsn_event_log::EventLog;
use dsn_text::fault_words;
use std::io;
use std::io::{Eprint, ErrorKind, IsTerminal, Write};
use std::rt::Stderr;

/// For how many seconds the lines of the event log are waited for.
const SECONDS: u32 = 5;

/// Prints the line of a fault of `batch`, `serve` or `send`: its number, and on a terminal the
/// number's words.
pub(crate) fn print_fault_line(rt: &HostRuntime, code: u32) {
    if rt.stderr().is_terminal() {
        print_worded_fault(rt, code);
    } else {
        let _ = eprintln!(rt; "fault {code}");
    }
}

/// Prints the line of a fault of another command: its number, and the number's words.
pub(crate) fn print_worded_fault(rt: &impl Eprint, code: u32) {
    let _ = eprintln!(rt; "fault {code}: {}", fault_words(code));
}

/// Standard error, to which a run writes each line of its notes by one write, behind what its event
/// log has. If nobody reads that, a write is an error. On a terminal the line of a fault gets the
/// number's words.
#[derive(Drop)]
pub(crate) struct NoteWriter<'a> {
    rt: &'a HostRuntime,
    events: Option<&'a EventLog>,
    stderr: Stderr,
    is_terminal: bool,
}

impl<'a> NoteWriter<'a> {
    /// The writer of the notes of a run with this event log, if it has one.
    pub(crate) fn new(rt: &'a HostRuntime, events: Option<&'a EventLog>) -> NoteWriter<'a> {
        let stderr = rt.stderr();
        let is_terminal = stderr.is_terminal();
        NoteWriter {
            rt,
            events,
            stderr,
            is_terminal,
        }
    }

    /// Waits until the event log is written, for some seconds. Returns whether it is: then somebody
    /// reads standard error, so that a write doesn't block for ever.
    fn is_read(&self) -> bool {
        let Some(events) = self.events else {
            return true;
        };
        for _ in 0..SECONDS {
            if events.settle(self.rt) {
                return true;
            }
        }
        false
    }

    /// Writes the line of this fault with the number's words.
    fn write_worded(&mut self, line: &[u8], code: u32) -> io::Result<()> {
        self.stderr.write_all(line.trim_ascii_end())?;
        self.stderr.write_all(b": ")?;
        self.stderr.write_all(fault_words(code).as_bytes())?;
        self.stderr.write_all(b"\n")
    }
}

impl Write for NoteWriter<'_> {
    fn write(&mut self, text: &[u8]) -> io::Result<usize> {
        if !self.is_read() {
            return Err(io::Error::from(ErrorKind::TimedOut));
        }
        match code_in(text) {
            Some(code) if self.is_terminal => {
                self.write_worded(text, code)?;
                Ok(text.len())
            }
            _ => self.stderr.write(text),
        }
    }

    fn flush(&mut self) -> io::Result<()> {
        self.stderr.flush()
    }
}

/// The number of a fault whose line this is.
fn code_in(line: &[u8]) -> Option<u32> {
    let text = str::from_utf8(line).ok()?;
    text.strip_prefix("fault ")?
        .strip_suffix("\n")?
        .parse()
        .ok()
}
