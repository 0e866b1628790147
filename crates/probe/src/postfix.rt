//! Reads files that Postfix keeps, for scripts that compare what is found with what Postfix finds.
mod many;
mod plan;

use dsn_postfix_files::{LogEntry, LogReader, QueueReader};
use dsn_text::Service;
use std::io::Write;

/// A kind of file that Postfix keeps.
#[derive(Clone, Copy, Drop)]
pub(crate) enum PostfixFile {
    /// A log file of bounce(8).
    Log(Service),
    /// A queue file.
    Queue,
    /// A request, the log of this service, and the queue file.
    Plan(Service),
    /// Many logs of a service, or many queue files.
    Many(Option<Service>),
}

/// Writes what is found in a file to standard output.
pub(crate) fn show(rt: &HostRuntime, kind: PostfixFile, file: &[u8]) -> Option<()> {
    let found = match kind {
        PostfixFile::Log(service) => copied(rt, service, file)?,
        PostfixFile::Queue => listed(rt, file)?,
        PostfixFile::Plan(service) => plan::planned(rt, service, file)?,
        PostfixFile::Many(service) => many::counted(rt, service, file)?,
    };
    rt.stdout().write_all(&found).ok()
}

/// The entries of a log file: records written again, and of lines that aren't what Postfix writes their place.
fn copied(rt: &HostRuntime, service: Service, file: &[u8]) -> Option<Vec<u8>> {
    let mut reader = LogReader::new(service, file);
    let mut copy = Vec::new(rt.alloc());
    for _ in 0..file.len() {
        let Some(entry) = reader.next_entry() else {
            break;
        };
        let bytes = match entry {
            LogEntry::Said(found) => found.log_bytes(rt.alloc()).ok()?,
            LogEntry::Damaged(lines) => damage(rt, lines.place)?,
        };
        copy.extend_from_slice(&bytes).ok()?;
    }
    Some(copy)
}

/// A line that names the place where lines begin that Postfix doesn't write.
fn damage(rt: &HostRuntime, place: u64) -> Option<Vec<u8>> {
    let mut line = Vec::new(rt.alloc());
    line.extend_from_slice(b"damaged at ").ok()?;
    line.extend_from_slice(format!(in rt.alloc(); "{place}").ok()?.as_bytes())
        .ok()?;
    line.push(b'\n').ok()?;
    Some(line)
}

/// The records of a queue file that count, in their order, each as a line: its type's letter and
/// its bytes.
fn listed(rt: &HostRuntime, file: &[u8]) -> Option<Vec<u8>> {
    let mut reader = QueueReader::new(file);
    let mut lines = Vec::new(rt.alloc());
    for _ in 0..file.len() {
        let Some(found) = reader.next_record().ok()? else {
            break;
        };
        lines.push(found.kind).ok()?;
        lines.extend_from_slice(found.bytes).ok()?;
        lines.push(b'\n').ok()?;
    }
    Some(lines)
}
