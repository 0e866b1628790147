//! What many files of Postfix have, counted: of each a line.
use crate::postfix::plan::first_part;
use dsn_postfix_files::{
    LogEntry, LogReader, MessageFacts, QueueReader, header_of_message, text_of_message,
};
use dsn_text::Service;

/// The entries of a log file: how many are records, and how many are damaged.
fn entries(service: Service, file: &[u8]) -> (u64, u64) {
    let mut reader = LogReader::new(service, file);
    let mut said = 0u64;
    let mut damaged = 0u64;
    for _ in 0..u64::MAX {
        match reader.next_entry() {
            Some(LogEntry::Said(_)) => said = said.wrapping_add(1),
            Some(LogEntry::Damaged(_)) => damaged = damaged.wrapping_add(1),
            None => break,
        }
    }
    (said, damaged)
}

/// How many records a queue file has, and whether it ends after them.
fn records(file: &[u8]) -> (u64, bool) {
    let mut reader = QueueReader::new(file);
    let mut found = 0u64;
    for _ in 0..u64::MAX {
        match reader.next_record() {
            Ok(Some(_)) => found = found.wrapping_add(1),
            Ok(None) => return (found, true),
            Err(_) => break,
        }
    }
    (found, false)
}

/// How many recipients a queue file has, and whether it ends after them.
fn recipients(file: &[u8]) -> (u64, bool) {
    let mut reader = QueueReader::new(file);
    let mut found = 0u64;
    for _ in 0..u64::MAX {
        match reader.next_recipient() {
            Ok(Some(_)) => found = found.wrapping_add(1),
            Ok(None) => return (found, true),
            Err(_) => break,
        }
    }
    (found, false)
}

/// The line of a queue file: its records, its recipients, the size of its text and of the header, and by each reading
/// whether the file has an end.
fn queue_line(rt: &HostRuntime, file: &[u8]) -> Option<String> {
    let (found, ends) = records(file);
    let (named, named_ends) = recipients(file);
    let facts = MessageFacts::read(file).is_ok();
    let text = text_of_message(rt.alloc(), file, usize::MAX).ok()?;
    let size = text.len();
    let header = header_of_message(&text).len();
    format!(in rt.alloc(); "{found} {ends} {named} {named_ends} {facts} {size} {header}").ok()
}

/// The line of each of many files, which follow one another with a length before each.
pub(crate) fn counted(rt: &HostRuntime, service: Option<Service>, given: &[u8]) -> Option<Vec<u8>> {
    let mut rest = given;
    let mut lines = Vec::new(rt.alloc());
    for _ in 0..given.len() {
        let Some((file, after)) = first_part(rest) else {
            break;
        };
        let line = match service {
            Some(service) => {
                let (said, damaged) = entries(service, file);
                format!(in rt.alloc(); "{said} {damaged}").ok()?
            }
            None => queue_line(rt, file)?,
        };
        lines.extend_from_slice(line.as_bytes()).ok()?;
        lines.push(b'\n').ok()?;
        rest = after;
    }
    Some(lines)
}
