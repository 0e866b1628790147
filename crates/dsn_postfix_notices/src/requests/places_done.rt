//! Which recipients of a message's file are marked as done once the sender is notified.
//! Implements docs/postfix-internals.md, "A connection".
ghost use Rattle.std.specs.Prelude.{◌≡◌, ◌++◌, IfOk, OnOk};
ghost use Rattle.std.specs.List.{flat_map};
ghost use Rattle.std.specs.Option.{option_map};
ghost use Rattle.dsn_postfix_files.specs.LogEntry.{logged_entry_in};
ghost use Rattle.dsn_postfix_files.specs.LogFile.{log_entries};
ghost use Rattle.dsn_postfix_notices.specs.requests.RequestLetters.{marks_done, place_if_known, place_of_entry, places_done, places_in_log, places_named};

use crate::requests::mail_found::tells_of_log;
use crate::requests::notice_task::NoticeTask;
use dsn_postfix::{NoticeRequest, PostfixRequest};
use dsn_postfix_files::{LogEntry, LogReader};
use dsn_text::Service;
use std::alloc::{AllocError, Global};

/// Adds a place, unless it is 0, which means unknown.
fn push_place(places: &mut Vec<u64>, place: u64) -> Result<(), AllocError>
    ensures { OnOk result (places.new.items ≡ places.old.items ++ place_if_known place) }
{
    if place == 0 {
        return Ok(());
    }
    places.push(place)?;
    Ok(())
}

/// Adds the place that an entry of a log gives.
fn push_entry(places: &mut Vec<u64>, entry: &LogEntry<'_>) -> Result<(), AllocError>
    ensures { OnOk result (places.new.items
        ≡ places.old.items ++ place_of_entry (logged_entry_in entry.now)) }
{
    match entry {
        LogEntry::Said(found) => push_place(places, found.offset),
        LogEntry::Damaged(_) => Ok(()),
    }
}

/// The places that the entries of a log give, in their order.
fn places_of_entries(alloc: Global, service: Service, log: &[u8]) -> Result<Vec<u64>, AllocError>
    ensures { IfOk result (λ places. places.items
        ≡ flat_map place_of_entry (log_entries service log.now)) }
{
    let mut places = Vec::new(alloc);
    let mut reader = LogReader::new(service, log);
    while let Some(entry) = reader.next_entry() {
        push_entry(&mut places, &entry)?;
    }
    Ok(places)
}

/// The places that a log gives, if there is one.
fn places_in_log(
    alloc: Global,
    service: Service,
    log: Option<&[u8]>,
) -> Result<Vec<u64>, AllocError>
    ensures { IfOk result (λ places. places.items
        ≡ places_in_log service (option_map (λ log. log.now) log.entry)) }
{
    match log {
        Some(log) => places_of_entries(alloc, service, log),
        None => Ok(Vec::new(alloc)),
    }
}

/// The place of one recipient, if it is known.
fn place_alone(alloc: Global, place: u64) -> Result<Vec<u64>, AllocError>
    ensures { IfOk result (λ places. places.items ≡ place_if_known place) }
{
    let mut places = Vec::new(alloc);
    push_place(&mut places, place)?;
    Ok(places)
}

/// The places of the recipients that a request reports.
fn places_named(
    alloc: Global,
    service: Service,
    request: &PostfixRequest<'_>,
    log: Option<&[u8]>,
) -> Result<Vec<u64>, AllocError>
    ensures { IfOk result (λ places. places.items
        ≡ places_named service request.now (option_map (λ log. log.now) log.entry)) }
{
    match request {
        PostfixRequest::Append(_) => Ok(Vec::new(alloc)),
        PostfixRequest::One(_, recipient, _) => place_alone(alloc, recipient.offset),
        PostfixRequest::Flush(_)
        | PostfixRequest::Warn(_)
        | PostfixRequest::Verp(..)
        // This includes recipients who didn't want to be notified: they are done all the same.
        | PostfixRequest::Trace(_) => places_in_log(alloc, service, log),
    }
}

/// Whether recipients are marked as done after a request's notices. Those of a bounce log are done
/// already, and another recipient of an alias may have the same record.
fn marks_done(task: &NoticeTask<'_>) -> bool
    ensures { result ≡ marks_done task.now }
{
    let notice: &NoticeRequest<'_> = task.notice;
    notice.marks_recipients() && !(task.service() == Service::Bounce && tells_of_log(task.request))
}

/// The places of the recipients that are to be marked as done.
pub(super) fn places_done(
    alloc: Global,
    task: &NoticeTask<'_>,
    log: Option<&[u8]>,
) -> Result<Vec<u64>, AllocError>
    ensures { IfOk result (λ places. places.items
        ≡ places_done task.now (option_map (λ log. log.now) log.entry)) }
{
    if !marks_done(task) {
        return Ok(Vec::new(alloc));
    }
    places_named(alloc, task.service(), task.request, log)
}
