//! The record that an append of a Postfix program becomes in a log, and the entries that are read
//! from a log.
use crate::assert_same::same;
use crate::postfix_request::decoded;
use dsn_postfix::{PostfixRequest, logged_as};
use dsn_postfix_files::{LogEntry, LogField, LogReader};
use dsn_text::Service;
use std::alloc::{AllocGlobal, Global};
use std::process::Abort;
use std::test::Fail;

/// `append-bounce.bin` of tests/postfix/, with another original recipient, which an alias had.
const APPEND: &[u8] =
    b"nrequest\00\0flags\00\0queue_id\06BB87A7E6A1\0original_recipient\0bob@example.org\0recipient\0no.bob@example.org\0offset\0727\0dsn_orig_rcpt\0rfc822;bob@example.org\0notify_flags\012\0status\05.1.1\0diag_type\0smtp\0diag_text\0550 5.1.1 <no.bob>: no such user here\0mta_type\0dns\0mta_mname\0127.0.0.1\0action\0failed\0reason\0host 127.0.0.1[127.0.0.1] said: 550 5.1.1 <no.bob>: no such user here (in reply to RCPT TO command)\0\0";

/// The record that bounce(8) appends to its log for that request.
const LOGGED: &[u8] =
    b"\n<no.bob@example.org>: host 127.0.0.1[127.0.0.1] said: 550 5.1.1 <no.bob>: no such user here (in reply to RCPT TO command)\nrecipient=no.bob@example.org\noriginal_recipient=bob@example.org\noffset=727\ndsn_orig_rcpt=rfc822;bob@example.org\nnotify_flags=12\nstatus=5.1.1\naction=failed\ndiag_type=smtp\ndiag_text=550 5.1.1 <no.bob>: no such user here\nmta_type=dns\nmta_mname=127.0.0.1\nreason=host 127.0.0.1[127.0.0.1] said: 550 5.1.1 <no.bob>: no such user here (in reply to RCPT TO command)\n\n";

/// The same request about a recipient whose address has to be quoted.
const TO_BE_QUOTED: &[u8] =
    b"nrequest\00\0flags\00\0queue_id\06BB87A7E6A1\0original_recipient\0\0recipient\0no bob@example.org\0offset\0727\0dsn_orig_rcpt\0\0notify_flags\00\0status\05.1.1\0diag_type\0\0diag_text\0\0mta_type\0\0mta_mname\0\0action\0failed\0reason\0no\0\0";

/// A log in which one write was cut short before another. Its last line has no end.
const DAMAGED: &[u8] =
    b"\n<a@example.com>: no\nrecipient=a@example.com\nsta\n<b@example.com>: busy\nrecipient=b@example.com\nreason=busy\n\n\n<c@example.com>: n";

/// The record that bounce(8) logs of a recipient whose transport is `error:5.7.1`, without words.
const WITHOUT_WORDS: &[u8] =
    b"\n<bob@silent.example.org>: \nrecipient=bob@silent.example.org\noffset=669\nstatus=5.7.1\naction=failed\n\n";

/// The bytes of the record that an append becomes in a log of a service, or the field that can't be
/// logged.
fn logged(
    alloc: Global,
    service: Service,
    bytes: &[u8],
) -> Result<Result<Vec<u8>, LogField>, Fail> {
    let PostfixRequest::Append(append) = decoded(bytes)? else {
        return Err("an append".into());
    };
    match logged_as(service, &append) {
        Ok(record) => Ok(Ok(record.log_bytes(alloc)?)),
        Err(field) => Ok(Err(field)),
    }
}

/// An append becomes this record in a log of a service, or can't be logged because of this field.
fn expect_logged(
    rt: &(impl AllocGlobal + Abort),
    service: Service,
    bytes: &[u8],
    want: Result<&[u8], LogField>,
) -> Result<(), Fail> {
    match logged(rt.alloc(), service, bytes)? {
        Ok(record) => same(rt, Ok(record.as_slice()), want),
        Err(field) => same(rt, Err(field), want),
    }
    Ok(())
}

#[test]
fn an_append_is_logged_as_bounce_logs_it(rt: HostRuntime) -> Result<(), Fail> {
    expect_logged(&rt, Service::Bounce, APPEND, Ok(LOGGED))?;
    expect_logged(&rt, Service::Defer, APPEND, Ok(LOGGED))?;
    let unlogged = Err(LogField::Recipient);
    expect_logged(&rt, Service::Defer, TO_BE_QUOTED, unlogged)
}

/// The next entry of a log is a record of this recipient with this reason, or a damaged one at this
/// place, or the log has ended.
fn expect_entry(
    rt: &impl Abort,
    reader: &mut LogReader<'_>,
    want: Option<Result<(&[u8], &[u8]), u64>>,
) {
    let found = match reader.next_entry() {
        Some(LogEntry::Said(record)) => Some(Ok((record.recipient, record.reason))),
        Some(LogEntry::Damaged(lines)) => Some(Err(lines.place)),
        None => None,
    };
    same(rt, found, want);
}

#[test]
fn recipients_of_a_damaged_log_stay_apart(rt: HostRuntime) {
    let mut reader = LogReader::new(Service::Bounce, DAMAGED);
    expect_entry(&rt, &mut reader, Some(Err(1)));
    let second = (b"b@example.com".as_slice(), b"busy".as_slice());
    expect_entry(&rt, &mut reader, Some(Ok(second)));
    expect_entry(&rt, &mut reader, Some(Err(109)));
    expect_entry(&rt, &mut reader, None);
}

#[test]
fn a_record_without_a_reason_has_one_in_its_place(rt: HostRuntime) {
    let mut reader = LogReader::new(Service::Bounce, WITHOUT_WORDS);
    let want = (
        b"bob@silent.example.org".as_slice(),
        b"(description unavailable)".as_slice(),
    );
    expect_entry(&rt, &mut reader, Some(Ok(want)));
}
