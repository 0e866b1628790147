//! The letters of planned notices: the field that each field of a record becomes, and what can't be
//! said.
use crate::assert_same::same;
use dsn_outcome::{DraftFault, Letter, OutcomeFault, QueueId, Service, Stamp};
use dsn_postfix::{PlannedNotice, ReturnedPart};
use dsn_postfix_files::LogRecord;
use dsn_postfix_notices::{LetterFault, ReportedMessage, letter_of_notice};
use dsn_report::{Site, notice};
use std::alloc::{AllocGlobal, Global};
use std::process::Abort;
use std::test::Fail;

/// A record of a recipient that a remote system refused, as bounce(8) logs it.
const REFUSED: LogRecord<'static> = LogRecord {
    recipient: b"no.bob@example.org",
    original_recipient: b"bob@example.org",
    offset: 727,
    dsn_original: b"rfc822;Bob@example.org",
    notify_flags: 12,
    status: b"5.01.1",
    action: b"failed",
    diagnostic_type: b"smtp",
    diagnostic_text: b"550 5.1.1 no such user here",
    mta_type: b"dns",
    mta_name: b"127.0.0.1",
    reason: b"host 127.0.0.1 said: 550 5.1.1 no such user here",
};

/// A record of a recipient for whom no remote system was reached.
const UNREACHED: LogRecord<'static> = LogRecord {
    recipient: b"carol@example.org",
    original_recipient: b"",
    offset: 0,
    dsn_original: b"",
    notify_flags: 0,
    status: b"4.4.1",
    action: b"delayed",
    diagnostic_type: b"",
    diagnostic_text: b"",
    mta_type: b"",
    mta_name: b"",
    reason: b"connect to 127.0.0.1:25: Connection refused",
};

/// A record of a recipient that nobody rewrote: smtpd(8) records the address of RCPT as ORCPT.
const NOT_REWRITTEN: LogRecord<'static> = LogRecord {
    original_recipient: b"",
    dsn_original: b"rfc822;no.bob@example.org",
    ..REFUSED
};

/// A record of a remote system behind a socket.
const BEHIND_A_SOCKET: LogRecord<'static> = LogRecord {
    mta_type: b"unix",
    ..REFUSED
};

/// A record of a recipient with a space.
const SPACED: LogRecord<'static> = LogRecord {
    recipient: b"a b@example.org",
    ..REFUSED
};

/// The records that notices report.
const OF_REFUSED: &[LogRecord<'static>] = &[REFUSED];

const OF_NOT_REWRITTEN: &[LogRecord<'static>] = &[NOT_REWRITTEN];

const OF_UNREACHED: &[LogRecord<'static>] = &[UNREACHED];

const OF_SOCKET: &[LogRecord<'static>] = &[BEHIND_A_SOCKET];

const OF_SPACED: &[LogRecord<'static>] = &[REFUSED, SPACED];

/// The arrival of the message from Ann, if it is known, its envelope id, and the recipient of its
/// notice.
type About = (Option<u64>, &'static [u8], &'static [u8]);

/// A message that arrived an hour before its notice, without an envelope id.
const MESSAGE: About = (Some(1_699_996_400), b"", b"ann@example.com");

/// The machine-readable parts of a notice of failure.
const REFUSED_STATUS: &[u8] = b"\r\n\r\n\
Reporting-MTA: dns; mx.example.net\r\n\
Arrival-Date: Tue, 14 Nov 2023 21:13:20 +0000\r\n\
X-Postfix-Queue-ID: 090B8A85C9C\r\n\
X-Postfix-Sender: rfc822; ann@example.com\r\n\
\r\n\
Original-Recipient: rfc822; Bob@example.org\r\n\
Final-Recipient: rfc822; no.bob@example.org\r\n\
Action: failed\r\n\
Status: 5.1.1\r\n\
Remote-MTA: dns; 127.0.0.1\r\n\
Diagnostic-Code: smtp; 550 5.1.1 no such user here\r\n\
\r\n\
--B.090B8A85C9C.1700000000.0000\r\n\
Content-Description: Undelivered Message Headers\r\n\
Content-Type: text/rfc822-headers\r\n\
\r\n\
Return-Path: <ann@example.com>\r\n\
Subject: hello\r\n\
\r\n\
--B.090B8A85C9C.1700000000.0000--\r\n";

/// The group of a recipient that nobody rewrote.
const NOT_REWRITTEN_GROUP: &[u8] = b"\r\n\r\n\
Final-Recipient: rfc822; no.bob@example.org\r\n\
Action: failed\r\n\
Status: 5.1.1\r\n\
Remote-MTA: dns; 127.0.0.1\r\n\
Diagnostic-Code: smtp; 550 5.1.1 no such user here\r\n\
\r\n\
--B.090B8A85C9C.1700000000.0000\r\n\
Content-Description: Undelivered Message Headers\r\n\
Content-Type: text/rfc822-headers\r\n\
\r\n\
Return-Path: <ann@example.com>\r\n\
Subject: hello\r\n\
\r\n\
--B.090B8A85C9C.1700000000.0000--\r\n";

/// The message itself, returned whole.
const WHOLE_MESSAGE: &[u8] = b"Content-Type: message/rfc822\r\n\
\r\n\
Return-Path: <ann@example.com>\r\n\
Subject: hello\r\n\
\r\n\
Hello.\r\n\
\r\n\
--B.090B8A85C9C.1700000000.0000--\r\n";

/// The header of the message, returned in its place.
const HEADER_ALONE: &[u8] = b"Content-Type: text/rfc822-headers\r\n\
\r\n\
Return-Path: <ann@example.com>\r\n\
Subject: hello\r\n\
\r\n\
--B.090B8A85C9C.1700000000.0000--\r\n";

/// The returned part of the message, and the limit of a message that is returned whole, in bytes.
type Returned = (ReturnedPart, u32);

/// The header.
const HEADER: Returned = (ReturnedPart::Header, 50_000);

/// The group of a recipient whose delivery is tried again, with the mail system's own reason.
const UNREACHED_GROUP: &[u8] = b"\r\n\r\n\
Final-Recipient: rfc822; carol@example.org\r\n\
Action: delayed\r\n\
Status: 4.4.1\r\n\
Diagnostic-Code: X-Postfix; connect to 127.0.0.1:25: Connection refused\r\n\
Will-Retry-Until: Sun, 19 Nov 2023 21:13:20 +0000\r\n\
\r\n\
--D.090B8A85C9C.1700000000.0000\r\n\
Content-Description: Delayed Message Headers\r\n\
Content-Type: text/rfc822-headers\r\n\
\r\n\
Return-Path: <ann@example.com>\r\n\
Subject: hello\r\n\
\r\n\
--D.090B8A85C9C.1700000000.0000--\r\n";

/// The site that reports.
pub(crate) fn site(alloc: Global) -> Result<Site, Fail> {
    Ok(Site::new(alloc, b"mx.example.net")?)
}

/// The time of the notices.
pub(crate) fn moment() -> Result<Stamp, Fail> {
    Ok(Stamp::new(1_700_000_000).ok_or("the moment")?)
}

/// The letter of a planned notice. The fault is `NoMemory` also if a value can't be made: no test
/// expects it.
fn letter_of(
    alloc: Global,
    (arrival, envelope_id, to): About,
    service: Service,
    (returned, size_limit): Returned,
    records: &[LogRecord<'_>],
) -> Result<Letter, LetterFault> {
    let queue_id = QueueId::new(b"090B8A85C9C").ok_or(LetterFault::NoMemory)?;
    let moment = Stamp::new(1_700_000_000).ok_or(LetterFault::NoMemory)?;
    let message = ReportedMessage {
        queue_id,
        arrival,
        sender: b"ann@example.com",
        envelope_id,
        text: b"Subject: hello\n\nHello.\n",
        lifetime: 432_000,
        size_limit,
    };
    let notice = PlannedNotice {
        to,
        delimiters: None,
        service,
        returned,
        outcomes: records.to_vec(alloc)?,
    };
    letter_of_notice(alloc, &message, &notice, moment, 7)
}

/// The text of a letter.
fn text_of(alloc: Global, letter: &Letter) -> Result<Vec<u8>, Fail> {
    let site = site(alloc)?;
    Ok(notice(alloc, &site, letter)?)
}

/// A planned notice becomes a letter whose text ends like this, or is refused with this fault.
fn expect_planned(
    rt: &(impl AllocGlobal + Abort),
    about: About,
    service: Service,
    records: &[LogRecord<'_>],
    want: Result<&[u8], LetterFault>,
) -> Result<(), Fail> {
    match letter_of(rt.alloc(), about, service, HEADER, records) {
        Ok(letter) => {
            let text = text_of(rt.alloc(), &letter)?;
            let end = want.ok().ok_or("a letter")?;
            same(rt, text.ends_with(end), true);
        }
        Err(fault) => same(rt, Some(fault), want.err()),
    }
    Ok(())
}

/// Messages that no letter can be about, and why.
const UNSAID: [(About, LetterFault); 3] = [
    ((None, b"", b"ann@example.com"), LetterFault::Arrival),
    (
        (Some(1_699_996_400), b"a\tb", b"ann@example.com"),
        LetterFault::Draft(DraftFault::EnvelopeId),
    ),
    (
        (Some(1_699_996_400), b"", b"a..b@example.com"),
        LetterFault::Quotes,
    ),
];

#[test]
fn what_no_letter_says_of_a_message(rt: HostRuntime) -> Result<(), Fail> {
    for (about, fault) in &UNSAID {
        expect_planned(&rt, *about, Service::Bounce, OF_REFUSED, Err(*fault))?;
    }
    Ok(())
}

/// A notice of failure with these records is refused with this fault.
fn expect_fault(
    rt: &(impl AllocGlobal + Abort),
    records: &[LogRecord<'_>],
    fault: LetterFault,
) -> Result<(), Fail> {
    expect_planned(rt, MESSAGE, Service::Bounce, records, Err(fault))
}

#[test]
fn records_become_outcomes(rt: HostRuntime) -> Result<(), Fail> {
    let refused = Ok(REFUSED_STATUS);
    expect_planned(&rt, MESSAGE, Service::Bounce, OF_REFUSED, refused)?;
    // an original recipient that is the final one is left out
    let final_alone = Ok(NOT_REWRITTEN_GROUP);
    expect_planned(&rt, MESSAGE, Service::Bounce, OF_NOT_REWRITTEN, final_alone)?;
    // a reason takes the place of a diagnostic
    let unreached = Ok(UNREACHED_GROUP);
    expect_planned(&rt, MESSAGE, Service::Defer, OF_UNREACHED, unreached)
}

#[test]
fn whom_no_letter_tells(rt: HostRuntime) -> Result<(), Fail> {
    expect_fault(&rt, &[], LetterFault::Count)?;
    expect_fault(&rt, OF_SOCKET, LetterFault::RemoteType)?;
    let fault = LetterFault::Outcome(OutcomeFault::BadRecipient);
    expect_fault(&rt, OF_SPACED, fault)
}

/// A notice of failure ends with this part of the message, which has 23 bytes.
fn expect_returned(
    rt: &(impl AllocGlobal + Abort),
    returned: Returned,
    want: &[u8],
) -> Result<(), Fail> {
    let letter = letter_of(rt.alloc(), MESSAGE, Service::Bounce, returned, OF_REFUSED);
    let text = text_of(rt.alloc(), &letter.ok().ok_or("a letter")?)?;
    same(rt, (returned.1, text.ends_with(want)), (returned.1, true));
    Ok(())
}

#[test]
fn a_message_over_the_limit_returns_its_header(rt: HostRuntime) -> Result<(), Fail> {
    expect_returned(&rt, HEADER, HEADER_ALONE)?;
    expect_returned(&rt, (ReturnedPart::Whole, 50_000), WHOLE_MESSAGE)?;
    expect_returned(&rt, (ReturnedPart::Whole, 23), WHOLE_MESSAGE)?;
    expect_returned(&rt, (ReturnedPart::Whole, 22), HEADER_ALONE)?;
    // no limit cuts a header, as in bounce(8)
    expect_returned(&rt, (ReturnedPart::Whole, 1), HEADER_ALONE)
}
