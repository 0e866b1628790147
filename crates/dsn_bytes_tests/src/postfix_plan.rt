//! The notices that requests of Postfix call for, given logs that Postfix wrote.
use crate::assert_same::same;
use crate::postfix_request::{
    FLUSH_BOUNCE, FLUSH_DEFER, FLUSH_NULL, FLUSH_UTF8, NEWER_TLS, TRACE, VERP, WARN, decoded,
};
use crate::texts::{append_all, joined};
use dsn_postfix::{CantSay, PlanFault, PlannedNotice, ReturnedPart, plan_notices};
use dsn_postfix_files::{LogRecord, QueuedRecipient, RecipientState};
use dsn_text::Service;
use std::alloc::{AllocError, AllocGlobal, Global};
use std::process::Abort;
use std::test::Fail;

/// `bounce-mixed` of tests/postfix/.
const BOUNCED: &[u8] =
    b"\n<no-two@example.com>: host 127.0.0.1[127.0.0.1] said: 550 5.1.1 <no-two>: no such user here (in reply to RCPT TO command)\nrecipient=no-two@example.com\noffset=974\ndsn_orig_rcpt=rfc822;two+no@example.com\nnotify_flags=4\nstatus=5.1.1\naction=failed\ndiag_type=smtp\ndiag_text=550 5.1.1 <no-two>: no such user here\nmta_type=dns\nmta_mname=127.0.0.1\nreason=host 127.0.0.1[127.0.0.1] said: 550 5.1.1 <no-two>: no such user here (in reply to RCPT TO command)\n\n\n<no-one@example.org>: host 127.0.0.1[127.0.0.1] said: 550 5.1.1 <no-one>: no such user here (in reply to RCPT TO command)\nrecipient=no-one@example.org\noffset=714\ndsn_orig_rcpt=rfc822;Hans.No@example.org\nnotify_flags=12\nstatus=5.1.1\naction=failed\ndiag_type=smtp\ndiag_text=550 5.1.1 <no-one>: no such user here\nmta_type=dns\nmta_mname=127.0.0.1\nreason=host 127.0.0.1[127.0.0.1] said: 550 5.1.1 <no-one>: no such user here (in reply to RCPT TO command)\n\n";

/// `defer-milter`.
const DEFERRED: &[u8] =
    b"\n<later-added@example.org>: host 127.0.0.1[127.0.0.1] said: 450 4.2.1 mailbox busy, try later (in reply to RCPT TO command)\nrecipient=later-added@example.org\noffset=1625\ndsn_orig_rcpt=rfc822;x@example.org\nnotify_flags=8\nstatus=4.2.1\naction=delayed\ndiag_type=smtp\ndiag_text=450 4.2.1 mailbox busy, try later\nmta_type=dns\nmta_mname=127.0.0.1\nreason=host 127.0.0.1[127.0.0.1] said: 450 4.2.1 mailbox busy, try later (in reply to RCPT TO command)\n\n\n<later@example.org>: host 127.0.0.1[127.0.0.1] said: 450 4.2.1 mailbox busy, try later (in reply to RCPT TO command)\nrecipient=later@example.org\noffset=889\ndsn_orig_rcpt=rfc822;later@example.org\nstatus=4.2.1\naction=delayed\ndiag_type=smtp\ndiag_text=450 4.2.1 mailbox busy, try later\nmta_type=dns\nmta_mname=127.0.0.1\nreason=host 127.0.0.1[127.0.0.1] said: 450 4.2.1 mailbox busy, try later (in reply to RCPT TO command)\n\n";

/// `trace-success`.
const RELAYED: &[u8] =
    b"\n<ok@trace.example.org>: delivery via 127.0.0.1[127.0.0.1]:2529: 250 2.0.0 queued as X1\nrecipient=ok@trace.example.org\noffset=717\ndsn_orig_rcpt=rfc822;orig@trace.example.org\nnotify_flags=10\nstatus=2.0.0\naction=relayed\ndiag_type=smtp\ndiag_text=250 2.0.0 queued as X1\nmta_type=dns\nmta_mname=127.0.0.1\nreason=delivery via 127.0.0.1[127.0.0.1]:2529: 250 2.0.0 queued as X1\n\n\n<second@trace.example.org>: delivery via 127.0.0.1[127.0.0.1]:2529: 250 2.0.0 queued as X1\nrecipient=second@trace.example.org\noffset=827\ndsn_orig_rcpt=rfc822;orig@trace.example.org\nnotify_flags=10\nstatus=2.0.0\naction=relayed\ndiag_type=smtp\ndiag_text=250 2.0.0 queued as X1\nmta_type=dns\nmta_mname=127.0.0.1\nreason=delivery via 127.0.0.1[127.0.0.1]:2529: 250 2.0.0 queued as X1\n\n";

/// A log of a recipient whose sender wants notices of success alone.
const OF_SUCCESS: &[u8] =
    b"\n<c@example.org>: no\nrecipient=c@example.org\noffset=980\nnotify_flags=2\nstatus=5.1.1\naction=failed\nreason=no\n\n";

/// Two later records of the first recipient of `DEFERRED`, both of one outcome.
const LATER: &[u8] =
    b"\n<later-added@example.org>: full\nrecipient=later-added@example.org\noffset=1625\nnotify_flags=8\nstatus=4.2.2\naction=delayed\nreason=full\n\n\n<later-added@example.org>: full\nrecipient=later-added@example.org\noffset=1625\nnotify_flags=8\nstatus=4.2.2\naction=delayed\nreason=full\n\n";

/// The log that local(8) writes of two commands of an alias, of which the second worked.
const COMMANDS: &[u8] =
    b"\n<staff@example.org>: Command died with status 69: one\nrecipient=staff@example.org\noffset=717\nstatus=5.3.0\naction=failed\nreason=Command died with status 69: one\n\n\n<staff@example.org>: delivered to command: two\nrecipient=staff@example.org\noffset=717\nstatus=2.0.0\naction=delivered\nreason=delivered to command: two\n\n";

/// What the queue file says of the recipient of `DEFERRED` who wants notices of failure, in this
/// state.
fn queued_in(state: RecipientState) -> QueuedRecipient<'static> {
    QueuedRecipient {
        place: 889,
        address: b"later@example.org",
        original: b"later@example.org",
        dsn_original: b"rfc822;later@example.org",
        notify_flags: 0,
        state,
    }
}

/// A service, a request, the log, if there is one, and what follows in the log. Then the text of
/// the notices, or why they can't be made.
type Plan = (
    Service,
    &'static [u8],
    Option<&'static [u8]>,
    &'static [u8],
    Result<&'static [u8], PlanFault>,
);

const PLANS: [Plan; 11] = [
    // a notice reports to those who want failures
    (
        Service::Bounce,
        FLUSH_BOUNCE,
        Some(BOUNCED),
        OF_SUCCESS,
        Ok(
            b"ann@example.com at ann@example.com B header\n- no-two@example.com 5.1.1 failed\n- no-one@example.org 5.1.1 failed\n",
        ),
    ),
    // an outcome that is logged twice is reported once, and another outcome of its recipient is
    // reported too
    (
        Service::Defer,
        WARN,
        Some(DEFERRED),
        LATER,
        Ok(
            b"ann@example.com at ann@example.com D header\n- later-added@example.org 4.2.1 delayed\n- later@example.org 4.2.1 delayed\n- later-added@example.org 4.2.2 delayed\n",
        ),
    ),
    // deliveries are reported
    (
        Service::Trace,
        TRACE,
        Some(RELAYED),
        b"",
        Ok(
            b"ann@example.com at ann@example.com T header\n- ok@trace.example.org 2.0.0 relayed\n- second@trace.example.org 2.0.0 relayed\n",
        ),
    ),
    // the commands of an alias are reported
    (
        Service::Trace,
        TRACE,
        Some(COMMANDS),
        b"",
        Ok(
            b"ann@example.com at ann@example.com T header\n- staff@example.org 5.3.0 failed\n- staff@example.org 2.0.0 delivered\n",
        ),
    ),
    // each recipient has its own return path
    (
        Service::Bounce,
        VERP,
        Some(BOUNCED),
        b"",
        Ok(
            b"list@example.com at list+no-two=example.com@example.com B whole\n- no-two@example.com 5.1.1 failed\nlist@example.com at list+no-one=example.org@example.com B whole\n- no-one@example.org 5.1.1 failed\n",
        ),
    ),
    // there is no notice, or a reason why it can't be made
    (
        Service::Bounce,
        FLUSH_BOUNCE,
        None,
        b"",
        Err(PlanFault::Unsaid(CantSay::NoLog)),
    ),
    (Service::Defer, WARN, None, b"", Ok(b"")),
    (Service::Bounce, FLUSH_NULL, None, b"", Ok(b"")),
    (
        Service::Bounce,
        FLUSH_UTF8,
        Some(BOUNCED),
        b"",
        Err(PlanFault::Unsaid(CantSay::NeedsSmtputf8)),
    ),
    // a notice keeps `TLS-Required: no`
    (
        Service::Bounce,
        NEWER_TLS,
        Some(BOUNCED),
        b"",
        Ok(
            b"ann@example.com at ann@example.com B whole\n- no-two@example.com 5.1.1 failed\n- no-one@example.org 5.1.1 failed\n",
        ),
    ),
    // an expired message has failed
    (
        Service::Defer,
        FLUSH_DEFER,
        Some(DEFERRED),
        b"",
        Ok(EXPIRED),
    ),
];

/// The text of the notice of an expired message.
const EXPIRED: &[u8] =
    b"ann@example.com at ann@example.com B whole\n- later@example.org 4.2.1 failed\n";

/// The part of the message that a notice returns, as a word.
fn word_of(returned: ReturnedPart) -> &'static [u8] {
    match returned {
        ReturnedPart::Header => b" header\n",
        ReturnedPart::Whole => b" whole\n",
    }
}

/// The letter of a service, as a word.
fn letter_of(service: Service) -> &'static [u8] {
    match service {
        Service::Bounce => b" B",
        Service::Defer => b" D",
        Service::Trace => b" T",
    }
}

/// Writes the recipient of a notice, its address, its kind, and the part of the message that it
/// returns.
fn write_head(
    told: &mut Vec<u8>,
    (to, address): (&[u8], &[u8]),
    kind: &[u8],
    returned: &[u8],
) -> Result<(), AllocError> {
    append_all(told, &[to, b" at ", address, kind, returned])
}

/// Writes the recipient, the status and the action of an outcome.
fn write_outcome(told: &mut Vec<u8>, outcome: &LogRecord<'_>) -> Result<(), AllocError> {
    let (recipient, status, action) = (outcome.recipient, outcome.status, outcome.action);
    append_all(told, &[b"- ", recipient, b" ", status, b" ", action, b"\n"])
}

/// Writes a line for a notice, and after it one for each outcome.
fn write_notice(
    alloc: Global,
    told: &mut Vec<u8>,
    notice: &PlannedNotice<'_>,
) -> Result<(), AllocError> {
    let address = notice.address(alloc)?;
    let (kind, returned) = (letter_of(notice.service), word_of(notice.returned));
    write_head(told, (notice.to, &address), kind, returned)?;
    for outcome in notice.outcomes.iter() {
        write_outcome(told, outcome)?;
    }
    Ok(())
}

/// Writes planned notices as a text.
fn write_notices(
    alloc: Global,
    told: &mut Vec<u8>,
    notices: &[PlannedNotice<'_>],
) -> Result<(), AllocError> {
    for notice in notices {
        write_notice(alloc, told, notice)?;
    }
    Ok(())
}

/// Writes the notices of a request's bytes, or says why they can't be made. The fault is `NoMemory`
/// also for bytes that aren't a request: no plan expects it.
fn write_plan(
    alloc: Global,
    told: &mut Vec<u8>,
    (service, request): (Service, &[u8]),
    log: Option<&[u8]>,
    queued: &[QueuedRecipient<'_>],
) -> Result<(), PlanFault> {
    let Ok(request) = decoded(request) else {
        return Err(PlanFault::NoMemory);
    };
    let double_bounce = b"double-bounce@mx.example.net".as_slice();
    let notices = plan_notices(alloc, double_bounce, service, &request, queued, log)?;
    match write_notices(alloc, told, &notices) {
        Ok(()) => Ok(()),
        Err(_) => Err(PlanFault::NoMemory),
    }
}

/// The notices of a request have this text, or can't be made for this reason. They are planned with
/// this log, if there is one, and with these recipients of the queue file.
fn expect_told(
    rt: &(impl AllocGlobal + Abort),
    request: (Service, &[u8]),
    log: Option<&[u8]>,
    queued: &[QueuedRecipient<'_>],
    want: Result<&[u8], PlanFault>,
) {
    let mut told = Vec::new(rt.alloc());
    match write_plan(rt.alloc(), &mut told, request, log, queued) {
        Ok(()) => same(rt, Ok(told.as_slice()), want),
        Err(fault) => same(rt, Err(fault), want),
    }
}

/// The notices of a plan's request have the plan's text, or can't be made for its reason.
fn expect_plan(rt: &(impl AllocGlobal + Abort), plan: &Plan) -> Result<(), Fail> {
    let (service, request, log, more, want) = *plan;
    match log {
        Some(log) => {
            let log = joined(rt.alloc(), &[log, more])?;
            expect_told(rt, (service, request), Some(&log), &[], want);
        }
        None => expect_told(rt, (service, request), None, &[], want),
    }
    Ok(())
}

#[test]
fn notices_are_planned(rt: HostRuntime) -> Result<(), Fail> {
    for plan in &PLANS {
        expect_plan(&rt, plan)?;
    }
    Ok(())
}

#[test]
fn damaged_log_is_not_told(rt: HostRuntime) {
    let cut = &BOUNCED[..BOUNCED.len() - 1];
    let want = Err(PlanFault::Unsaid(CantSay::DamagedPart(450)));
    expect_told(&rt, (Service::Bounce, FLUSH_BOUNCE), Some(cut), &[], want);
}

/// An expired message has failed, unless the recipient is done or was removed.
#[test]
fn expired_message_has_failed_unless_it_is_done(rt: HostRuntime) {
    for (state, want) in [
        (RecipientState::Waiting, EXPIRED),
        (RecipientState::Done, b""),
        (RecipientState::Removed, b""),
    ] {
        let queued = [queued_in(state)];
        let request = (Service::Defer, FLUSH_DEFER);
        expect_told(&rt, request, Some(DEFERRED), &queued, Ok(want));
    }
}
