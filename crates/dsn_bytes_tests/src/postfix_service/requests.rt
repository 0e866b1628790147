//! Requests over a mail system in memory: the operations of each in their order, and the answer,
//! with a failure at each operation.
use crate::assert_same::same;
use crate::postfix_letter::{moment, site};
use crate::postfix_request::decoded;
use crate::postfix_service::memory_system::{MemorySystem, UNHEARD};
use crate::postfix_service::server::refused_at;
use dsn_postfix_notices::{
    DeedFault, PostmasterCopies, RequestTerms, ServiceSettings, answer_request,
};
use dsn_smtp::{HandInFault, HandInStep};
use dsn_text::Service;
use std::alloc::{AllocGlobal, Global};
use std::process::Abort;
use std::test::Fail;

/// The status of a request that wasn't carried out.
const NOT_DONE: u32 = 4_294_967_295;

/// The postmaster gets no copies.
pub(crate) const NO_COPIES: PostmasterCopies = PostmasterCopies {
    bounce: false,
    double_bounce: false,
    delay: false,
};

/// A message from Ann to two recipients.
pub(crate) const FILE: &[u8] =
    b"T\x0c1699996400 0S\x0fann@example.comR\x0cno@a.exampleR\x0cno@b.exampleM\x00N\x05To: bN\x00N\x02HiX\x00E\x00";

/// A log of the two.
pub(crate) const LOG: &[u8] =
    b"\n<no@a.example>: no\nrecipient=no@a.example\noffset=31\nstatus=5.1.1\naction=failed\nreason=no\n\n\n<no@b.example>: no\nrecipient=no@b.example\noffset=45\nstatus=5.1.1\naction=failed\nreason=no\n\n";

/// A log of one recipient whose delivery is tried again.
pub(crate) const DELAYS: &[u8] =
    b"\n<no@a.example>: later\nrecipient=no@a.example\noffset=31\nstatus=4.2.1\naction=delayed\nreason=later\n\n";

/// The request of a program of Postfix.
#[derive(Clone, Copy)]
enum Asked {
    Append,
    CleanAppend,
    SpacedAppend,
    Flush,
    Clean,
    Marking,
    CleanMarking,
    FromQuoted,
    CleanMarkingFromQuoted,
    FromNobody,
    FromDoubleBounce,
    Verp,
    Warning,
    Trace,
}

/// An append of a recipient that a line can name.
pub(crate) const APPEND: &[u8] =
    b"nrequest\00\0flags\00\0queue_id\06BB87A7E6A1\0original_recipient\0\0recipient\0no@a.example\0offset\031\0dsn_orig_rcpt\0\0notify_flags\00\0status\05.1.1\0diag_type\0\0diag_text\0\0mta_type\0\0mta_mname\0\0action\0failed\0reason\0no\0\0";

/// The same append with CLEAN.
const CLEAN_APPEND: &[u8] =
    b"nrequest\00\0flags\01\0queue_id\06BB87A7E6A1\0original_recipient\0\0recipient\0no@a.example\0offset\031\0dsn_orig_rcpt\0\0notify_flags\00\0status\05.1.1\0diag_type\0\0diag_text\0\0mta_type\0\0mta_mname\0\0action\0failed\0reason\0no\0\0";

/// An append of a recipient with a space, whom no line can name.
const SPACED_APPEND: &[u8] =
    b"nrequest\00\0flags\00\0queue_id\06BB87A7E6A1\0original_recipient\0\0recipient\0no a@a.example\0offset\031\0dsn_orig_rcpt\0\0notify_flags\00\0status\05.1.1\0diag_type\0\0diag_text\0\0mta_type\0\0mta_mname\0\0action\0failed\0reason\0no\0\0";

/// Notices of a log, and its removal.
pub(crate) const FLUSH: &[u8] =
    b"nrequest\01\0flags\00\0queue_name\0active\0queue_id\06BB87A7E6A1\0encoding\0\0smtputf8\00\0sender\0ann@example.com\0envelope_id\0\0ret_flags\00\0\0";

/// The same flush with CLEAN.
const CLEAN: &[u8] =
    b"nrequest\01\0flags\01\0queue_name\0active\0queue_id\06BB87A7E6A1\0encoding\0\0smtputf8\00\0sender\0ann@example.com\0envelope_id\0\0ret_flags\00\0\0";

/// The same flush with DELRCPT: the recipients are to be marked as done.
const MARKING: &[u8] =
    b"nrequest\01\0flags\02\0queue_name\0active\0queue_id\06BB87A7E6A1\0encoding\0\0smtputf8\00\0sender\0ann@example.com\0envelope_id\0\0ret_flags\00\0\0";

/// The same flush with CLEAN and DELRCPT.
const CLEAN_MARKING: &[u8] =
    b"nrequest\01\0flags\03\0queue_name\0active\0queue_id\06BB87A7E6A1\0encoding\0\0smtputf8\00\0sender\0ann@example.com\0envelope_id\0\0ret_flags\00\0\0";

/// Notices to a sender whose address has to be quoted.
const FROM_QUOTED: &[u8] =
    b"nrequest\01\0flags\00\0queue_name\0active\0queue_id\06BB87A7E6A1\0encoding\0\0smtputf8\00\0sender\0a b@example.com\0envelope_id\0\0ret_flags\00\0\0";

/// The same flush with CLEAN and DELRCPT: the recipients are to be marked as done.
const CLEAN_MARKING_FROM_QUOTED: &[u8] =
    b"nrequest\01\0flags\03\0queue_name\0active\0queue_id\06BB87A7E6A1\0encoding\0\0smtputf8\00\0sender\0a b@example.com\0envelope_id\0\0ret_flags\00\0\0";

/// Notices of a message that has no sender.
const FROM_NOBODY: &[u8] =
    b"nrequest\01\0flags\00\0queue_name\0active\0queue_id\06BB87A7E6A1\0encoding\0\0smtputf8\00\0sender\0\0envelope_id\0\0ret_flags\00\0\0";

/// Notices of a message whose sender is the one of double bounces.
const FROM_DOUBLE_BOUNCE: &[u8] =
    b"nrequest\01\0flags\00\0queue_name\0active\0queue_id\06BB87A7E6A1\0encoding\0\0smtputf8\00\0sender\0Double-Bounce@mx.example.net\0envelope_id\0\0ret_flags\00\0\0";

/// Notices that have a return path for each recipient.
const VERP: &[u8] =
    b"nrequest\03\0flags\00\0queue_name\0active\0queue_id\06BB87A7E6A1\0encoding\0\0smtputf8\00\0sender\0ann@example.com\0envelope_id\0\0ret_flags\00\0verp_delimiters\0+=\0\0";

/// A warning.
const WARNING: &[u8] =
    b"nrequest\02\0flags\00\0queue_name\0active\0queue_id\06BB87A7E6A1\0encoding\0\0smtputf8\00\0sender\0ann@example.com\0envelope_id\0\0ret_flags\00\0\0";

/// A report of deliveries.
const TRACE: &[u8] =
    b"nrequest\05\0flags\00\0queue_name\0active\0queue_id\06BB87A7E6A1\0encoding\0\0smtputf8\00\0sender\0ann@example.com\0envelope_id\0\0ret_flags\00\0\0";

/// The bytes of a request.
fn bytes_of(asked: Asked) -> &'static [u8] {
    match asked {
        Asked::Append => APPEND,
        Asked::CleanAppend => CLEAN_APPEND,
        Asked::SpacedAppend => SPACED_APPEND,
        Asked::Flush => FLUSH,
        Asked::Clean => CLEAN,
        Asked::Marking => MARKING,
        Asked::CleanMarking => CLEAN_MARKING,
        Asked::FromQuoted => FROM_QUOTED,
        Asked::CleanMarkingFromQuoted => CLEAN_MARKING_FROM_QUOTED,
        Asked::FromNobody => FROM_NOBODY,
        Asked::FromDoubleBounce => FROM_DOUBLE_BOUNCE,
        Asked::Verp => VERP,
        Asked::Warning => WARNING,
        Asked::Trace => TRACE,
    }
}

/// The logs that a message has.
#[derive(Clone, Copy)]
enum Logs {
    Nothing,
    /// A bounce log of two recipients.
    Bounce,
    /// A log of another service, of one recipient.
    Other,
    /// A log of another service, of two recipients.
    OtherOfTwo,
    /// A bounce log of two recipients, and another log of one.
    Both,
    /// An empty bounce log, and another log of one recipient.
    EmptyAndOther,
}

/// The bounce log, and the log of each other service, if they exist.
fn texts_of(logs: Logs) -> (Option<&'static [u8]>, Option<&'static [u8]>) {
    match logs {
        Logs::Nothing => (None, None),
        Logs::Bounce => (Some(LOG), None),
        Logs::Other => (None, Some(DELAYS)),
        Logs::OtherOfTwo => (None, Some(LOG)),
        Logs::Both => (Some(LOG), Some(DELAYS)),
        Logs::EmptyAndOther => (Some(b""), Some(DELAYS)),
    }
}

/// A request, the logs it is answered over, the operation that fails, and the expected result.
struct Case {
    asked: Asked,
    service: Service,
    logs: Logs,
    /// The number of operations that succeed before one fails.
    well: usize,
    /// The fault of the operation that fails, unless it submits a notice.
    fault: DeedFault,
    /// The code that refuses a notice, if submitting it is the operation that fails. Without a
    /// code, no reply is read.
    refusal: Option<[u8; 3]>,
    /// The answer of Postfix's own service.
    postfix: u32,
    status: u32,
    /// The lines of the operations.
    lines: &'static [u8],
}

/// A flush to the service of bounce logs, of a message with a bounce log. All operations succeed.
const BOUNCES: Case = Case {
    asked: Asked::Flush,
    service: Service::Bounce,
    logs: Logs::Bounce,
    well: 1_000,
    fault: DeedFault::Failed,
    refusal: None,
    postfix: 7,
    status: 0,
    lines: TOLD,
};

/// The same flush if an operation fails.
const BOUNCES_FAIL: Case = Case {
    status: NOT_DONE,
    ..BOUNCES
};

/// The same flush if the request is passed on.
const BOUNCES_PASSED_ON: Case = Case {
    status: 7,
    lines: PASSED_ON,
    ..BOUNCES
};

/// A flush to the service of defer logs, of a message with both logs. All operations succeed.
const BOTH: Case = Case {
    service: Service::Defer,
    logs: Logs::Both,
    lines: BOUNCE_AND_DEFER,
    ..BOUNCES
};

/// The same flush if an operation fails.
const BOTH_FAIL: Case = Case {
    status: NOT_DONE,
    ..BOTH
};

/// The line of an appended record.
pub(crate) const RECORD: &[u8] =
    b"append \n<no@a.example>: no\nrecipient=no@a.example\noffset=31\nstatus=5.1.1\naction=failed\nreason=no\n\n\n";

/// The same line, and the removal of the log.
const RECORD_REMOVED: &[u8] =
    b"append \n<no@a.example>: no\nrecipient=no@a.example\noffset=31\nstatus=5.1.1\naction=failed\nreason=no\n\n\nremove B\n";

/// The lines of a flush of the bounce log alone.
const TOLD: &[u8] = b"log B\nmessage active\nhand-in ann@example.com\nremove B\nrelease \n";

/// The same lines up to a notice that isn't taken.
const UNTOLD: &[u8] = b"log B\nmessage active\nhand-in ann@example.com\nrelease \n";

/// The lines of a flush of the bounce log that is passed on.
const PASSED_ON: &[u8] = b"log B\nmessage active\nrelease \npass-on B0\n";

/// The lines of a flush of the bounce log whose second notice isn't taken.
const SECOND_UNTOLD: &[u8] =
    b"log B\nmessage active\nhand-in ann+no=a.example@example.com\nhand-in ann+no=b.example@example.com\nrelease \n";

/// The lines of a flush of the bounce log before the one of the defer log.
const BOUNCE: &[u8] =
    b"seek B\nlog B\nmessage active\nhand-in ann@example.com\nremove B\nrelease \n";

/// The lines of a flush of the defer log if there is no bounce log.
const DEFER: &[u8] =
    b"seek B\nlog D\nmessage active\nhand-in ann@example.com\nremove D\nrelease \n";

/// The lines of a flush of both logs.
const BOUNCE_AND_DEFER: &[u8] =
    b"seek B\nlog B\nmessage active\nhand-in ann@example.com\nremove B\nrelease \nlog D\nmessage active\nhand-in ann@example.com\nremove D\nrelease \n";

/// Appends: the answer is 0 once the record is in the log.
const APPENDS: [Case; 7] = [
    Case {
        asked: Asked::Append,
        logs: Logs::Nothing,
        lines: RECORD,
        ..BOUNCES
    },
    Case {
        asked: Asked::Append,
        well: 0,
        lines: RECORD,
        ..BOUNCES_FAIL
    },
    // with CLEAN, an append that fails leaves no log
    Case {
        asked: Asked::CleanAppend,
        logs: Logs::Nothing,
        lines: RECORD,
        ..BOUNCES
    },
    Case {
        asked: Asked::CleanAppend,
        well: 0,
        lines: RECORD_REMOVED,
        ..BOUNCES_FAIL
    },
    // an operation that lacks memory is answered with a status
    Case {
        asked: Asked::Append,
        well: 0,
        fault: DeedFault::NoMemory,
        lines: RECORD,
        ..BOUNCES_FAIL
    },
    // an append whose recipient no line can name is passed on
    Case {
        asked: Asked::SpacedAppend,
        logs: Logs::Nothing,
        lines: b"pass-on B0\n",
        ..BOUNCES_PASSED_ON
    },
    Case {
        asked: Asked::SpacedAppend,
        well: 0,
        lines: b"pass-on B0\n",
        ..BOUNCES_FAIL
    },
];

/// Requests about one log.
const OF_ONE_LOG: [Case; 18] = [
    // a flush submits a notice of both recipients, and removes the log
    BOUNCES,
    Case {
        well: 0,
        lines: b"log B\nrelease \n",
        ..BOUNCES_FAIL
    },
    Case {
        well: 1,
        lines: b"log B\nmessage active\nrelease \n",
        ..BOUNCES_FAIL
    },
    Case {
        well: 2,
        lines: UNTOLD,
        ..BOUNCES_FAIL
    },
    Case {
        well: 3,
        ..BOUNCES_FAIL
    },
    // a message without a sender, and a double bounce, have no notice
    Case {
        asked: Asked::FromNobody,
        lines: b"log B\nmessage active\nremove B\nrelease \n",
        ..BOUNCES
    },
    Case {
        asked: Asked::FromDoubleBounce,
        lines: b"log B\nmessage active\nremove B\nrelease \n",
        ..BOUNCES
    },
    // a request whose letter can't be made is passed on, and nothing is submitted
    Case {
        asked: Asked::FromQuoted,
        ..BOUNCES_PASSED_ON
    },
    Case {
        logs: Logs::Nothing,
        ..BOUNCES_PASSED_ON
    },
    // each recipient has its own return path
    Case {
        asked: Asked::Verp,
        lines: b"log B\nmessage active\nhand-in ann+no=a.example@example.com\nhand-in ann+no=b.example@example.com\nremove B\nrelease \n",
        ..BOUNCES
    },
    Case {
        asked: Asked::Verp,
        well: 3,
        lines: SECOND_UNTOLD,
        ..BOUNCES_FAIL
    },
    // a request whose notice is refused for good is passed on
    Case {
        well: 2,
        refusal: Some(*b"550"),
        lines: b"log B\nmessage active\nhand-in ann@example.com\nrelease \npass-on B0\n",
        ..BOUNCES_PASSED_ON
    },
    Case {
        well: 2,
        refusal: Some(*b"450"),
        lines: UNTOLD,
        ..BOUNCES_FAIL
    },
    // a request whose later notice is refused isn't passed on: that would repeat the first notice
    Case {
        asked: Asked::Verp,
        well: 3,
        refusal: Some(*b"550"),
        lines: SECOND_UNTOLD,
        ..BOUNCES_FAIL
    },
    // recipients are marked before the log is removed, but not those of a bounce log
    Case {
        asked: Asked::Marking,
        ..BOUNCES
    },
    Case {
        asked: Asked::CleanMarking,
        logs: Logs::OtherOfTwo,
        lines: b"seek B\nlog D\nmessage active\nhand-in ann@example.com\nmark 031\nmark 045\nremove D\nrelease \n",
        ..BOTH
    },
    Case {
        asked: Asked::CleanMarking,
        logs: Logs::OtherOfTwo,
        well: 5,
        lines: b"seek B\nlog D\nmessage active\nhand-in ann@example.com\nmark 031\nmark 045\nrelease \nremove D\n",
        ..BOTH_FAIL
    },
    // a trace without a log has no notice
    Case {
        asked: Asked::Trace,
        service: Service::Trace,
        logs: Logs::Nothing,
        lines: b"log T\nmessage active\nrelease \n",
        ..BOUNCES
    },
];

/// Requests about the defer log of a message that may have both logs: the bounce log is flushed
/// first.
const OF_BOTH_LOGS: [Case; 23] = [
    BOTH,
    Case {
        logs: Logs::Other,
        lines: DEFER,
        ..BOTH
    },
    Case {
        logs: Logs::EmptyAndOther,
        lines: DEFER,
        ..BOTH
    },
    // a bounce log that is passed on to Postfix comes first
    Case {
        asked: Asked::FromQuoted,
        status: 7,
        lines: b"seek B\nlog B\nmessage active\nrelease \npass-on B0\n",
        ..BOTH
    },
    Case {
        asked: Asked::FromQuoted,
        postfix: 0,
        lines: b"seek B\nlog B\nmessage active\nrelease \npass-on B0\nlog D\nmessage active\nrelease \npass-on D0\n",
        ..BOTH
    },
    // the flush of the bounce log is passed on without CLEAN and DELRCPT, which are about the defer
    // log. The flush of the defer log is passed on with both: its line ends with the letter D and
    // the flags 3.
    Case {
        asked: Asked::CleanMarkingFromQuoted,
        status: 7,
        lines: b"seek B\nlog B\nmessage active\nrelease \npass-on B0\n",
        ..BOTH
    },
    Case {
        asked: Asked::CleanMarkingFromQuoted,
        postfix: 0,
        lines: b"seek B\nlog B\nmessage active\nrelease \npass-on B0\nlog D\nmessage active\nrelease \npass-on D3\n",
        ..BOTH
    },
    // a bounce log whose notice is refused is passed on, and the defer log is flushed if that
    // succeeds
    Case {
        well: 3,
        refusal: Some(*b"554"),
        postfix: 0,
        lines: b"seek B\nlog B\nmessage active\nhand-in ann@example.com\nrelease \npass-on B0\nlog D\nmessage active\nhand-in ann@example.com\nremove D\nrelease \n",
        ..BOTH
    },
    Case {
        well: 3,
        refusal: Some(*b"554"),
        status: 7,
        lines: b"seek B\nlog B\nmessage active\nhand-in ann@example.com\nrelease \npass-on B0\n",
        ..BOTH
    },
    // a recipient of the defer log may have the record of one that bounced
    Case {
        asked: Asked::Marking,
        lines: b"seek B\nlog B\nmessage active\nhand-in ann@example.com\nremove B\nrelease \nlog D\nmessage active\nhand-in ann@example.com\nmark 031\nremove D\nrelease \n",
        ..BOTH
    },
    // each recipient may have its own return path, too
    Case {
        asked: Asked::Verp,
        lines: b"seek B\nlog B\nmessage active\nhand-in ann+no=a.example@example.com\nhand-in ann+no=b.example@example.com\nremove B\nrelease \nlog D\nmessage active\nhand-in ann+no=a.example@example.com\nremove D\nrelease \n",
        ..BOTH
    },
    // a warning keeps the log
    Case {
        asked: Asked::Warning,
        lines: b"log D\nmessage active\nhand-in ann@example.com\nrelease \n",
        ..BOTH
    },
    // the defer log stays if the bounce log fails
    Case {
        well: 0,
        lines: b"seek B\n",
        ..BOTH_FAIL
    },
    Case {
        well: 1,
        lines: b"seek B\nlog B\nrelease \n",
        ..BOTH_FAIL
    },
    Case {
        well: 2,
        lines: b"seek B\nlog B\nmessage active\nrelease \n",
        ..BOTH_FAIL
    },
    Case {
        well: 3,
        lines: b"seek B\nlog B\nmessage active\nhand-in ann@example.com\nrelease \n",
        ..BOTH_FAIL
    },
    Case {
        well: 4,
        lines: BOUNCE,
        ..BOTH_FAIL
    },
    // the bounce log is flushed even if the defer log fails
    Case {
        well: 6,
        lines: b"seek B\nlog B\nmessage active\nhand-in ann@example.com\nremove B\nrelease \nlog D\nrelease \n",
        ..BOTH_FAIL
    },
    Case {
        well: 7,
        lines: b"seek B\nlog B\nmessage active\nhand-in ann@example.com\nremove B\nrelease \nlog D\nmessage active\nrelease \n",
        ..BOTH_FAIL
    },
    Case {
        well: 8,
        lines: b"seek B\nlog B\nmessage active\nhand-in ann@example.com\nremove B\nrelease \nlog D\nmessage active\nhand-in ann@example.com\nrelease \n",
        ..BOTH_FAIL
    },
    Case {
        well: 9,
        ..BOTH_FAIL
    },
    // with CLEAN, the defer log isn't removed before its turn, and the bounce log not at all
    Case {
        asked: Asked::Clean,
        well: 0,
        lines: b"seek B\n",
        ..BOTH_FAIL
    },
    Case {
        asked: Asked::Clean,
        well: 1,
        lines: b"seek B\nlog B\nrelease \n",
        ..BOTH_FAIL
    },
];

/// The fault of a notice that is refused with this code, or has no reply.
fn refusal_of(digits: Option<[u8; 3]>) -> HandInFault {
    match digits {
        Some(digits) => refused_at(HandInStep::Recipient, digits).unwrap_or(UNHEARD),
        None => UNHEARD,
    }
}

/// The status that answers a request to a service. These tests have memory for it.
fn answered(
    alloc: Global,
    service: Service,
    bytes: &[u8],
    system: &mut MemorySystem<'_>,
) -> Result<u32, Fail> {
    let request = decoded(bytes)?;
    let moment = moment()?;
    let site = site(alloc)?;
    let settings = ServiceSettings {
        site: &site,
        double_bounce: b"double-bounce@mx.example.net",
        lifetime: 432_000,
        size_limit: 50_000,
        copies: NO_COPIES,
        threaded: false,
    };
    let terms = RequestTerms {
        settings: &settings,
        service,
        moment,
        first_serial: 0,
    };
    Ok(answer_request(alloc, &terms, &request, bytes, system)?)
}

/// A request is answered with its status, and its operations have these lines.
fn expect_answer(rt: &(impl AllocGlobal + Abort), case: &Case) -> Result<(), Fail> {
    let (bounce_log, log) = texts_of(case.logs);
    let mut system = MemorySystem {
        bounce_log,
        log,
        changed: None,
        file: FILE,
        well: case.well,
        fault: case.fault,
        refusal: refusal_of(case.refusal),
        status: case.postfix,
        asked: Vec::new(rt.alloc()),
        notices: Vec::new(rt.alloc()),
    };
    let found = answered(rt.alloc(), case.service, bytes_of(case.asked), &mut system)?;
    same(rt, system.asked.as_slice(), case.lines);
    same(rt, (case.well, found), (case.well, case.status));
    Ok(())
}

#[test]
fn appends_are_answered(rt: HostRuntime) -> Result<(), Fail> {
    for case in &APPENDS {
        expect_answer(&rt, case)?;
    }
    Ok(())
}

#[test]
fn requests_about_one_log_are_answered(rt: HostRuntime) -> Result<(), Fail> {
    for case in &OF_ONE_LOG {
        expect_answer(&rt, case)?;
    }
    Ok(())
}

#[test]
fn a_bounce_log_is_told_before_the_defer_log(rt: HostRuntime) -> Result<(), Fail> {
    for case in &OF_BOTH_LOGS {
        expect_answer(&rt, case)?;
    }
    Ok(())
}
