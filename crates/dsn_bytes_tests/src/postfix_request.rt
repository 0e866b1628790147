//! Requests that programs of Postfix 3.7.11 and 3.10.13 sent (tests/postfix/) are decoded, and
//! encoded again as they were.
use crate::assert_same::same;
use dsn_postfix::{PostfixRequest, RequestFault, decode_postfix_request, encode_postfix_request};
use std::alloc::{AllocGlobal, Global};
use std::process::Abort;
use std::test::Fail;

/// `append-bounce.bin`.
const APPEND_BOUNCE: &[u8] =
    b"nrequest\00\0flags\00\0queue_id\06BB87A7E6A1\0original_recipient\0no.bob@example.org\0recipient\0no.bob@example.org\0offset\0727\0dsn_orig_rcpt\0rfc822;bob@example.org\0notify_flags\012\0status\05.1.1\0diag_type\0smtp\0diag_text\0550 5.1.1 <no.bob>: no such user here\0mta_type\0dns\0mta_mname\0127.0.0.1\0action\0failed\0reason\0host 127.0.0.1[127.0.0.1] said: 550 5.1.1 <no.bob>: no such user here (in reply to RCPT TO command)\0\0";

/// `append-defer.bin`.
const APPEND_DEFER: &[u8] =
    b"nrequest\00\0flags\00\0queue_id\06FF65A7E6C1\0original_recipient\0later.fay@example.org\0recipient\0later.fay@example.org\0offset\0684\0dsn_orig_rcpt\0rfc822;later.fay@example.org\0notify_flags\00\0status\04.2.1\0diag_type\0smtp\0diag_text\0450 4.2.1 mailbox busy, try later\0mta_type\0dns\0mta_mname\0127.0.0.1\0action\0delayed\0reason\0host 127.0.0.1[127.0.0.1] said: 450 4.2.1 mailbox busy, try later (in reply to RCPT TO command)\0\0";

/// `append-long.bin`.
const APPEND_LONG: &[u8] =
    b"nrequest\00\0flags\00\0queue_id\0717F3A7E6D1\0original_recipient\0long.gus@example.org\0recipient\0long.gus@example.org\0offset\0650\0dsn_orig_rcpt\0rfc822;long.gus@example.org\0notify_flags\00\0status\05.7.1\0diag_type\0smtp\0diag_text\0550-5.7.1 very long words very long words very long words very long words very long words very long words very long words very long words very long words very long words very long words very long words very long words very long words very long words very long words very long words very long words very long words very long words  550 5.7.1 and more of them\0mta_type\0dns\0mta_mname\0127.0.0.1\0action\0failed\0reason\0host 127.0.0.1[127.0.0.1] said: 550-5.7.1 very long words very long words very long words very long words very long words very long words very long words very long words very long words very long words very long words very long words very long words very long words very long words very long words very long words very long words very long words very long words  550 5.7.1 and more of them (in reply to RCPT TO command)\0\0";

/// `append-trace.bin`.
const APPEND_TRACE: &[u8] =
    b"nrequest\00\0flags\01024\0queue_id\00B7ADA7F57D\0original_recipient\0no.hal@example.org\0recipient\0no.hal@example.org\0offset\0281\0dsn_orig_rcpt\0rfc822;no.hal@example.org\0notify_flags\00\0status\05.1.1\0diag_type\0smtp\0diag_text\0550 5.1.1 <no.hal>: no such user here\0mta_type\0dns\0mta_mname\0127.0.0.1\0action\0failed\0reason\0delivery via 127.0.0.1[127.0.0.1]:2626: host 127.0.0.1[127.0.0.1] said: 550 5.1.1 <no.hal>: no such user here (in reply to RCPT TO command)\0\0";

/// `append-utf8.bin`.
const APPEND_UTF8: &[u8] =
    b"nrequest\00\0flags\00\0queue_id\073D45A7E6E1\0original_recipient\0no.\xc3\xbcrs@example.org\0recipient\0no.\xc3\xbcrs@example.org\0offset\0681\0dsn_orig_rcpt\0rfc822;no.\xc3\xbcrs@example.org\0notify_flags\00\0status\05.1.1\0diag_type\0smtp\0diag_text\0550 5.1.1 <no.\xc3\xa3\xc2\xbcrs>: no such user here\0mta_type\0dns\0mta_mname\0127.0.0.1\0action\0failed\0reason\0host 127.0.0.1[127.0.0.1] said: 550 5.1.1 <no.\xc3\xa3\xc2\xbcrs>: no such user here (in reply to RCPT TO command)\0\0";

/// `append-verify.bin`.
const APPEND_VERIFY: &[u8] =
    b"nrequest\00\0flags\0512\0queue_id\018980A7F57D\0original_recipient\0eve@example.org\0recipient\0eve@example.org\0offset\0274\0dsn_orig_rcpt\0rfc822;eve@example.org\0notify_flags\00\0status\02.1.5\0diag_type\0smtp\0diag_text\0250 2.1.5 ok\0mta_type\0dns\0mta_mname\0127.0.0.1\0action\0deliverable\0reason\0delivery via 127.0.0.1[127.0.0.1]:2626: 250 2.1.5 ok\0\0";

/// `flush-bounce.bin`.
pub(crate) const FLUSH_BOUNCE: &[u8] =
    b"nrequest\01\0flags\00\0queue_name\0active\0queue_id\06BB87A7E6A1\0encoding\0\0smtputf8\00\0sender\0ann@example.com\0envelope_id\0QQ314159\0ret_flags\02\0\0";

/// `flush-clean.bin`.
const FLUSH_CLEAN: &[u8] =
    b"nrequest\01\0flags\01\0queue_name\0incoming\0queue_id\06C7FDA7F585\0encoding\0\0smtputf8\00\0sender\0ann@example.com\0envelope_id\0\0ret_flags\00\0\0";

/// `flush-defer.bin`.
pub(crate) const FLUSH_DEFER: &[u8] =
    b"nrequest\01\0flags\02\0queue_name\0active\0queue_id\06FF65A7E6C1\0encoding\0\0smtputf8\00\0sender\0ann@example.com\0envelope_id\0\0ret_flags\00\0\0";

/// `flush-null.bin`.
pub(crate) const FLUSH_NULL: &[u8] =
    b"nrequest\01\0flags\00\0queue_name\0active\0queue_id\0717F3A7E6D1\0encoding\0\0smtputf8\00\0sender\0\0envelope_id\0\0ret_flags\00\0\0";

/// `flush-utf8.bin`.
pub(crate) const FLUSH_UTF8: &[u8] =
    b"nrequest\01\0flags\00\0queue_name\0active\0queue_id\073D45A7E6E1\0encoding\0\0smtputf8\07\0sender\0\xc3\xa4nn@example.com\0envelope_id\0\0ret_flags\00\0\0";

/// `warn.bin`.
pub(crate) const WARN: &[u8] =
    b"nrequest\02\0flags\00\0queue_name\0active\0queue_id\06FF65A7E6C1\0encoding\0\0smtputf8\00\0sender\0ann@example.com\0envelope_id\0\0ret_flags\00\0\0";

/// `verp.bin`.
pub(crate) const VERP: &[u8] =
    b"nrequest\03\0flags\00\0queue_name\0active\0queue_id\06CE9CA7E022\0encoding\0\0smtputf8\00\0sender\0list@example.com\0envelope_id\0\0ret_flags\00\0verp_delimiters\0+=\0\0";

/// `trace.bin`.
pub(crate) const TRACE: &[u8] =
    b"nrequest\05\0flags\00\0queue_name\0active\0queue_id\06E0BEA7E6B1\0encoding\0\0smtputf8\00\0sender\0ann@example.com\0envelope_id\0\0ret_flags\01\0\0";

/// `3.10/append-bounce.bin`.
const NEWER_APPEND: &[u8] =
    b"nrequest\00\0flags\00\0queue_id\0B4882A7C1BF\0original_recipient\0no.bob@example.org\0recipient\0no.bob@example.org\0offset\0725\0dsn_orig_rcpt\0rfc822;bob@example.org\0notify_flags\012\0status\05.1.1\0diag_type\0smtp\0diag_text\0550 5.1.1 <no.bob>: no such user here\0mta_type\0dns\0mta_mname\0127.0.0.1\0action\0failed\0reason\0host 127.0.0.1[127.0.0.1] said: 550 5.1.1 <no.bob>: no such user here (in reply to RCPT TO command)\0\0";

/// `3.10/flush-bounce.bin`.
const NEWER_FLUSH: &[u8] =
    b"nrequest\01\0flags\00\0queue_name\0active\0queue_id\0B4882A7C1BF\0encoding\0\0sendopts\00\0sender\0ann@example.com\0envelope_id\0QQ310\0ret_flags\02\0\0";

/// `3.10/flush-null.bin`.
const NEWER_NULL: &[u8] =
    b"nrequest\01\0flags\00\0queue_name\0active\0queue_id\0B5624A7C1C0\0encoding\0\0sendopts\00\0sender\0\0envelope_id\0\0ret_flags\00\0\0";

/// `3.10/flush-utf8.bin`.
const NEWER_UTF8: &[u8] =
    b"nrequest\01\0flags\00\0queue_name\0active\0queue_id\0B5F9DA7C1C1\0encoding\08bit\0sendopts\07\0sender\0\xc3\xa4nn@example.com\0envelope_id\0\0ret_flags\00\0\0";

/// `3.10/flush-tls.bin`.
pub(crate) const NEWER_TLS: &[u8] =
    b"nrequest\01\0flags\00\0queue_name\0active\0queue_id\0B681CA7C1C2\0encoding\0\0sendopts\016\0sender\0ann@example.com\0envelope_id\0\0ret_flags\00\0\0";

/// `3.10/flush-defer.bin`.
const NEWER_DEFER: &[u8] =
    b"nrequest\01\0flags\02\0queue_name\0active\0queue_id\0B83CDA7C1C5\0encoding\0\0sendopts\00\0sender\0ann@example.com\0envelope_id\0\0ret_flags\00\0\0";

/// `3.10/warn.bin`.
const NEWER_WARN: &[u8] =
    b"nrequest\02\0flags\00\0queue_name\0active\0queue_id\0B83CDA7C1C5\0encoding\0\0sendopts\00\0sender\0ann@example.com\0envelope_id\0\0ret_flags\00\0\0";

/// `3.10/verp.bin`.
const NEWER_VERP: &[u8] =
    b"nrequest\03\0flags\00\0queue_name\0active\0queue_id\0B71A4A7C1C3\0encoding\0\0sendopts\00\0sender\0list@example.com\0envelope_id\0\0ret_flags\00\0verp_delimiters\0+=\0\0";

/// `3.10/trace.bin`.
const NEWER_TRACE: &[u8] =
    b"nrequest\05\0flags\00\0queue_name\0active\0queue_id\0B7B42A7C1C4\0encoding\0\0sendopts\00\0sender\0ann@example.com\0envelope_id\0\0ret_flags\01\0\0";

/// The request in some bytes, or why they aren't one.
pub(crate) fn decoded(bytes: &[u8]) -> Result<PostfixRequest<'_>, RequestFault> {
    decode_postfix_request(bytes)
}

/// The bytes of a request, or `None` if there is no memory.
fn written(alloc: Global, request: &PostfixRequest<'_>) -> Option<Vec<u8>> {
    encode_postfix_request(alloc, request).ok()
}

/// The command of a request, as a word, and the send options that its message needs.
fn asked(request: &PostfixRequest<'_>) -> (&'static str, u32) {
    let (word, notice) = match request {
        PostfixRequest::Append(_) => return ("append", 0),
        PostfixRequest::Flush(notice) => ("flush", notice),
        PostfixRequest::Warn(notice) => ("warn", notice),
        PostfixRequest::Verp(notice, ..) => ("verp", notice),
        PostfixRequest::One(notice, ..) => ("one", notice),
        PostfixRequest::Trace(notice) => ("trace", notice),
    };
    (word, notice.send_options)
}

/// The request in some bytes and its encoding, or why they aren't a request.
fn read_and_written(
    alloc: Global,
    bytes: &[u8],
) -> (Result<(&'static str, u32), RequestFault>, Option<Vec<u8>>) {
    match decoded(bytes) {
        Ok(request) => (Ok(asked(&request)), written(alloc, &request)),
        Err(fault) => (Err(fault), None),
    }
}

/// A request has this command and these send options, and is encoded as it was sent. Or the bytes
/// are refused with this fault.
fn expect_request(
    rt: &(impl Abort + AllocGlobal),
    bytes: &[u8],
    want: Result<(&str, u32), RequestFault>,
) {
    let (asked, written) = read_and_written(rt.alloc(), bytes);
    same(rt, asked, want);
    if let Some(written) = written {
        same(rt, written.as_slice(), bytes);
    } else {
        // each request is encoded again
        same(rt, want.is_err(), true);
    }
}

/// Requests of 3.7, their commands, and their send options.
const OLDER_SENT: [(&[u8], &str, u32); 14] = [
    (APPEND_BOUNCE, "append", 0),
    (APPEND_DEFER, "append", 0),
    (APPEND_LONG, "append", 0),
    (APPEND_TRACE, "append", 0),
    (APPEND_UTF8, "append", 0),
    (APPEND_VERIFY, "append", 0),
    (FLUSH_BOUNCE, "flush", 0),
    (FLUSH_CLEAN, "flush", 0),
    (FLUSH_DEFER, "flush", 0),
    (FLUSH_NULL, "flush", 0),
    (FLUSH_UTF8, "flush", 7),
    (WARN, "warn", 0),
    (VERP, "verp", 0),
    (TRACE, "trace", 0),
];

/// Requests of 3.10.
const NEWER_SENT: [(&[u8], &str, u32); 10] = [
    (NEWER_APPEND, "append", 0),
    (APPEND_BOUNCE, "append", 0),
    (NEWER_FLUSH, "flush", 0),
    (NEWER_NULL, "flush", 0),
    (NEWER_UTF8, "flush", 7),
    (NEWER_TLS, "flush", 16),
    (NEWER_DEFER, "flush", 0),
    (NEWER_WARN, "warn", 0),
    (NEWER_VERP, "verp", 0),
    (NEWER_TRACE, "trace", 0),
];

#[test]
fn what_postfix_sent_is_read_and_written_again(rt: HostRuntime) {
    for (bytes, kind, needs) in &OLDER_SENT {
        expect_request(&rt, bytes, Ok((*kind, *needs)));
    }
    for (bytes, kind, needs) in &NEWER_SENT {
        expect_request(&rt, bytes, Ok((*kind, *needs)));
    }
}

/// Bytes that are not a request, and why.
const NO_REQUESTS: [(&[u8], RequestFault); 11] = [
    (b"", RequestFault::Unended),
    (b"\0", RequestFault::Missing),
    (b"nrequest\0", RequestFault::Unended),
    (b"request\x001\0\0", RequestFault::Name),
    (b"nrequest\0-1\0\0", RequestFault::Number),
    (b"nrequest\x006\0\0", RequestFault::Command),
    (
        b"nrequest\x001\0flags\x004294967296\0\0",
        RequestFault::Number,
    ),
    (
        b"nrequest\x001\0flags\x000\0queue_name\0a/b\0\0",
        RequestFault::QueueName,
    ),
    (
        b"nrequest\x000\0flags\x000\0queue_id\0..\0\0",
        RequestFault::QueueId,
    ),
    (
        b"nrequest\x001\0flags\x000\0queue_name\0active\0queue_id\06BB87A7E6A1\0encoding\0\0sendopt\x000\0\0",
        RequestFault::Name,
    ),
    (
        b"nrequest\x001\0flags\x000\0queue_name\0active\0queue_id\06BB87A7E6A1\0encoding\0\0sendopts\0",
        RequestFault::Unended,
    ),
];

#[test]
fn what_is_no_request_is_refused(rt: HostRuntime) {
    for (bytes, fault) in &NO_REQUESTS {
        expect_request(&rt, bytes, Err(*fault));
    }
    let cut = &WARN[..WARN.len() - 1];
    expect_request(&rt, cut, Err(RequestFault::Unended));
}
