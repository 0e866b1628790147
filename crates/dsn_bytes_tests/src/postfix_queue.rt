//! What a queue file of Postfix says of a message and its recipients, as far as a notice needs it.
use crate::assert_same::same;
use dsn_postfix_files::{
    MessageFacts, QueueBroken, QueueReader, QueuedRecipient, RecipientState, header_of_message,
    text_of_message,
};
use std::alloc::AllocGlobal;
use std::process::Abort;
use std::test::Fail;

/// The first records of `queue-mixed` of tests/postfix/, up to the last one here.
const QUEUED: &[u8] =
    b"T\x111795671363 200294A\x14envelope_id=QQ314159A\x0bret_flags=2S\x0fann@example.comA\x0fnotify_flags=12O\x12no-one@example.orgD\x12no-one@example.orgR\x11later@example.orgM\x00X\x00E\x00";

/// The records of `queue-mixed` from its message on, without those after the message.
const MESSAGE: &[u8] =
    b"M\x00N9Received: from client.example.com (localhost [127.0.0.1])N7\tby mx.example.net (Postfix) with ESMTP id 334A2A7C7AF;N&\tThu, 26 Nov 2026 05:36:03 +0000 (UTC)N\x1bFrom: Ann <ann@example.com>N\x1aTo: someone@mx.example.netN\x0eSubject: mixedN&Message-ID: <mixed@client.example.com>N+Date: Thu, 26 Nov 2026 05:36:03 +0000 (UTC)N\x00N\x06Hello.X\x00E\x00";

/// The message.
const TEXT: &[u8] =
    b"Received: from client.example.com (localhost [127.0.0.1])\n\tby mx.example.net (Postfix) with ESMTP id 334A2A7C7AF;\n\tThu, 26 Nov 2026 05:36:03 +0000 (UTC)\nFrom: Ann <ann@example.com>\nTo: someone@mx.example.net\nSubject: mixed\nMessage-ID: <mixed@client.example.com>\nDate: Thu, 26 Nov 2026 05:36:03 +0000 (UTC)\n\nHello.\n";

/// The place, the address, the flags and the state of a recipient.
type Told<'a> = (u64, &'a [u8], u8, RecipientState);

/// The next recipient of a queue file is this one. Or there is no further one, or the file can't be
/// read any further.
fn expect_recipient(
    rt: &impl Abort,
    reader: &mut QueueReader<'_>,
    want: Result<Option<Told<'_>>, QueueBroken>,
) {
    let found = match reader.next_recipient() {
        Ok(Some(it)) => Ok(Some((it.place, it.address, it.notify_flags, it.state))),
        Ok(None) => Ok(None),
        Err(broken) => Err(broken),
    };
    same(rt, found, want);
}

/// The two recipients.
const RECIPIENTS: [Result<Option<Told<'static>>, QueueBroken>; 2] = [
    Ok(Some((108, b"no-one@example.org", 12, RecipientState::Done))),
    Ok(Some((128, b"later@example.org", 0, RecipientState::Waiting))),
];

#[test]
fn a_queue_file_has_its_recipients(rt: HostRuntime) {
    let mut whole = QueueReader::new(QUEUED);
    let mut cut = QueueReader::new(&QUEUED[..QUEUED.len() - 2]);
    for want in RECIPIENTS {
        expect_recipient(&rt, &mut whole, want);
        expect_recipient(&rt, &mut cut, want);
    }
    expect_recipient(&rt, &mut whole, Ok(None));
    expect_recipient(&rt, &mut whole, Ok(None));
    expect_recipient(&rt, &mut cut, Err(QueueBroken));
}

/// What a queue file says of its message, and whether the file can be read to its end.
fn facts_of(file: &[u8]) -> (MessageFacts<'_>, bool) {
    match MessageFacts::read(file) {
        Ok(facts) => (facts, true),
        Err(broken) => (broken.before, false),
    }
}

/// A queue file has the arrival, the sender, the envelope id and the return flags of Ann's message.
/// Whether it can be read to its end is `whole`.
fn expect_facts(rt: &impl Abort, file: &[u8], whole: bool) {
    let (facts, is_whole) = facts_of(file);
    let found = (
        facts.arrival,
        facts.sender,
        facts.envelope_id,
        facts.return_flags,
        is_whole,
    );
    let sender = Some(b"ann@example.com".as_slice());
    let envelope_id = Some(b"QQ314159".as_slice());
    same(
        rt,
        found,
        (Some(1_795_671_363), sender, envelope_id, Some(2), whole),
    );
}

#[test]
fn a_queue_file_says_what_its_message_is(rt: HostRuntime) {
    expect_facts(&rt, QUEUED, true);
    expect_facts(&rt, &QUEUED[..QUEUED.len() - 2], false);
}

/// The text of a message, cut at a limit, is this one.
fn expect_text(
    rt: &(impl AllocGlobal + Abort),
    message: &[u8],
    limit: usize,
    want: &[u8],
) -> Result<(), Fail> {
    let text = text_of_message(rt.alloc(), message, limit)?;
    same(rt, text.as_slice(), want);
    Ok(())
}

#[test]
fn the_text_of_a_message_is_its_lines(rt: HostRuntime) -> Result<(), Fail> {
    expect_text(&rt, MESSAGE, usize::MAX, TEXT)?;
    expect_text(&rt, MESSAGE, TEXT.len(), TEXT)?;
    expect_text(&rt, MESSAGE, 10, &TEXT[..10])?;
    expect_text(&rt, MESSAGE, 0, b"")?;
    expect_text(&rt, &MESSAGE[2..], usize::MAX, b"")
}

/// Texts, and their headers.
const HEADERS: [(&[u8], &[u8]); 3] = [
    (b"A: 1\n\t2\nB : 3\nno field\nC: 4\n", b"A: 1\n\t2\nB : 3\n"),
    (b"A: 1", b"A: 1"),
    (b"\nA: 1\n", b""),
];

/// A text has this header.
fn expect_header(rt: &impl Abort, &(text, header): &(&[u8], &[u8])) {
    same(rt, header_of_message(text), header);
}

#[test]
fn a_header_ends_where_no_field_goes_on(rt: HostRuntime) {
    let header = &TEXT[..TEXT.len() - b"\nHello.\n".len()];
    expect_header(&rt, &(TEXT, header));
    for case in &HEADERS {
        expect_header(&rt, case);
    }
}
