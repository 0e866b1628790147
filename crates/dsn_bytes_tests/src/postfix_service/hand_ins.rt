//! Notices that are submitted to a mail server: whole dialogues, refusals at each step, and a
//! device that fails at each call.
use crate::assert_same::same;
use crate::device::ALWAYS;
use crate::postfix_service::server::{Server, host, path, refused_at};
use dsn_outcome::{Plain, Stream};
use dsn_smtp::{
    Extensions, HandInFault, HandInStep, ReplyBuffer, ReplyFault, greet, hand_in_notice, leave,
};
use dsn_text::{Address, MtaName};
use std::alloc::{AllocGlobal, Global};
use std::cell::RefCell;
use std::process::Abort;
use std::test::Fail;

/// The mail data of a message with a line of one dot. That dot is doubled, and a last line of one
/// dot ends the data.
const MESSAGE: &[u8] = b"Subject: no\r\n\r\n..\r\n.\r\n";

/// What a server offers that offers nothing.
const NO_EXTENSIONS: Extensions = Extensions {
    eight_bit_mime: false,
    pipelining: false,
    size_limit: None,
};

/// The replies of a server that takes the message (RFC 5321 appendix D.1).
const TAKES: &[u8] =
    b"|220 mx.example.org ESMTP\r\n|250-mx.example.org\r\n250-PIPELINING\r\n250 8BITMIME\r\n|250 2.1.0 Ok\r\n|250 2.1.5 Ok\r\n|354 End data with <CR><LF>.<CR><LF>\r\n|250 2.0.0 Ok: queued as 4F9D195432C\r\n";

/// The bytes that are sent to such a server, with a `<` at the start of each reply.
const WHOLE: &[u8] =
    b"<EHLO mail.example.net\r\n<MAIL FROM:<>\r\n<RCPT TO:<ann@example.org>\r\n<DATA\r\n<Subject: no\r\n\r\n..\r\n.\r\n<QUIT\r\n";

/// The replies of a server that takes the message twice in one session.
const TAKES_TWICE: &[u8] =
    b"|220 a\r\n|250 a\r\n|250 b\r\n|250 c\r\n|354 d\r\n|250 e\r\n|250 b\r\n|250 c\r\n|354 d\r\n|250 f\r\n";

/// The bytes that are sent to such a server.
const WHOLE_TWICE: &[u8] =
    b"<EHLO mail.example.net\r\n<MAIL FROM:<>\r\n<RCPT TO:<ann@example.org>\r\n<DATA\r\n<Subject: no\r\n\r\n..\r\n.\r\n<MAIL FROM:<>\r\n<RCPT TO:<ann@example.org>\r\n<DATA\r\n<Subject: no\r\n\r\n..\r\n.\r\n<QUIT\r\n";

/// A server's replies, the most bytes that a call gives or takes, the number of calls before one
/// fails, and the number of times that the message is submitted.
type Dialogue = (&'static [u8], usize, usize, u32);

/// Begins a session.
fn greeted<S: Stream>(
    stream: &mut S,
    buffer: &mut ReplyBuffer,
    host: &MtaName,
) -> Result<(), HandInFault> {
    greet(stream, buffer, host)
}

/// Submits the message.
fn taken<S: Stream>(
    stream: &mut S,
    buffer: &mut ReplyBuffer,
    path: &Address,
) -> Result<(), HandInFault> {
    hand_in_notice(stream, buffer, NO_EXTENSIONS, path, MESSAGE)
}

/// Begins a session, and submits the message `times` times, up to the first fault.
fn hand_in_all<S: Stream>(
    stream: &mut S,
    host: &MtaName,
    path: &Address,
    times: u32,
) -> Result<(), HandInFault> {
    let mut buffer = ReplyBuffer::new();
    greeted(stream, &mut buffer, host)?;
    for _ in 0..times {
        taken(stream, &mut buffer, path)?;
    }
    Ok(())
}

/// The fault of submitted notices, if there is one. The bytes sent to the server are recorded.
fn fault_of(
    alloc: Global,
    (script, most, calls, times): Dialogue,
    heard: &RefCell<Vec<u8>>,
) -> Result<Option<HandInFault>, Fail> {
    let host = host(alloc)?;
    let path = path(alloc)?;
    let mut stream = Plain::new(Server {
        script,
        most,
        calls,
        heard,
    });
    let outcome = hand_in_all(&mut stream, &host, &path, times);
    leave(&mut stream, &outcome);
    Ok(outcome.err())
}

/// The fault of submitted notices, if there is one, and the bytes sent to the server.
fn handed_in(alloc: Global, dialogue: Dialogue) -> Result<(Option<HandInFault>, Vec<u8>), Fail> {
    let heard = RefCell::new(Vec::new(alloc));
    let fault = fault_of(alloc, dialogue, &heard)?;
    Ok((fault, heard.into_inner()))
}

/// All notices are taken, and these bytes are sent to the server.
fn expect_taken(
    rt: &(impl AllocGlobal + Abort),
    dialogue: Dialogue,
    heard: &[u8],
) -> Result<(), Fail> {
    let (fault, sent) = handed_in(rt.alloc(), dialogue)?;
    let (_, most, calls, _) = dialogue;
    same(rt, (most, calls, fault), (most, calls, None));
    same(rt, sent.as_slice(), heard);
    Ok(())
}

/// A notice is submitted over a device that fails after `calls` calls, and has this fault.
/// `is_sent` is whether the bytes sent to the server end with `end`.
fn expect_fault(
    rt: &(impl AllocGlobal + Abort),
    (script, calls): (&'static [u8], usize),
    want: Option<HandInFault>,
    (end, is_sent): (&[u8], bool),
) -> Result<(), Fail> {
    let (fault, sent) = handed_in(rt.alloc(), (script, 1_000, calls, 1))?;
    let found = (script, calls, fault, sent.ends_with(end));
    same(rt, found, (script, calls, want, is_sent));
    Ok(())
}

#[test]
fn a_dialogue_in_pieces_of_each_size(rt: HostRuntime) -> Result<(), Fail> {
    for most in 1..60 {
        expect_taken(&rt, (TAKES, most, ALWAYS, 1), WHOLE)?;
    }
    Ok(())
}

#[test]
fn two_notices_in_one_session(rt: HostRuntime) -> Result<(), Fail> {
    expect_taken(&rt, (TAKES_TWICE, 1_000, ALWAYS, 2), WHOLE_TWICE)
}

/// Replies of servers that refuse a notice or give no valid reply, the step, and the code or the
/// fault of the reply.
const REFUSALS: [(&[u8], HandInStep, Result<[u8; 3], ReplyFault>); 13] = [
    (b"|554 no\r\n", HandInStep::Greeting, Ok(*b"554")),
    (b"|220 a\r\n|502 no\r\n", HandInStep::Hello, Ok(*b"502")),
    (
        b"|220 a\r\n|250 a\r\n|451 no\r\n",
        HandInStep::Sender,
        Ok(*b"451"),
    ),
    (
        b"|220 a\r\n|250 a\r\n|250 b\r\n|550 no\r\n",
        HandInStep::Recipient,
        Ok(*b"550"),
    ),
    (
        b"|220 a\r\n|250 a\r\n|250 b\r\n|354 c\r\n",
        HandInStep::Recipient,
        Ok(*b"354"),
    ),
    (
        b"|220 a\r\n|250 a\r\n|250 b\r\n|250 c\r\n|250 d\r\n",
        HandInStep::Data,
        Ok(*b"250"),
    ),
    (
        b"|220 a\r\n|250 a\r\n|250 b\r\n|250 c\r\n|354 d\r\n|452 no\r\n",
        HandInStep::Message,
        Ok(*b"452"),
    ),
    // replies that are cut short or come too soon
    (b"", HandInStep::Greeting, Err(ReplyFault::Nothing)),
    (
        b"|220 a\r\n250 a\r\n",
        HandInStep::Greeting,
        Err(ReplyFault::Trailing),
    ),
    (
        b"|220 a\r\n|250 a",
        HandInStep::Hello,
        Err(ReplyFault::CutShort),
    ),
    (
        b"|220 a\r\n|250-a\r\n550 b\r\n",
        HandInStep::Hello,
        Err(ReplyFault::NoReply),
    ),
    (
        b"|220 a\r\n|250 a\r\n|250 b\r\n|250 c\r\n|354 d\r\n250 e\r\n",
        HandInStep::Data,
        Err(ReplyFault::Trailing),
    ),
    (
        b"|220 a\r\n|250 a\r\n|250 b\r\n|250 c\r\n|354 d\r\n",
        HandInStep::Message,
        Err(ReplyFault::Nothing),
    ),
];

/// A server refuses a notice with this code, or gives no valid reply. Then it is sent QUIT. If it
/// refused, QUIT comes after the start of its last reply.
fn expect_refusal(
    rt: &(impl AllocGlobal + Abort),
    &(script, step, said): &(&'static [u8], HandInStep, Result<[u8; 3], ReplyFault>),
) -> Result<(), Fail> {
    match said {
        Ok(digits) => expect_fault(
            rt,
            (script, ALWAYS),
            refused_at(step, digits),
            (b"<QUIT\r\n", true),
        ),
        Err(why) => expect_fault(
            rt,
            (script, ALWAYS),
            Some(HandInFault::Unheard(step, why)),
            (b"QUIT\r\n", true),
        ),
    }
}

#[test]
fn refusals_and_no_replies_at_each_step(rt: HostRuntime) -> Result<(), Fail> {
    for case in &REFUSALS {
        expect_refusal(&rt, case)?;
    }
    Ok(())
}

/// The fault if each call fails in turn: a read of the greeting; then a write, a flush and a read
/// for each command.
const FAILING_CALLS: [HandInFault; 16] = [
    HandInFault::Unheard(HandInStep::Greeting, ReplyFault::Read),
    HandInFault::Unsaid(HandInStep::Hello),
    HandInFault::Unsaid(HandInStep::Hello),
    HandInFault::Unheard(HandInStep::Hello, ReplyFault::Read),
    HandInFault::Unsaid(HandInStep::Sender),
    HandInFault::Unsaid(HandInStep::Sender),
    HandInFault::Unheard(HandInStep::Sender, ReplyFault::Read),
    HandInFault::Unsaid(HandInStep::Recipient),
    HandInFault::Unsaid(HandInStep::Recipient),
    HandInFault::Unheard(HandInStep::Recipient, ReplyFault::Read),
    HandInFault::Unsaid(HandInStep::Data),
    HandInFault::Unsaid(HandInStep::Data),
    HandInFault::Unheard(HandInStep::Data, ReplyFault::Read),
    HandInFault::Unsaid(HandInStep::Message),
    HandInFault::Unsaid(HandInStep::Message),
    HandInFault::Unheard(HandInStep::Message, ReplyFault::Read),
];

#[test]
fn a_device_that_fails_at_each_call(rt: HostRuntime) -> Result<(), Fail> {
    for (calls, fault) in FAILING_CALLS.into_iter().enumerate() {
        expect_fault(&rt, (TAKES, calls), Some(fault), (b"QUIT\r\n", false))?;
        same(&rt, (calls, fault.may_be_taken()), (calls, calls > 12));
    }
    Ok(())
}

// The notice was taken before QUIT, whose calls are the last two.
#[test]
fn a_device_that_fails_at_quit(rt: HostRuntime) -> Result<(), Fail> {
    let unsaid = &WHOLE[..WHOLE.len() - b"QUIT\r\n".len()];
    expect_taken(&rt, (TAKES, 1_000, 16, 1), unsaid)?;
    expect_taken(&rt, (TAKES, 1_000, 17, 1), WHOLE)
}
