//! Notices that are submitted over a kept session or over a new one, and the bytes sent over each.
use crate::assert_same::same;
use crate::postfix_service::server::{Server, host, path, refused_at};
use dsn_outcome::{Plain, Stream};
use dsn_smtp::{
    Connect, HandInFault, HandInStep, ReplyBuffer, ReplyFault, Session, Submission, hand_in_over,
};
use dsn_text::{Address, MtaName};
use std::alloc::{AllocGlobal, Global};
use std::cell::RefCell;
use std::process::Abort;
use std::test::Fail;

/// New connections, if there are any, to a server with these replies.
#[derive(Drop)]
struct Place<'a> {
    script: Option<&'static [u8]>,
    heard: &'a RefCell<Vec<u8>>,
}

impl<'a> Connect<Plain<Server<'a>>> for Place<'a> {
    ghost gives = { λ _ _ _. Unit {0} };

    fn connect(&mut self) -> Result<Plain<Server<'a>>, HandInFault> {
        match self.script {
            Some(script) => Ok(Server::steady(script, self.heard)),
            None => Err(HandInFault::Unheard(HandInStep::Greeting, ReplyFault::Read)),
        }
    }
}

/// A notice, and the replies over a kept session and over a new one, each if there is one.
///
/// `fault` is the step at which the notice isn't taken, and the code that refuses it, or `None` if
/// no reply is read. `over_kept` and `over_new` are the bytes sent over each session, with a `<` at
/// the start of each reply.
struct Case {
    kept: Option<&'static [u8]>,
    new: Option<&'static [u8]>,
    fault: Option<(HandInStep, Option<[u8; 3]>)>,
    over_kept: &'static [u8],
    over_new: &'static [u8],
}

/// The mail data of a message without a body, ended by a line of one dot.
const MESSAGE: &[u8] = b"Subject: no\r\n\r\n.\r\n";

/// The replies of a server that takes the message (RFC 5321 appendix D.1).
const TAKES: &[u8] =
    b"|220 mx.example.org ESMTP\r\n|250 mx.example.org\r\n|250 Ok\r\n|250 Ok\r\n|354 End\r\n|250 Ok\r\n";

/// The bytes sent to such a server.
const WHOLE: &[u8] =
    b"<EHLO mail.example.net\r\n<MAIL FROM:<>\r\n<RCPT TO:<ann@example.org>\r\n<DATA\r\n<Subject: no\r\n\r\n.\r\n<";

/// The replies of a server that offers PIPELINING and takes the message (RFC 2920 section 3.2).
/// Those to MAIL, RCPT and DATA come in one piece.
const GROUP_TAKES: &[u8] =
    b"|220 a\r\n|250-a\r\n250 PIPELINING\r\n|250 b\r\n250 c\r\n354 d\r\n|250 e\r\n";

/// The replies of a server that refuses the recipient, and still waits for a message.
const GROUP_REFUSES: &[u8] =
    b"|220 a\r\n|250-a\r\n250 PIPELINING\r\n|250 b\r\n550 c\r\n354 d\r\n|250 e\r\n";

/// The bytes sent to a server that refuses the sender.
const UP_TO_SENDER: &[u8] = b"<EHLO mail.example.net\r\n<MAIL FROM:<>\r\n<QUIT\r\n";

/// The bytes sent to a server that gives no reply after the one to EHLO.
const UP_TO_SILENCE: &[u8] = b"<EHLO mail.example.net\r\n<MAIL FROM:<>\r\nQUIT\r\n";

/// A notice is submitted over the kept session. It is submitted over a new one if no session is
/// kept, or if it fails at MAIL.
const CASES: [Case; 10] = [
    Case {
        kept: Some(TAKES),
        new: Some(TAKES),
        fault: None,
        over_kept: WHOLE,
        over_new: b"",
    },
    Case {
        kept: Some(b"|220 a\r\n|250 a\r\n|421 no\r\n"),
        new: Some(TAKES),
        fault: None,
        over_kept: UP_TO_SENDER,
        over_new: WHOLE,
    },
    Case {
        kept: Some(b"|220 a\r\n|250 a\r\n"),
        new: Some(b"|220 a\r\n|250 a\r\n|550 no\r\n"),
        fault: Some((HandInStep::Sender, Some(*b"550"))),
        over_kept: UP_TO_SILENCE,
        over_new: UP_TO_SENDER,
    },
    Case {
        kept: Some(b"|220 a\r\n|250 a\r\n|250 b\r\n|550 no\r\n"),
        new: Some(TAKES),
        fault: Some((HandInStep::Recipient, Some(*b"550"))),
        over_kept: b"<EHLO mail.example.net\r\n<MAIL FROM:<>\r\n<RCPT TO:<ann@example.org>\r\n<QUIT\r\n",
        over_new: b"",
    },
    Case {
        kept: None,
        new: Some(TAKES),
        fault: None,
        over_kept: b"",
        over_new: WHOLE,
    },
    Case {
        kept: None,
        new: Some(b"|554 no\r\n"),
        fault: Some((HandInStep::Greeting, Some(*b"554"))),
        over_kept: b"",
        over_new: b"<QUIT\r\n",
    },
    Case {
        kept: None,
        new: None,
        fault: Some((HandInStep::Greeting, None)),
        over_kept: b"",
        over_new: b"",
    },
    Case {
        kept: Some(GROUP_TAKES),
        new: Some(TAKES),
        fault: None,
        over_kept: b"<EHLO mail.example.net\r\n<MAIL FROM:<>\r\nRCPT TO:<ann@example.org>\r\nDATA\r\n<Subject: no\r\n\r\n.\r\n<",
        over_new: b"",
    },
    Case {
        kept: Some(GROUP_REFUSES),
        new: Some(TAKES),
        fault: Some((HandInStep::Recipient, Some(*b"550"))),
        over_kept: b"<EHLO mail.example.net\r\n<MAIL FROM:<>\r\nRCPT TO:<ann@example.org>\r\nDATA\r\n<.\r\n<QUIT\r\n",
        over_new: b"",
    },
    Case {
        kept: Some(b"|220 a\r\n|250 a\r\n|421 no\r\n"),
        new: None,
        fault: Some((HandInStep::Greeting, None)),
        over_kept: UP_TO_SENDER,
        over_new: b"",
    },
];

/// The expected fault of a case, if there is one.
fn wanted(case: &Case) -> Option<HandInFault> {
    match case.fault {
        Some((step, Some(digits))) => refused_at(step, digits),
        Some((step, None)) => Some(HandInFault::Unheard(step, ReplyFault::Read)),
        None => None,
    }
}

/// A session over a new connection, if it can begin.
fn begun<S: Stream + Drop>(stream: S, host: &MtaName) -> Option<Session<S>> {
    Session::begin(stream, &mut ReplyBuffer::new(), host).ok()
}

/// Submits a notice over the kept session, or over one of a new connection. Returns the fault, if
/// it isn't taken.
fn fault_of<S: Stream + Drop, C: Connect<S>>(
    place: &mut C,
    kept: Option<Session<S>>,
    host: &MtaName,
    (path, message): (&Address, &[u8]),
) -> Option<HandInFault> {
    let notice = Submission { path, message };
    hand_in_over(place, kept, host, &notice, &mut ReplyBuffer::new()).fault
}

/// The fault of a message, if there is one, with the replies over a kept session and over a new one.
/// The bytes sent over each are recorded.
fn tried(
    alloc: Global,
    (kept, new, message): (Option<&'static [u8]>, Option<&'static [u8]>, &[u8]),
    over_kept: &RefCell<Vec<u8>>,
    over_new: &RefCell<Vec<u8>>,
) -> Result<Option<HandInFault>, Fail> {
    let host = host(alloc)?;
    let path = path(alloc)?;
    let kept = match kept {
        Some(script) => begun(Server::steady(script, over_kept), &host),
        None => None,
    };
    let mut place = Place {
        script: new,
        heard: over_new,
    };
    Ok(fault_of(&mut place, kept, &host, (&path, message)))
}

/// A case's notice has the expected fault, and the expected bytes are sent to each server.
fn expect_case(rt: &(impl AllocGlobal + Abort), case: &Case) -> Result<(), Fail> {
    let over_kept = RefCell::new(Vec::new(rt.alloc()));
    let over_new = RefCell::new(Vec::new(rt.alloc()));
    let notice = (case.kept, case.new, MESSAGE);
    let fault = tried(rt.alloc(), notice, &over_kept, &over_new)?;
    same(rt, fault, wanted(case));
    same(rt, over_kept.into_inner().as_slice(), case.over_kept);
    same(rt, over_new.into_inner().as_slice(), case.over_new);
    Ok(())
}

#[test]
fn a_notice_over_a_kept_session_or_a_new_one(rt: HostRuntime) -> Result<(), Fail> {
    for case in &CASES {
        expect_case(&rt, case)?;
    }
    Ok(())
}

/// The mail data of a message with bytes above 127.
const IN_UTF8: &[u8] = b"Subject: no\r\n\r\ncaf\xc3\xa9\r\n.\r\n";

/// The replies of a server that offers 8BITMIME, alone or with PIPELINING, and takes the message.
const EIGHT_BIT_TAKES: &[u8] =
    b"|220 a\r\n|250-a\r\n250 8BITMIME\r\n|250 b\r\n|250 c\r\n|354 d\r\n|250 e\r\n";

const EIGHT_BIT_GROUP_TAKES: &[u8] =
    b"|220 a\r\n|250-a\r\n250-PIPELINING\r\n250 8BITMIME\r\n|250 b\r\n250 c\r\n354 d\r\n|250 e\r\n";

/// The bytes sent to such servers.
const EIGHT_BIT_WHOLE: &[u8] =
    b"<EHLO mail.example.net\r\n<MAIL FROM:<> BODY=8BITMIME\r\n<RCPT TO:<ann@example.org>\r\n<DATA\r\n<Subject: no\r\n\r\ncaf\xc3\xa9\r\n.\r\n<";

const EIGHT_BIT_GROUP_WHOLE: &[u8] =
    b"<EHLO mail.example.net\r\n<MAIL FROM:<> BODY=8BITMIME\r\nRCPT TO:<ann@example.org>\r\nDATA\r\n<Subject: no\r\n\r\ncaf\xc3\xa9\r\n.\r\n<";

/// The bytes sent to a server without 8BITMIME: nothing after EHLO.
const NOTHING_SENT: &[u8] = b"<EHLO mail.example.net\r\n<";

/// The replies over a kept session and over a new one, each if there is one; the fault of a message
/// with bytes above 127; and the bytes sent over each session.
type EightBitCase = (
    Option<&'static [u8]>,
    Option<&'static [u8]>,
    Option<HandInFault>,
    &'static [u8],
    &'static [u8],
);

/// Such a message needs 8BITMIME (RFC 6152 section 3). A new session is no use to it.
const EIGHT_BIT_CASES: [EightBitCase; 5] = [
    (Some(EIGHT_BIT_TAKES), None, None, EIGHT_BIT_WHOLE, b""),
    (
        Some(EIGHT_BIT_GROUP_TAKES),
        None,
        None,
        EIGHT_BIT_GROUP_WHOLE,
        b"",
    ),
    (
        Some(TAKES),
        Some(EIGHT_BIT_TAKES),
        Some(HandInFault::NotOffered),
        NOTHING_SENT,
        b"",
    ),
    (
        Some(GROUP_TAKES),
        Some(EIGHT_BIT_TAKES),
        Some(HandInFault::NotOffered),
        NOTHING_SENT,
        b"",
    ),
    (
        None,
        Some(GROUP_TAKES),
        Some(HandInFault::NotOffered),
        b"",
        NOTHING_SENT,
    ),
];

/// A message with bytes above 127 has the expected fault, and the expected bytes are sent.
fn expect_eight_bit(
    rt: &(impl AllocGlobal + Abort),
    &(kept, new, want, to_kept, to_new): &EightBitCase,
) -> Result<(), Fail> {
    let over_kept = RefCell::new(Vec::new(rt.alloc()));
    let over_new = RefCell::new(Vec::new(rt.alloc()));
    let fault = tried(rt.alloc(), (kept, new, IN_UTF8), &over_kept, &over_new)?;
    same(rt, fault, want);
    same(rt, over_kept.into_inner().as_slice(), to_kept);
    same(rt, over_new.into_inner().as_slice(), to_new);
    Ok(())
}

#[test]
fn a_notice_with_8bit_bytes(rt: HostRuntime) -> Result<(), Fail> {
    for case in &EIGHT_BIT_CASES {
        expect_eight_bit(&rt, case)?;
    }
    Ok(())
}
