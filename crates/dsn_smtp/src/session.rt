//! A session with a mail server. It may be kept as long as nothing goes wrong in it.
//! Implements docs/postfix-internals.md, "A connection".
//! A connection, a greeting and EHLO for each notice would take more processor time than bounce(8),
//! which writes straight to cleanup(8).
ghost use Rattle.std.specs.Prelude.{◌≡◌, true};
ghost use Rattle.dsn_smtp.specs.Body.{body_kind, suffice_for};
ghost use Rattle.dsn_smtp.specs.HandIn.{TurnsOver, fault_said};
ghost use Rattle.dsn_smtp.specs.Pipelining.{TransactsAs};
ghost use Rattle.dsn_smtp.specs.Session.{Begins, Continues, Ends, IsBegun};

use crate::body::Body;
use crate::extensions::Extensions;
use crate::hand_in_fault::HandInFault;
use crate::handed_in::HandedIn;
use crate::pipelining::hand_in_group;
use crate::reply_buffer::ReplyBuffer;
use crate::transaction::{greet, hand_in_one_by_one, leave};
use dsn_device::Stream;
use dsn_text::{Address, MtaName};
use std::marker::Model;

/// The largest number of transactions in a session. A server applies a changed configuration only
/// to new sessions.
const MOST_USES: u32 = 100;

/// A session that was begun, and in which nothing went wrong so far. A call that fails ends it.
#[derive(Drop)]
pub struct Session<S: Stream> {
    stream: S,
    /// What the server offered in its reply to EHLO.
    extensions: Extensions,
    /// The number of its transactions so far.
    uses: u32,
}

impl<S: Stream> Model for Session<S> {
    ghost use Rattle.dsn_smtp.specs.Session.{IsBegun, OpenSession};

    ghost Value = { OpenSession S };

    ghost view = { λ s. record { stream = s.stream; extensions = s.extensions } };

    ghost invariant = { λ s. IsBegun S.Source S.Drain (record { stream = s.stream; extensions = s.extensions }) };
}

impl<S: Stream + Drop> Session<S> {
    /// Begins a session over a new connection, as [`greet`] does. If that fails, ends the session
    /// and returns the fault.
    pub fn begin(
        stream: S,
        buffer: &mut ReplyBuffer,
        host: &MtaName,
    ) -> Result<Session<S>, HandInFault>
        ensures { Begins S.Source S.Drain stream host.now buffer.old buffer.new result }
    {
        let mut stream = stream;
        match greet(&mut stream, buffer, host) {
            Ok(()) => {
                let extensions = Extensions::of_reply(buffer.bytes());
                Ok(Session {
                    stream,
                    extensions,
                    uses: 0,
                })
            }
            Err(fault) => {
                end_failed(stream, &fault);
                Err(fault)
            }
        }
    }

    /// Submits one notice, as [`hand_in_notice`](crate::hand_in_notice) does, or by a group of
    /// commands if the server offers PIPELINING (RFC 2920). If that fails, ends the session and
    /// returns the fault. If the server doesn't offer what the message needs, sends nothing, and
    /// returns the session with `NotOffered`.
    pub fn hand_in(self, buffer: &mut ReplyBuffer, path: &Address, message: &[u8]) -> HandedIn<S>
        ensures over { Continues S.Source S.Drain self path.now message.now buffer.old buffer.new
            result.session result.fault }
        ensures begun { IsBegun S.Source S.Drain self }
    {
        let body = Body::of(message);
        if self.extensions.suffice_for(body) {
            return self.submit(buffer, body, path, message);
        }
        // The buffer must not hold the reply to another command.
        *buffer = ReplyBuffer::new();
        HandedIn {
            session: Some(self),
            fault: Some(HandInFault::NotOffered),
        }
    }

    /// Submits one notice of this kind. If that fails, ends the session.
    fn submit(
        self,
        buffer: &mut ReplyBuffer,
        body: Body,
        path: &Address,
        message: &[u8],
    ) -> HandedIn<S>
        requires kind { body ≡ body_kind message.now }
        requires offered { suffice_for self.extensions body ≡ true }
        ensures over { Continues S.Source S.Drain self path.now message.now buffer.old buffer.new
            result.session result.fault }
        ensures begun { IsBegun S.Source S.Drain self }
    {
        let Session {
            stream,
            extensions,
            uses,
        } = self;
        let uses = uses.saturating_add(1);
        let (stream, handed) = transact(stream, extensions, buffer, body, path, message);
        match handed {
            Ok(()) => HandedIn {
                session: Some(Session {
                    stream,
                    extensions,
                    uses,
                }),
                fault: None,
            },
            Err(fault) => {
                end_failed(stream, &fault);
                HandedIn {
                    session: None,
                    fault: Some(fault),
                }
            }
        }
    }

    /// The extensions that the server offered in its reply to EHLO.
    pub fn extensions(&self) -> Extensions
        ensures { result ≡ self.now.extensions }
    {
        self.extensions
    }

    /// Whether it may be used for one more transaction.
    pub fn may_go_on(&self) -> bool {
        self.uses < MOST_USES
    }

    /// Ends it with QUIT, as [`leave`] does.
    pub fn end(self)
        ensures { Ends S.Source S.Drain self.stream None }
    {
        let Session {
            mut stream,
            extensions: _,
            uses: _,
        } = self;
        leave(&mut stream, &Ok(()));
    }
}

/// Submits one notice of this kind over a stream whose server offers these extensions.
fn transact<S: Stream>(
    stream: S,
    extensions: Extensions,
    buffer: &mut ReplyBuffer,
    body: Body,
    path: &Address,
    message: &[u8],
) -> (S, Result<(), HandInFault>)
    ensures { TurnsOver S.Source S.Drain stream result.0
        (TransactsAs extensions body path.now message.now) buffer.old buffer.new
        (fault_said result.1) }
{
    if extensions.pipelining {
        return hand_in_group(stream, buffer, body, path, message);
    }
    let mut stream = stream;
    let handed = hand_in_one_by_one(&mut stream, buffer, body, path, message);
    (stream, handed)
}

/// Ends the session over a stream, after this fault.
fn end_failed<S: Stream + Drop>(stream: S, fault: &HandInFault)
    ensures { Ends S.Source S.Drain stream (Some fault.now) }
{
    let mut stream = stream;
    leave(&mut stream, &Err(*fault));
}
