//! The sessions with the mail server that are kept from one notice to the next.
//! Implements docs/postfix-internals.md, "A connection".
ghost use Rattle.std.specs.Prelude.{◌≡◌};
ghost use Rattle.dsn_smtp.specs.HandIn.{fault_said};
ghost use Rattle.dsn_smtp.specs.Session.{AsksOverSome};

use crate::connect::Connect;
use crate::hand_in_fault::HandInFault;
use crate::hand_in_step::HandInStep;
use crate::handed_in::HandedIn;
use crate::kept_or_new::hand_in_over;
use crate::reply_buffer::ReplyBuffer;
use crate::reply_fault::ReplyFault;
use crate::session::Session;
use crate::submission::Submission;
use crossbeam_channel::{Receiver, Sender, bounded};
use dsn_device::Stream;
use dsn_text::MtaName;
use std::alloc::{AllocError, Global};
use std::sync::Wait;
use std::time::{Clock, Duration};

/// How many notices are submitted at once; others wait. If the process is killed between the
/// server's reply and the removal of the log, the sender is notified twice.
// A server syncs what it takes. With two at once and 20 ms for a sync it took half as many as from
// bounce(8). A notice that waits has its log locked. So an append to that log waits too, and fails
// after 20 seconds, as with bounce(8).
const MOST_AT_ONCE: usize = 8;

/// For how many seconds a notice waits for its turn, so that a server that doesn't answer delays
/// only the requests of that time.
const SECONDS_FOR_TURN: u64 = 60;

/// The turn to submit one notice, with the session that the last notice left.
#[derive(Drop)]
struct KeptSession<S: Stream> {
    session: Option<Session<S>>,
    /// Whether the session was used since the last round.
    is_fresh: bool,
}

/// The turns that no thread has. A thread submits a notice only while it has a turn.
#[derive(Drop)]
pub struct KeptSessions<S: Stream> {
    back: Sender<KeptSession<S>>,
    turns: Receiver<KeptSession<S>>,
}

impl<S: Stream + Drop> KeptSessions<S> {
    /// All turns, without a session. Returns `AllocError` if memory was refused.
    pub fn new<W: Wait>(alloc: Global, waiting: &W) -> Result<KeptSessions<S>, AllocError> {
        let (back, turns) = bounded(alloc, MOST_AT_ONCE)?;
        let kept = KeptSessions { back, turns };
        for _ in 0..MOST_AT_ONCE {
            kept.put_back(waiting, None, false);
        }
        Ok(kept)
    }

    /// Returns a turn, with the session to be kept.
    fn put_back<W: Wait>(&self, waiting: &W, session: Option<Session<S>>, is_fresh: bool) {
        // The channel has room for all turns.
        let _ = self
            .back
            .try_send(waiting, KeptSession { session, is_fresh });
    }

    /// The session of a turn, or else that of another free turn.
    fn session_for<W: Wait>(&self, waiting: &W, turn: KeptSession<S>) -> Option<Session<S>> {
        if turn.session.is_some() {
            return turn.session;
        }
        for _ in 1..MOST_AT_ONCE {
            let other = self.turns.try_recv(waiting).ok()?;
            self.put_back(waiting, None, false);
            if other.session.is_some() {
                return other.session;
            }
        }
        None
    }

    /// Submits a notice in a kept session, or else in a new one that `server` connects, in which
    /// `host` is the client's name in EHLO. Returns the fault of the submission, or `Unheard` at
    /// the greeting if no turn was free for 60 seconds. If the server accepted the notice, the
    /// buffer holds the reply to the message.
    pub fn hand_in<W: Wait + Clock, C: Connect<S>>(
        &self,
        waiting: &W,
        server: &mut C,
        host: &MtaName,
        submission: &Submission<'_>,
        buffer: &mut ReplyBuffer,
    ) -> Result<(), HandInFault>
        ensures { AsksOverSome S.Source S.Drain C.gives server.old server.new host.now
            submission.now.path.now submission.now.message.now buffer.old buffer.new
            (fault_said result) }
    {
        let limit = Duration::from_secs(SECONDS_FOR_TURN);
        let Ok(turn) = self.turns.recv_timeout(waiting, limit) else {
            return Err(HandInFault::Unheard(HandInStep::Greeting, ReplyFault::Read));
        };
        let session = self.session_for(waiting, turn);
        let handed = hand_in_over(server, session, host, submission, buffer);
        self.end_turn(waiting, handed)
    }

    /// Ends the turn of a submission, and returns its fault.
    fn end_turn<W: Wait>(&self, waiting: &W, handed: HandedIn<S>) -> Result<(), HandInFault>
        ensures { fault_said result ≡ handed.fault }
    {
        let HandedIn { session, fault } = handed;
        self.return_turn(waiting, session);
        match fault {
            None => Ok(()),
            Some(fault) => Err(fault),
        }
    }

    /// Returns a turn, and keeps the session that a submission left, or ends it if it was used often
    /// enough.
    fn return_turn<W: Wait>(&self, waiting: &W, session: Option<Session<S>>) {
        match session {
            Some(session) if session.may_go_on() => self.put_back(waiting, Some(session), true),
            Some(session) => {
                self.put_back(waiting, None, false);
                session.end();
            }
            None => self.put_back(waiting, None, true),
        }
    }

    /// Ends the sessions of free turns that weren't used since the last call.
    pub fn end_stale<W: Wait>(&self, waiting: &W) {
        for _ in 0..MOST_AT_ONCE {
            let Ok(turn) = self.turns.try_recv(waiting) else {
                return;
            };
            let KeptSession { session, is_fresh } = turn;
            if is_fresh {
                self.put_back(waiting, session, false);
            } else {
                self.put_back(waiting, None, false);
                end(session);
            }
        }
    }
}

fn end<S: Stream + Drop>(session: Option<Session<S>>) {
    if let Some(session) = session {
        session.end();
    }
}
