//! Submission over a kept session, or over a new one.
//! Implements docs/postfix-internals.md, "A connection".
ghost use Rattle.std.specs.Prelude.{IfSome};
ghost use Rattle.dsn_smtp.specs.Session.{AsksAnew, AsksOver, ConnectsAnew, IsBegun};

use crate::connect::Connect;
use crate::hand_in_fault::HandInFault;
use crate::handed_in::HandedIn;
use crate::reply_buffer::ReplyBuffer;
use crate::session::Session;
use crate::submission::Submission;
use dsn_device::Stream;
use dsn_text::MtaName;

/// Submits in the kept session, if there is one. Begins a new session otherwise, and also if the
/// kept one fails at MAIL. Returns the session that was used last, unless it ended, and the fault.
pub fn hand_in_over<S: Stream + Drop, C: Connect<S>>(
    server: &mut C,
    kept: Option<Session<S>>,
    host: &MtaName,
    submission: &Submission<'_>,
    buffer: &mut ReplyBuffer,
) -> HandedIn<S>
    ensures over { AsksOver S.Source S.Drain C.gives server.old server.new kept host.now
        submission.now.path.now submission.now.message.now buffer.old buffer.new result.session
        result.fault }
    ensures begun { IfSome kept (IsBegun S.Source S.Drain) }
{
    let Some(session) = kept else {
        return hand_in_anew(server, host, submission, buffer);
    };
    let HandedIn { session, fault } = session.hand_in(buffer, submission.path, submission.message);
    match fault {
        // No message was sent in it yet.
        Some(fault) if fault.is_at_sender() => {
            // The buffer must not hold a reply of the failed session.
            *buffer = ReplyBuffer::new();
            hand_in_anew(server, host, submission, buffer)
        }
        Some(fault) => HandedIn {
            session,
            fault: Some(fault),
        },
        None => HandedIn {
            session,
            fault: None,
        },
    }
}

/// Begins a session, and submits in it.
fn hand_in_anew<S: Stream + Drop, C: Connect<S>>(
    server: &mut C,
    host: &MtaName,
    submission: &Submission<'_>,
    buffer: &mut ReplyBuffer,
) -> HandedIn<S>
    ensures { AsksAnew S.Source S.Drain C.gives server.old server.new host.now
        submission.now.path.now submission.now.message.now buffer.old buffer.new result.session
        result.fault }
{
    match begin_anew(server, host, buffer) {
        Ok(session) => session.hand_in(buffer, submission.path, submission.message),
        Err(fault) => HandedIn {
            session: None,
            fault: Some(fault),
        },
    }
}

/// Begins a session over a new connection.
fn begin_anew<S: Stream + Drop, C: Connect<S>>(
    server: &mut C,
    host: &MtaName,
    buffer: &mut ReplyBuffer,
) -> Result<Session<S>, HandInFault>
    ensures { ConnectsAnew S.Source S.Drain C.gives server.old server.new host.now buffer.old
        buffer.new result }
{
    let stream = server.connect()?;
    Session::begin(stream, buffer, host)
}
