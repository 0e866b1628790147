//! A mail transaction whose commands before the message are sent as one group.
//! Implements RFC 2920 section 3.1.
//! The replies to a group are the only ones behind which bytes may be: those of the next reply. No
//! reply is taken for another command's, since as many are received as commands were sent.
ghost use Rattle.std.specs.Prelude.{List};
ghost use Rattle.dsn_smtp.specs.Dialogue.{TakesTurns, Turn};
ghost use Rattle.dsn_smtp.specs.HandIn.{TurnsOver, fault_said};
ghost use Rattle.dsn_smtp.specs.Pipelining.{AsksGroup, Cancels, FollowsGroup, HearsGroup, HearsOne, group_text};

use crate::body::Body;
use crate::command::Command;
use crate::command_line::CommandLine;
use crate::dialogue::{hear, say};
use crate::group_replies::{GroupReplies, hear_group};
use crate::hand_in_fault::HandInFault;
use crate::hand_in_step::HandInStep;
use crate::read_ahead::ReadAhead;
use crate::reply_buffer::ReplyBuffer;
use crate::transaction::ask;
use dsn_device::Stream;
use dsn_text::Address;

/// The message that a server gets that waits for one after a refusal.
const EMPTY_MESSAGE: &[u8] = b".\r\n";

/// Submits one notice as [`hand_in_notice`](crate::hand_in_notice) does, but sends MAIL, RCPT and
/// DATA as one group. Requires that the server offers PIPELINING, and what a message of this kind
/// needs. Returns the stream, and the first step that went wrong. After that nothing more of the
/// message is sent.
pub(crate) fn hand_in_group<S: Stream>(
    stream: S,
    buffer: &mut ReplyBuffer,
    body: Body,
    path: &Address,
    message: &[u8],
) -> (S, Result<(), HandInFault>)
    ensures { TurnsOver S.Source S.Drain stream result.0
        (AsksGroup (group_text body path.now) message.now) buffer.old buffer.new
        (fault_said result.1) }
{
    let group = CommandLine::group(body, path);
    ask_group(stream, buffer, group.bytes(), message)
}

/// As [`hand_in_group`], with the text of the group.
fn ask_group<S: Stream>(
    stream: S,
    buffer: &mut ReplyBuffer,
    text: &[u8],
    message: &[u8],
) -> (S, Result<(), HandInFault>)
    ensures { TurnsOver S.Source S.Drain stream result.0 (AsksGroup text.now message.now)
        buffer.old buffer.new (fault_said result.1) }
{
    let mut stream = stream;
    match say(&mut stream, text) {
        Ok(()) => follow_up(stream, buffer, message),
        Err(_) => (stream, Err(HandInFault::Unsaid(HandInStep::Sender))),
    }
}

/// Receives the replies to a group, and sends the message if nothing went wrong.
fn follow_up<S: Stream>(
    stream: S,
    buffer: &mut ReplyBuffer,
    message: &[u8],
) -> (S, Result<(), HandInFault>)
    ensures { TurnsOver S.Source S.Drain stream result.0 (HearsGroup message.now)
        buffer.old buffer.new (fault_said result.1) }
{
    let mut ahead = ReadAhead::new(stream);
    let replies = hear_group(&mut ahead, buffer);
    let mut stream = ahead.into_stream();
    let outcome = follow(&mut stream, buffer, replies, message);
    (stream, outcome)
}

/// Sends the message, or an empty one if something went wrong and the server waits for a message.
fn follow<S: Stream>(
    stream: &mut S,
    buffer: &mut ReplyBuffer,
    replies: GroupReplies,
    message: &[u8],
) -> Result<(), HandInFault>
    ensures { TurnsOver S.Source S.Drain stream.old stream.new
        (FollowsGroup replies.fault replies.waits message.now) buffer.old buffer.new
        (fault_said result) }
{
    let GroupReplies { fault, waits } = replies;
    match fault {
        None => ask(stream, buffer, &Command::new(HandInStep::Message, message)),
        Some(fault) if waits => {
            cancel(stream);
            Err(fault)
        }
        Some(fault) => Err(fault),
    }
}

/// Sends the empty message, and receives the reply to it, whatever it is.
fn cancel<S: Stream>(stream: &mut S)
    ensures { (turns : List Turn) × TakesTurns S.Source S.Drain stream.old stream.new turns
        × Cancels turns }
{
    match say(stream, EMPTY_MESSAGE) {
        Ok(()) => pass_over(stream),
        Err(_) => {}
    }
}

/// Receives a reply that changes nothing.
fn pass_over<S: Stream>(stream: &mut S)
    ensures { (turns : List Turn) × TakesTurns S.Source S.Drain stream.old stream.new turns
        × HearsOne turns }
{
    let mut reply = ReplyBuffer::new();
    match hear(stream, &mut reply) {
        Ok(_) => {}
        Err(_) => {}
    }
}
