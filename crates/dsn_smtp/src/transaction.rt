//! A session with a mail server: it begins, submits notices one after another, and ends.
//! Implements RFC 5321 sections 3.1 to 3.3 and docs/postfix-internals.md, "A connection".
//! Nothing is pipelined here (pipelining.rt does that), so bytes behind a reply answer nothing that
//! was sent. If a server sends bytes between two notices, they are read as the reply to MAIL, also
//! to that of a group. Each reply is then one step late, and DATA gets 2yz instead of 3yz. So no
//! reply to another command is taken for the reply to the message.
ghost use Rattle.std.specs.Prelude.{◌≡◌, List, [], ◌∷◌, Some, MatchBool};
ghost use Rattle.dsn_smtp.specs.Body.{body_kind, suffice_for};
ghost use Rattle.dsn_smtp.specs.CommandLine.{recipient_line};
ghost use Rattle.dsn_smtp.specs.Dialogue.{TakesTurns, Turn};
ghost use Rattle.dsn_smtp.specs.HandIn.{AsksAll, Greets, GreetsWith, Leaves, Listens, SaysGoodbye, TurnsOver, commands_in, commands_of, fault_said};

use crate::body::Body;
use crate::command::Command;
use crate::command_line::{CommandLine, DATA_LINE, QUIT_LINE};
use crate::dialogue::{hear, say};
use crate::extensions::Extensions;
use crate::hand_in_fault::HandInFault;
use crate::hand_in_step::HandInStep;
use crate::reply_buffer::ReplyBuffer;
use dsn_device::Stream;
use dsn_text::{Address, MtaName};

/// Begins a session over a new connection. Receives the server's greeting, sends EHLO with `host`
/// as the client's name, and receives the reply (RFC 5321 section 3.2). Returns the first step that
/// went wrong. Time limits are the stream's: one that expires is a failure of the device, here and
/// in the calls below.
pub fn greet<S: Stream>(
    stream: &mut S,
    buffer: &mut ReplyBuffer,
    host: &MtaName,
) -> Result<(), HandInFault>
    ensures { TurnsOver S.Source S.Drain stream.old stream.new (Greets host.now) buffer.old
        buffer.new (fault_said result) }
{
    let line = CommandLine::hello(host);
    greet_with(stream, buffer, line.bytes())
}

/// As [`greet`], with the line for EHLO.
fn greet_with<S: Stream>(
    stream: &mut S,
    buffer: &mut ReplyBuffer,
    line: &[u8],
) -> Result<(), HandInFault>
    ensures { TurnsOver S.Source S.Drain stream.old stream.new (GreetsWith line.now) buffer.old
        buffer.new (fault_said result) }
{
    listen(stream, buffer, HandInStep::Greeting)?;
    ask(stream, buffer, &Command::new(HandInStep::Hello, line))
}

/// Submits one notice to a mail server in one transaction from the null sender (RFC 5321 section
/// 3.3). Requires a session that was begun, and in which nothing went wrong so far. Sends each
/// command only after the reply before it was received, and nothing more after a reply that isn't
/// wanted. `message` has its leading dots doubled, and ends with the line of one dot.
/// Returns the first step that went wrong. If the server accepted the notice, the buffer holds the
/// reply to the message. If the server's extensions don't allow the message's bytes, nothing is
/// sent, and the result is `NotOffered`; the buffer then holds no reply.
pub fn hand_in_notice<S: Stream>(
    stream: &mut S,
    buffer: &mut ReplyBuffer,
    extensions: Extensions,
    path: &Address,
    message: &[u8],
) -> Result<(), HandInFault>
    ensures { MatchBool (suffice_for extensions (body_kind message.now))
        (TurnsOver S.Source S.Drain stream.old stream.new (AsksAll (commands_of path.now message.now))
        buffer.old buffer.new (fault_said result))
        ((stream.new ≡ stream.old) × ((buffer.new ≡ [])
        × (fault_said result ≡ Some HandInFault.NotOffered))) }
{
    let body = Body::of(message);
    if !extensions.suffice_for(body) {
        *buffer = ReplyBuffer::new();
        return Err(HandInFault::NotOffered);
    }
    hand_in_one_by_one(stream, buffer, body, path, message)
}

/// As [`hand_in_notice`], with the kind of the message's bytes. Requires that the server offers what
/// it needs.
pub(crate) fn hand_in_one_by_one<S: Stream>(
    stream: &mut S,
    buffer: &mut ReplyBuffer,
    body: Body,
    path: &Address,
    message: &[u8],
) -> Result<(), HandInFault>
    ensures { TurnsOver S.Source S.Drain stream.old stream.new
        (AsksAll (commands_in body (recipient_line path.now) message.now)) buffer.old buffer.new
        (fault_said result) }
{
    let recipient = CommandLine::recipient(path);
    hand_in_with(stream, buffer, body, recipient.bytes(), message)
}

/// As [`hand_in_one_by_one`], with the line for RCPT.
fn hand_in_with<'a, S: Stream>(
    stream: &mut S,
    buffer: &mut ReplyBuffer,
    body: Body,
    recipient: &'a [u8],
    message: &'a [u8],
) -> Result<(), HandInFault>
    ensures { TurnsOver S.Source S.Drain stream.old stream.new
        (AsksAll (commands_in body recipient.now message.now)) buffer.old buffer.new
        (fault_said result) }
{
    let commands = commands_for(body, recipient, message);
    ask_all(stream, buffer, &commands)
}

/// The commands of a transaction, in their order.
fn commands_for<'a>(body: Body, recipient: &'a [u8], message: &'a [u8]) -> [Command<'a>; 4]
    ensures { result ≡ commands_in body recipient.now message.now }
{
    [
        Command::new(HandInStep::Sender, body.sender_line()),
        Command::new(HandInStep::Recipient, recipient),
        Command::new(HandInStep::Data, DATA_LINE),
        Command::new(HandInStep::Message, message),
    ]
}

/// Ends a session after the outcome of its last step. Sends QUIT, unless the device failed. Doesn't
/// wait for the reply, although RFC 5321 section 4.1.1.10 says that a client should: nothing
/// depends on it.
pub fn leave<S: Stream>(stream: &mut S, outcome: &Result<(), HandInFault>)
    ensures { (turns : List Turn) × TakesTurns S.Source S.Drain stream.old stream.new turns
        × Leaves (fault_said outcome.now) turns }
{
    match outcome {
        Err(fault) if fault.is_broken() => {}
        // The log is removed after the message's 250. If this waited for the 221 first, a process
        // killed meanwhile would send the notice twice. Postfix's smtp(8) doesn't wait either
        // (`smtp_skip_quit_response`).
        _ => say_goodbye(stream),
    }
}

/// Sends QUIT. Whether that succeeds changes nothing.
fn say_goodbye<S: Stream>(stream: &mut S)
    ensures { (turns : List Turn) × TakesTurns S.Source S.Drain stream.old stream.new turns
        × SaysGoodbye turns }
{
    match say(stream, QUIT_LINE) {
        Ok(()) => {}
        Err(_) => {}
    }
}

/// Sends commands in their order, and receives the reply to each. Stops at the first that fails.
fn ask_all<S: Stream>(
    stream: &mut S,
    buffer: &mut ReplyBuffer,
    commands: &[Command<'_>],
) -> Result<(), HandInFault>
    ensures { TurnsOver S.Source S.Drain stream.old stream.new (AsksAll commands.now) buffer.old
        buffer.new (fault_said result) }
{
    for command in commands {
        ask(stream, buffer, command)?;
    }
    Ok(())
}

/// Sends a command, and receives its reply, which must be of the class that the step wants.
pub(crate) fn ask<S: Stream>(
    stream: &mut S,
    buffer: &mut ReplyBuffer,
    command: &Command<'_>,
) -> Result<(), HandInFault>
    ensures { TurnsOver S.Source S.Drain stream.old stream.new (AsksAll (command.now ∷ []))
        buffer.old buffer.new (fault_said result) }
{
    match say(stream, command.text()) {
        Ok(()) => listen(stream, buffer, command.step()),
        Err(_) => Err(HandInFault::Unsaid(command.step())),
    }
}

/// Receives a reply at a step, which must be of the class that the step wants.
fn listen<S: Stream>(
    stream: &mut S,
    buffer: &mut ReplyBuffer,
    step: HandInStep,
) -> Result<(), HandInFault>
    ensures { TurnsOver S.Source S.Drain stream.old stream.new (Listens step (AsksAll []))
        buffer.old buffer.new (fault_said result) }
{
    match hear(stream, buffer) {
        Ok(code) if step.wants(code.class()) => Ok(()),
        Ok(code) => Err(HandInFault::Refused(step, code)),
        Err(fault) => Err(HandInFault::Unheard(step, fault)),
    }
}
