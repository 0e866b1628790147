//! The replies to a group of commands that were sent by one text.
//! Implements RFC 2920 section 3.1.
ghost use Rattle.std.specs.Prelude.{◌≡◌, ◌∷◌, [], false, IfErr, IfOk, OnErr};
ghost use Rattle.dsn_smtp.specs.Pipelining.{group_steps};
ghost use Rattle.dsn_smtp.specs.inner.GroupReplies.{HearsNoMore, HearsReplies, HearsReply, with_refusal};

use crate::hand_in_fault::HandInFault;
use crate::hand_in_step::HandInStep;
use crate::read_ahead::ReadAhead;
use crate::reply_buffer::ReplyBuffer;
use crate::reply_code::ReplyCode;
use crate::reply_fault::ReplyFault;
use dsn_device::Source;

/// What the replies to a group of commands say.
#[derive(Clone, Copy)]
pub(crate) struct GroupReplies {
    /// The first step that went wrong.
    pub(crate) fault: Option<HandInFault>,
    /// Whether the server waits for a message.
    pub(crate) waits: bool,
}

/// Receives the replies to MAIL, RCPT and DATA. If one isn't wanted, the buffer holds the first
/// such reply.
pub(crate) fn hear_group<S: Source>(
    ahead: &mut ReadAhead<S>,
    buffer: &mut ReplyBuffer,
) -> GroupReplies
    ensures replies { HearsReplies S.Source ahead.old ahead.new group_steps result }
    ensures none { ahead.new.ahead ≡ [] }
{
    match hear_one(ahead, buffer) {
        Ok(code) if HandInStep::Sender.wants(code.class()) => hear_after_sender(ahead, buffer),
        Ok(code) => {
            let later = hear_after_sender(ahead, &mut ReplyBuffer::new());
            refused(HandInStep::Sender, code, later)
        }
        Err(why) => missing(HandInStep::Sender, why),
    }
}

/// Receives the replies to RCPT and DATA.
fn hear_after_sender<S: Source>(ahead: &mut ReadAhead<S>, buffer: &mut ReplyBuffer) -> GroupReplies
    ensures replies { HearsReplies S.Source ahead.old ahead.new
        (HandInStep.Recipient ∷ HandInStep.Data ∷ []) result }
    ensures none { ahead.new.ahead ≡ [] }
{
    match hear_one(ahead, buffer) {
        Ok(code) if HandInStep::Recipient.wants(code.class()) => hear_data(ahead, buffer),
        Ok(code) => {
            let later = hear_data(ahead, &mut ReplyBuffer::new());
            refused(HandInStep::Recipient, code, later)
        }
        Err(why) => missing(HandInStep::Recipient, why),
    }
}

/// Receives the reply to DATA. Nothing may follow it.
fn hear_data<S: Source>(ahead: &mut ReadAhead<S>, buffer: &mut ReplyBuffer) -> GroupReplies
    ensures replies { HearsReplies S.Source ahead.old ahead.new (HandInStep.Data ∷ []) result }
    ensures none { ahead.new.ahead ≡ [] }
{
    match hear_last(ahead, buffer) {
        Ok(code) if HandInStep::Data.wants(code.class()) => GroupReplies {
            fault: None,
            waits: true,
        },
        Ok(code) => GroupReplies {
            fault: Some(HandInFault::Refused(HandInStep::Data, code)),
            waits: false,
        },
        Err(why) => missing(HandInStep::Data, why),
    }
}

/// What replies say if the one at this step isn't wanted, and these follow it.
fn refused(step: HandInStep, code: ReplyCode, later: GroupReplies) -> GroupReplies
    ensures { result ≡ with_refusal step code later }
{
    GroupReplies {
        fault: Some(HandInFault::Refused(step, code)),
        waits: later.waits,
    }
}

/// What replies say if the one at this step is missing.
fn missing(step: HandInStep, why: ReplyFault) -> GroupReplies
    ensures { result ≡ record { fault = Some (HandInFault.Unheard step why); waits = false } }
{
    GroupReplies {
        fault: Some(HandInFault::Unheard(step, why)),
        waits: false,
    }
}

/// Receives the last reply of a group: bytes behind it are a fault, `Trailing`.
fn hear_last<S: Source>(
    ahead: &mut ReadAhead<S>,
    buffer: &mut ReplyBuffer,
) -> Result<ReplyCode, ReplyFault>
    ensures heard { IfOk result
        (λ code. HearsReply S.Source ahead.old ahead.new code buffer.new) }
    ensures missing { IfErr result (λ why. HearsNoMore S.Source ahead.old ahead.new why) }
    ensures none { ahead.new.ahead ≡ [] }
{
    match hear_one(ahead, buffer) {
        Ok(code) if ahead.is_empty() => Ok(code),
        Ok(_) => {
            ahead.clear();
            Err(ReplyFault::Trailing)
        }
        Err(why) => Err(why),
    }
}

/// Receives one reply, which others may follow.
fn hear_one<S: Source>(
    ahead: &mut ReadAhead<S>,
    buffer: &mut ReplyBuffer,
) -> Result<ReplyCode, ReplyFault>
    ensures heard { IfOk result
        (λ code. HearsReply S.Source ahead.old ahead.new code buffer.new) }
    ensures missing { IfErr result (λ why. HearsNoMore S.Source ahead.old ahead.new why) }
    ensures none { OnErr result (ahead.new.ahead ≡ []) }
{
    match buffer.read_next(ahead) {
        Ok(code) => Ok(code),
        Err(why) => {
            ahead.clear();
            Err(why)
        }
    }
}
