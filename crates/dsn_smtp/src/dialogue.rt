//! The two turns of a dialogue with a mail server: a reply is received, or a text is sent.
ghost use Rattle.std.specs.Prelude.{◌≡◌, [], IfOk, IfErr, OnOk, OnErr};
ghost use Rattle.dsn_smtp.specs.Dialogue.{TakesTurn, Heard, HeardNone, Said, SaidPart};

use crate::reply_buffer::ReplyBuffer;
use crate::reply_code::ReplyCode;
use crate::reply_fault::ReplyFault;
use dsn_device::{Broken, Stream, send};

/// Receives one reply, as [`ReplyBuffer::read_next`] reads it, and returns its code. The buffer
/// then holds the reply.
pub(crate) fn hear<S: Stream>(
    stream: &mut S,
    buffer: &mut ReplyBuffer,
) -> Result<ReplyCode, ReplyFault>
    ensures heard { IfOk result
        (λ code. TakesTurn S.Source S.Drain stream.old stream.new (Heard code buffer.new)) }
    ensures none { IfErr result
        (λ fault. TakesTurn S.Source S.Drain stream.old stream.new (HeardNone fault)) }
{
    buffer.read_next(stream)
}

/// Sends a text: writes all of it, and flushes once. Returns `Broken` if the device failed within
/// the text or at the flush.
pub fn say<S: Stream>(stream: &mut S, text: &[u8]) -> Result<(), Broken>
    ensures said { OnOk result (TakesTurn S.Source S.Drain stream.old stream.new (Said text.now)) }
    ensures part { OnErr result
        (TakesTurn S.Source S.Drain stream.old stream.new (SaidPart text.now)) }
{
    send(stream, text)?;
    stream.flush()
}
