//! Receives a list over a stream.
ghost use Rattle.std.specs.Prelude.{IfErr, IfOk};
ghost use Rattle.dsn_postfix.specs.ListDialogue.{HearsList, HearsNoList};

use crate::list_buffer::ListBuffer;
use crate::list_fault::ListFault;
use dsn_device::Stream;
use std::alloc::Global;

/// Receives a list, as [`ListBuffer::read_next`] reads it.
pub fn hear_list<S: Stream>(alloc: Global, stream: &mut S) -> Result<Vec<u8>, ListFault>
    ensures heard { IfOk result (λ list. HearsList S.Source stream.old stream.new list.items) }
    ensures none { IfErr result (λ fault. HearsNoList S.Source stream.old stream.new fault) }
{
    let mut buffer = ListBuffer::new(alloc);
    match buffer.read_next(stream) {
        Ok(()) => {}
        Err(fault) => return Err(fault),
    }
    let Some(list) = buffer.into_list() else {
        unreachable!()
    };
    Ok(list)
}
