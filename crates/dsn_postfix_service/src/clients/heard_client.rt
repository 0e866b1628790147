//! Receives a client's list, before anything is done for it.
//! Implements docs/postfix-internals.md, "A connection".
ghost use Rattle.std.specs.Prelude.{IfErr, IfOk, OnOk};
ghost use Rattle.dsn_postfix.specs.PostfixAnswer.{announcement_bytes};
ghost use Rattle.dsn_postfix_service.specs.clients.HeardClient.{HearsClient, HearsNoClient, IsUnannounced};
ghost use Rattle.dsn_smtp.specs.Dialogue.{Says};

use crate::clients::client_fault::ClientFault;
use dsn_device::Stream;
use dsn_postfix::{encode_announcement, hear_list};
use dsn_smtp::say;
use std::alloc::Global;

/// One of Postfix's programs, whose list was received. Nothing was done for it so far.
#[derive(Debug, Drop)]
pub struct HeardClient<S> {
    /// The connection over which it receives its status.
    pub stream: S,
    /// The list that it sent.
    pub list: Vec<u8>,
}

/// Announces the protocol to one of Postfix's programs, which has connected to a service, and reads
/// one list. Returns `NoMemory` or `Unannounced` if the announcement failed, and `NoList` if no
/// list was read. After a fault the connection is dropped.
pub fn hear_client<S: Stream + Drop>(
    alloc: Global,
    stream: S,
) -> Result<HeardClient<S>, ClientFault>
    ensures heard { IfOk result
        (λ client. HearsClient S.Source S.Drain stream client.stream client.list.items) }
    ensures none { IfErr result (λ fault. HearsNoClient S.Source S.Drain stream fault) }
{
    let mut stream = stream;
    match announce(alloc, &mut stream) {
        Ok(()) => {}
        Err(fault) => return Err(fault),
    }
    match hear_list(alloc, &mut stream) {
        Ok(list) => Ok(HeardClient { stream, list }),
        Err(fault) => Err(ClientFault::NoList(fault)),
    }
}

fn announce<S: Stream>(alloc: Global, stream: &mut S) -> Result<(), ClientFault>
    ensures said { OnOk result (Says S.Drain stream.old stream.new announcement_bytes) }
    ensures unsaid { IfErr result (IsUnannounced S.Drain stream.old stream.new) }
{
    let Ok(bytes) = encode_announcement(alloc) else {
        return Err(ClientFault::NoMemory);
    };
    match say(stream, &bytes) {
        Ok(()) => Ok(()),
        Err(_) => Err(ClientFault::Unannounced),
    }
}
