//! A port with one connection in memory.
ghost use Rattle.std.specs.Prelude.{None};

use crate::crew::peer::Peer;
use dsn_crew::{Next, Port};
use dsn_device::Plain;

/// A port with one connection in memory, which it doesn't expose to contracts.
#[derive(Drop)]
pub(crate) struct PeerPort {
    peer: Option<Peer>,
}

impl PeerPort {
    /// A port with a connection that asks for `appends` appends, and for agent 0 also for a flush.
    pub(crate) fn new(agent: u32, appends: u32) -> PeerPort {
        PeerPort {
            peer: Some(Peer::new(agent, appends)),
        }
    }
}

impl Port for PeerPort {
    type Stream = Plain<Peer>;

    ghost conns = { λ _. None };

    ghost may_give = { λ _ _. Unit {0} };

    fn next(&mut self) -> Next<Plain<Peer>> {
        match self.peer.take() {
            Some(peer) => Next::Conn(Plain::new(peer)),
            None => Next::Done,
        }
    }
}
