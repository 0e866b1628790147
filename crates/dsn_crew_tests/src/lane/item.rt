//! A small item.
ghost use Rattle.std.specs.Prelude.{◌≡◌};

use dsn_crew::LaneIn;
use dsn_outcome::Carried;
use std::sync::Wait;

/// An item that is its agent and its number.
#[derive(Clone, Copy)]
pub struct Item {
    pub agent: u32,
    pub number: u32,
}

impl Carried for Item {
    ghost agent = { λ item. item.agent };

    ghost number = { λ item. item.number };

    fn agent(&self) -> u32 {
        self.agent
    }

    fn number(&self) -> u32 {
        self.number
    }
}

/// Sends the next item of an agent; false where the receiving half is gone.
pub(crate) fn send_next(rt: &impl Wait, half: &mut LaneIn<Item>, agent: u32) -> bool
    requires { agent ≡ half.old.agent }
    ensures { (half.new.lane ≡ half.old.lane) × (half.new.agent ≡ half.old.agent) }
{
    let number = half.count();
    number < u32::MAX && half.send(rt, Item { agent, number }).is_ok()
}

/// Sends `more` items of an agent, one after another.
pub(crate) fn send_many(rt: &impl Wait, half: &mut LaneIn<Item>, agent: u32, more: u32) -> bool
    requires { agent ≡ half.old.agent }
    ensures { (half.new.lane ≡ half.old.lane) × (half.new.agent ≡ half.old.agent) }
{
    for _ in 0..more {
        if !send_next(rt, half, agent) {
            return false;
        }
    }
    true
}

/// The agent and the number of an item.
pub(crate) type Sent = (u32, u32);
