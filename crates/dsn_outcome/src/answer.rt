//! The daemon's answers to a delivery agent.
//! Implements noticed-protocol(5).
ghost use Rattle.std.specs.Prelude.{◌≡◌};
ghost use Rattle.dsn_outcome.specs.History.{replied_in};

use crate::lane_item::Carried;

/// The result of a request. A number is the count of outcomes that the log held before the request.
#[derive(Clone, Copy, Debug, PartialEq, Eq)]
pub enum Reply {
    /// The outcome is logged; the number is how many outcomes precede it in its log.
    Logged(u32),
    /// The log is closed: it was flushed or discarded, and its key has not been forgotten since.
    /// Nothing changed.
    Closed,
    /// The table of logs has no room for a new key; nothing changed.
    TableFull,
    /// The log holds as many outcomes as a log can; nothing changed.
    LogFull,
    /// The log was empty, so no notice is made; the log is closed now.
    Nothing,
    /// The return path is null, so no notice is made of these outcomes; the log is closed now.
    NoReturn(u32),
    /// A notice of these outcomes is made; the log is closed now.
    Sealed(u32),
    /// These outcomes were dropped; the log is closed now.
    Discarded(u32),
    /// The agent left with `Bye`.
    Gone,
    /// The log was closed; its key is released.
    Forgotten,
    /// There is no closed log of this key to forget: the log is open, or the key is not held.
    /// Nothing changed.
    NotClosed,
    /// The number of outcomes in the log differs from the expected one; nothing changed.
    Differs(u32),
}

/// A reply, and the serial of the notice that it reports.
#[derive(Clone, Copy, Debug, PartialEq, Eq)]
pub struct Replied {
    /// The result of the request.
    pub reply: Reply,
    /// The serial of the letter that the request sealed, if it sealed one:
    /// [`Letter::serial`](crate::Letter::serial).
    pub serial: Option<u64>,
}

/// A reply with the agent and the number of the request that it answers.
#[derive(Clone, Copy, Debug, PartialEq, Eq)]
pub struct Answer {
    /// The agent that asked, from 0.
    pub agent: u32,
    /// How many requests of that agent were accepted before this one.
    pub number: u32,
    /// The result of the request.
    pub reply: Reply,
    /// The serial of the letter that the request sealed, if it sealed one. It is in the notice's
    /// Message-ID.
    pub serial: Option<u64>,
}

impl Answer {
    /// The reply and the serial, without agent and number.
    pub fn replied(&self) -> Replied
        ensures { result ≡ replied_in self.now }
    {
        Replied {
            reply: self.reply,
            serial: self.serial,
        }
    }
}

impl Carried for Answer {
    ghost agent = { λ answer. answer.agent };

    ghost number = { λ answer. answer.number };

    fn agent(&self) -> u32 {
        self.agent
    }

    fn number(&self) -> u32 {
        self.number
    }
}
