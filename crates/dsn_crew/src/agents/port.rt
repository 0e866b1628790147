//! The source of an agent's connections.
ghost use Rattle.std.specs.Prelude.{◌≡◌};
ghost use Rattle.dsn_crew.specs.agents.Port.{Gives, GivesFirst, connection, given_of};

use crate::agents::next_connection::Next;
use dsn_device::Stream;

/// The source of the connections that an agent serves, one after another: a listening socket, say.
///
/// A port may expose its connections to contracts, and a port in memory does: it then gives these,
/// and is done once none is left. A port that doesn't expose them promises nothing about their
/// bytes.
///
/// Each port says what it may give from here on: lists of answers, each of which is a connection,
/// that it is done, or that it failed. A port over a socket may give a number of connections, say.
/// A port that promises nothing may give anything.
///
/// A port isn't asked again once it was done or failed. It may restrict when it can be asked
/// (`may_be_asked`), but has to allow it after each connection, when an agent asks next. By default
/// it can be asked at any time.
pub trait Port {
    ghost use Rattle.std.specs.Prelude.{List, Option};
    ghost use Rattle.dsn_crew.specs.agents.Port.{Conn, Given};

    /// A connection. It goes to the agent's thread with its port.
    type Stream: Stream + Drop + Send;

    // The connections that it will give from here on, if they are known.
    ghost conns: { Self → Option (List Conn) };

    // Whether it may give these answers, one after another, from here on.
    // A list of what was given would say no more, and each port would have to carry it through the
    // threads to the account.
    ghost may_give: { Self → List Given → Type 0 };

    // Whether it may be asked for its next connection.
    // A leave, like `can_next` of std's `Iterator`. A list of all calls would burden whoever writes
    // a port, and the port is gone when the list could be read.
    ghost may_be_asked: { Self → Type 0 } = { λ _. Unit {0} };

    /// The next connection.
    fn next(&mut self) -> Next<Self::Stream>
        requires asked { may_be_asked self.old }
        ensures told { Gives Self.Stream.Source (conns self.old) (conns self.new) result }
        ensures given { GivesFirst (may_give self.old) (may_give self.new) (given_of result) }
        ensures goes_on { given_of result ≡ connection → may_be_asked self.new };
}
