//! A port over a listening socket.
ghost use Rattle.std.specs.Prelude.{◌≡◌, true, None};
ghost use Rattle.dsn_crew.specs.agents.Port.{GivesFirst, done, given_of};
ghost use Rattle.noticed_lib.specs.daemon.SocketUses.{IsWithin};
ghost use Rattle.noticed_lib.specs.inner.Daemon.{UsesOne};

use crate::daemon::watch::Watch;
use crate::daemon::watched_connection::WatchedConnection;
use dsn_crew::{Next, Port};
use dsn_device::Plain;
use std::io;
use std::io::ErrorKind;
use std::os::unix::net::{UnixListener, UnixStream};

/// A port that accepts connections on a listening socket, up to a number of them, or until its
/// watch finds that the run is to end. If the watch looks up, it does so each second without a
/// client.
///
/// The port exposes to contracts how much comes, and nothing of what comes. Each call takes one of
/// its uses, and it is done exactly with none left, or if its watch ends the run.
#[derive(Drop)]
pub(crate) struct SocketPort<'a, H> {
    pub(crate) listener: &'a UnixListener,
    pub(crate) watch: &'a H,
    /// How many more connections it gives.
    pub(crate) left: u32,
    /// Whether the connection that it gave last has been reported to the watch.
    pub(crate) is_busy: bool,
}

impl<'a, H: Watch> SocketPort<'a, H> {
    /// Whether the run is ending, as the system says now.
    fn is_over(&self) -> bool
        ensures { result ≡ true → H.may_end self.now.watch.now }
    {
        self.watch.look();
        self.watch.is_ending()
    }

    /// Whether an accept ended since its second was over, or since the process was stopped for a
    /// while, which ends each call that has a time limit.
    fn is_tick(&self, error: &io::Error) -> bool {
        self.watch.looks_up()
            && matches!(error.kind(), ErrorKind::WouldBlock | ErrorKind::Interrupted)
    }

    /// What the port answers to a connection that was accepted. In a run that is ending it is let
    /// go, and its client goes to the next daemon. One of an inherited socket is served: its client
    /// sees no difference between two runs.
    fn answer(&self, stream: UnixStream) -> Next<Plain<WatchedConnection<'a, H>>>
        ensures { given_of result ≡ done → H.may_end self.now.watch.now }
    {
        if self.is_over() && !self.watch.is_inherited() {
            self.watch.connection_refused();
            return Next::Done;
        }
        match WatchedConnection::new(stream, self.watch) {
            Ok(connection) => Next::Conn(Plain::new(connection)),
            Err(error) => self.failed(&error),
        }
    }

    /// What the port answers if it could get no connection. An accept is also ended by the end of the
    /// run.
    fn failed(&self, error: &io::Error) -> Next<Plain<WatchedConnection<'a, H>>>
        ensures { given_of result ≡ done → H.may_end self.now.watch.now }
    {
        if self.watch.is_ending() {
            return Next::Done;
        }
        // This agent says goodbye and the others go on. So used up descriptors end all agents in
        // time, and a supervisor starts the daemon anew.
        self.watch.accept_failed(error);
        Next::Failed
    }

    /// Waits for a connection, which takes one of the uses.
    fn accept(&self) -> Next<Plain<WatchedConnection<'a, H>>>
        ensures { given_of result ≡ done → H.may_end self.now.watch.now }
    {
        for _ in 0..u64::MAX {
            if self.is_over() {
                return Next::Done;
            }
            match self.listener.accept() {
                Ok((stream, _)) => return self.answer(stream),
                Err(error) if self.is_tick(&error) => {}
                Err(error) => return self.failed(&error),
            }
        }
        // Not the end of the port: only its uses and the watch make it done, which contracts see.
        self.failed(&io::Error::from(ErrorKind::TimedOut))
    }
}

impl<'a, H: Watch + Sync> Port for SocketPort<'a, H> {
    type Stream = Plain<WatchedConnection<'a, H>>;

    ghost conns = { λ _. None };

    ghost may_give = { λ p. IsWithin (H.may_end p.watch.now) p.left };

    fn next(&mut self) -> Next<Plain<WatchedConnection<'a, H>>>
        ensures given { GivesFirst (IsWithin (H.may_end self.old.watch.now) self.old.left)
            (IsWithin (H.may_end self.new.watch.now) self.new.left) (given_of result) }
        ensures uses { UsesOne (H.may_end self.old.watch.now) self.old.left self.new.left
            (given_of result) }
    {
        if self.is_busy {
            self.is_busy = false;
            self.watch.disconnected();
        }
        if self.left == 0 {
            self.watch.uses_are_over();
            return Next::Done;
        }
        self.left -= 1;
        let next = self.accept();
        if matches!(next, Next::Conn(_)) {
            self.is_busy = true;
            self.watch.connected();
        }
        next
    }
}
