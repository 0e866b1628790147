//! The clients of a service that wait for one of the threads that make notices.
//! Implements docs/postfix-internals.md, "In front of Postfix".
use crate::clients::HeardClient;
use crate::serving::client_connection::ClientConnection;
use crossbeam_channel::{Receiver, Sender, bounded};
use dsn_device::{Connection, Plain};
use std::alloc::{AllocError, Global};
use std::sync::Wait;
use std::sync::atomic::{AtomicBool, AtomicU32, Ordering};
use std::time::{Clock, Duration, Instant};

/// The largest number of clients of a service that wait. Each holds a descriptor, of which a
/// process usually has 1,024.
const MOST_WAITING: usize = 200;

/// How long a client may hold its thread until fewer wait, in seconds.
// The queue manager puts the message of a refused client off for minutes. So while the mail server
// takes notices, further clients wait to be accepted, as with bounce(8). If it takes none, they are
// refused, so that the threads are free for appends.
const SECONDS_FOR_ROOM: u64 = 10;

/// A client whose list was received.
pub(super) type Client<'a> = HeardClient<Plain<Connection<ClientConnection<'a>>>>;

/// A client that waits, and since when.
#[derive(Drop)]
pub(super) struct WaitingClient<'a> {
    pub(super) client: Client<'a>,
    pub(super) since: Instant,
}

/// The waiting clients of a service, in the order in which they came, and the number of clients
/// whose lists are being received.
#[derive(Drop)]
pub(super) struct ServiceQueue<'a> {
    entry: Sender<Option<WaitingClient<'a>>>,
    exit: Receiver<Option<WaitingClient<'a>>>,
    /// How many clients' lists are being received.
    heard: AtomicU32,
    /// Whether a client found no room in time, and none was served since.
    is_stuck: AtomicBool,
}

impl<'a> ServiceQueue<'a> {
    /// An empty queue. Returns an error if memory was refused.
    pub(super) fn new(alloc: Global) -> Result<ServiceQueue<'a>, AllocError> {
        let (entry, exit) = bounded(alloc, MOST_WAITING)?;
        Ok(ServiceQueue {
            entry,
            exit,
            heard: AtomicU32::new(0),
            is_stuck: AtomicBool::new(false),
        })
    }

    /// Adds a client behind all others. Returns it if too many wait, and none of them is served
    /// within ten seconds, or since the last client that was returned.
    pub(super) fn push<R: Wait + Clock>(
        &self,
        waiting: &R,
        client: WaitingClient<'a>,
    ) -> Result<(), WaitingClient<'a>> {
        let is_stuck = self.is_stuck.load(Ordering::SeqCst);
        let limit = Duration::from_secs(if is_stuck { 0 } else { SECONDS_FOR_ROOM });
        let Err(refused) = self.entry.send_timeout(waiting, Some(client), limit) else {
            return Ok(());
        };
        self.is_stuck.store(true, Ordering::SeqCst);
        match refused.into_inner() {
            Some(client) => Err(client),
            None => Ok(()),
        }
    }

    /// Waits for the client that has waited longest. Returns `None` if the run must end.
    pub(super) fn next<R: Wait>(&self, waiting: &R) -> Option<WaitingClient<'a>> {
        let client = self.exit.recv(waiting).ok().flatten();
        self.is_stuck.store(false, Ordering::SeqCst);
        client
    }

    /// Wakes a thread that waits for a client, since the run must end.
    pub(super) fn end_one<R: Wait>(&self, waiting: &R) {
        let _ = self.entry.try_send(waiting, None);
    }

    /// Notes that a client's list is being received. Returns how many others are.
    pub(super) fn begin_hearing(&self) -> u32 {
        self.heard.fetch_add(1, Ordering::SeqCst)
    }

    /// Notes that a client's list is no longer being received.
    pub(super) fn end_hearing(&self) {
        let _ = self.heard.fetch_sub(1, Ordering::SeqCst);
    }
}
