//! A running Postfix as a mail system.
ghost use Rattle.std.specs.Prelude.{None};

use crate::queue_folder::ascii::{ascii_text, asked_text};
use crate::queue_folder::large_files::LargeFiles;
use crate::queue_folder::log_file::{
    append_synced, has_bytes, is_there, open_locked, open_or_make, read_whole, remove_if_there,
    size_of,
};
use crate::queue_folder::message_file::{LARGE, mark_done, open_shared, read_large};
use crate::queue_folder::notice_words::{FAILURE_NOTICE, is_discarded, notice_kind};
use crate::queue_folder::own_service::ask_own_service;
use crate::queue_folder::postfix_setup::PostfixSetup;
use crate::queue_folder::queue_files::{
    log_elsewhere, log_path, own_socket_path, path_of, reported_change,
};
use crate::queue_folder::service_name::service_name;
use dsn_device::{Connection, Plain};
use dsn_event_log::EventLog;
use dsn_postfix::{PostfixRequest, QueueName};
use dsn_postfix_notices::{DeedFault, MailSystem, PassReason, queue_id_of};
use dsn_smtp::{
    HandInFault, KeptSessions, MailConnection, MailServer, ReplyBuffer, Submission, queue_id_in,
};
use dsn_text::{Address, QueueId, Service, Stamp};
use std::alloc::Global;
use std::fmt::Display;
use std::fs::File;
use std::io::{Error, ErrorKind};
use std::os::unix::net::UnixStream;
use std::sync::Wait;
use std::time::{Clock, Duration};
use std::{fs, io};

/// The time limit for each piece of the answer of Postfix's own service, in seconds: that of
/// Postfix's programs (`ipc_timeout` of postconf(5)).
const SECONDS_FOR_OWN_SERVICE: u64 = 3_600;

/// What a line names if a path couldn't be made.
const PATH: &str = "the path of a file";

/// A running Postfix, for one request. It exposes no deeds to contracts, since no contract can
/// describe what a file or a socket does.
#[derive(Drop)]
pub struct PostfixSystem<'a, W> {
    rt: &'a HostRuntime,
    /// What may wait for another thread.
    waiting: &'a W,
    place: &'a PostfixSetup<'a>,
    /// The sessions with the mail server, which all threads share.
    sessions: &'a KeptSessions<MailConnection>,
    /// The turn to hold a large queue file, which all threads share.
    large_files: &'a LargeFiles,
    /// The event log for its lines.
    events: &'a EventLog,
    /// The sender of notices about notices.
    double_bounce: &'a [u8],
    /// Whether this thread has the turn to hold a large queue file.
    has_turn: bool,
    /// The log that was read and is locked.
    log: Option<File>,
    /// The message's file that was read and is locked.
    message: Option<File>,
    /// The queue id of the request's message, for its lines.
    asked: Option<QueueId>,
    /// What the line of a notice calls the notice.
    kind: &'static str,
    /// Whether the request is about a notice that is dropped.
    is_discarded: bool,
}

impl<'a, W> PostfixSystem<'a, W> {
    /// The Postfix that `place` describes.
    pub fn new(
        rt: &'a HostRuntime,
        waiting: &'a W,
        place: &'a PostfixSetup<'a>,
        sessions: &'a KeptSessions<MailConnection>,
        large_files: &'a LargeFiles,
        events: &'a EventLog,
        double_bounce: &'a [u8],
    ) -> PostfixSystem<'a, W> {
        PostfixSystem {
            rt,
            waiting,
            place,
            sessions,
            large_files,
            events,
            double_bounce,
            has_turn: false,
            log: None,
            message: None,
            asked: None,
            kind: FAILURE_NOTICE,
            is_discarded: false,
        }
    }

    /// The queue id of the request's message. Returns `None` if there was no request.
    pub fn asked(&self) -> Option<QueueId> {
        self.asked
    }
}

/// Connects to Postfix's own service of this kind.
fn own_service(
    rt: &HostRuntime,
    place: &PostfixSetup<'_>,
    service: Service,
) -> io::Result<Connection<UnixStream>> {
    let path = own_socket_path(rt.alloc(), place.queues.root, service)?;
    let stream = UnixStream::connect(rt, path.as_str())?;
    let limit = Duration::from_secs(SECONDS_FOR_OWN_SERVICE);
    stream.set_read_timeout(Some(limit))?;
    stream.set_write_timeout(Some(limit))?;
    Ok(Connection::new(stream))
}

impl<W: Wait + Clock> PostfixSystem<'_, W> {
    /// Writes the line of a notice that was accepted, as bounce(8) writes it.
    fn say_notice(&self, reply: &ReplyBuffer) {
        let (Some(told), Some(notice)) = (self.asked, queue_id_in(reply.last_text())) else {
            return;
        };
        let (told, notice) = (ascii_text(told.bytes()), ascii_text(notice.bytes()));
        self.events
            .say(format_args!("{told}: {}: {notice}", self.kind));
    }

    /// Writes the line of a notice that wasn't accepted.
    fn say_refusal(&self, fault: &HandInFault, reply: &ReplyBuffer) {
        let Some(told) = self.asked else {
            return;
        };
        let (told, reply) = (ascii_text(told.bytes()), ascii_text(reply.last_text()));
        self.events.say(format_args!("{told}: notice not accepted: {fault}: {reply}"));
    }

    /// Writes bounce(8)'s line if the request was about a notice that is dropped. Requires that the
    /// request was carried out.
    pub fn say_discarded(&self) {
        if self.is_discarded {
            let asked = asked_text(&self.asked);
            self.events.say(format_args!(
                "warning: {asked}: undeliverable postmaster notification discarded"
            ));
        }
    }

    /// All bytes of a queue file. A large file waits for its turn, and fails if the turn doesn't
    /// come in time.
    fn read_in_turn(&mut self, path: &str, file: &File) -> Result<Vec<u8>, DeedFault> {
        let rt: &HostRuntime = self.rt;
        let size = self.deed(path, size_of(file))?;
        if size <= LARGE {
            return self.deed(path, read_whole(rt, file));
        }
        self.has_turn = self.large_files.take(self.waiting);
        if !self.has_turn {
            return self.deed(path, Err(Error::from(ErrorKind::TimedOut)));
        }
        self.deed(path, read_large(rt, file, size))
    }

    /// Returns the turn to hold a large queue file, if this thread has it.
    pub fn end_turn(&mut self) {
        if self.has_turn {
            self.has_turn = false;
            self.large_files.give_back(self.waiting);
        }
    }

    /// Writes the line of a request that is passed on.
    fn say_passed_on(&self, service: Service, why: &PassReason) {
        let (asked, name) = (asked_text(&self.asked), service_name(service));
        self.events
            .say(format_args!("{asked}: {name}: passed on: {why}"));
    }

    /// Whether a log of a message is where other settings would place it. Writes a line if so,
    /// since no notice reports that log.
    fn has_log_elsewhere(&self, service: Service, id: QueueId) -> Result<bool, DeedFault> {
        let Some(path) = self.deed(
            PATH,
            log_elsewhere(self.rt, &self.place.queues, service, id),
        )?
        else {
            return Ok(false);
        };
        let id = ascii_text(id.bytes());
        self.events.say(format_args!("{id}: a log stands at {path}, where the options have none"));
        Ok(true)
    }

    /// Writes the line of an error about a path, an address or a service.
    fn say_error<D: Display + Drop>(&self, what: D, error: &io::Error) {
        self.events.say(format_args!("{what}: {error}"));
    }

    /// The result of a deed, as requests see it. Writes a line if the deed failed, unless memory
    /// was refused.
    fn deed<T>(&self, what: &str, done: io::Result<T>) -> Result<T, DeedFault> {
        match done {
            Ok(value) => Ok(value),
            Err(error) if error.kind() == ErrorKind::OutOfMemory => Err(DeedFault::NoMemory),
            Err(error) => {
                self.say_error(what, &error);
                Err(DeedFault::Failed)
            }
        }
    }
}

impl<W: Wait + Clock> MailSystem for PostfixSystem<'_, W> {
    ghost deeds = { λ _. None };

    fn begin(&mut self, service: Service, request: &PostfixRequest<'_>) -> Option<Stamp> {
        self.kind = notice_kind(request);
        self.is_discarded = is_discarded(request, self.double_bounce);
        self.asked = Some(queue_id_of(request));
        let place: &PostfixSetup<'_> = self.place;
        reported_change(self.rt, &place.queues, service, request)
    }

    fn has_log(&mut self, service: Service, id: QueueId) -> Result<bool, DeedFault> {
        let (rt, place): (&HostRuntime, &PostfixSetup<'_>) = (self.rt, self.place);
        let path = self.deed(PATH, log_path(rt, &place.queues, service, id))?;
        if self.deed(path.as_str(), has_bytes(rt, path.as_str()))? {
            return Ok(true);
        }
        self.has_log_elsewhere(service, id)?;
        Ok(false)
    }

    fn read_log(
        &mut self,
        _alloc: Global,
        service: Service,
        id: QueueId,
    ) -> Result<Option<Vec<u8>>, DeedFault> {
        let (rt, place): (&HostRuntime, &PostfixSetup<'_>) = (self.rt, self.place);
        self.log = None;
        let path = self.deed(PATH, log_path(rt, &place.queues, service, id))?;
        let Some(file) = self.deed(path.as_str(), open_locked(rt, path.as_str()))? else {
            self.has_log_elsewhere(service, id)?;
            return Ok(None);
        };
        let bytes = self.deed(path.as_str(), read_whole(rt, &file))?;
        self.log = Some(file);
        Ok(Some(bytes))
    }

    fn append_to_log(
        &mut self,
        service: Service,
        id: QueueId,
        bytes: &[u8],
    ) -> Result<(), DeedFault> {
        let (rt, place): (&HostRuntime, &PostfixSetup<'_>) = (self.rt, self.place);
        let path = self.deed(PATH, log_path(rt, &place.queues, service, id))?;
        let is_new = !self.deed(path.as_str(), is_there(rt, path.as_str()))?;
        // The queue manager would find the other log, and never request the notice of a new one.
        if is_new && self.has_log_elsewhere(service, id)? {
            return Err(DeedFault::Failed);
        }
        let file = self.deed(path.as_str(), open_or_make(rt, path.as_str()))?;
        self.deed(path.as_str(), append_synced(&file, bytes))
    }

    fn remove_log(&mut self, service: Service, id: QueueId) -> Result<(), DeedFault> {
        let (rt, place): (&HostRuntime, &PostfixSetup<'_>) = (self.rt, self.place);
        let path = self.deed(PATH, log_path(rt, &place.queues, service, id))?;
        let removed = self.deed(path.as_str(), remove_if_there(rt, path.as_str()));
        self.log = None;
        removed
    }

    fn read_message(
        &mut self,
        _alloc: Global,
        queue: &QueueName<'_>,
        id: QueueId,
    ) -> Result<Vec<u8>, DeedFault> {
        let (rt, place): (&HostRuntime, &PostfixSetup<'_>) = (self.rt, self.place);
        self.message = None;
        self.end_turn();
        let path = self.deed(PATH, path_of(rt, &place.queues, queue.bytes(), id))?;
        let Some(file) = self.deed(path.as_str(), open_shared(rt, path.as_str()))? else {
            // An empty file leads to passing on: bounce(8) reports what it can without the file. An
            // error would put the request off for ever.
            return Ok(Vec::new(rt.alloc()));
        };
        let bytes = self.read_in_turn(path.as_str(), &file)?;
        self.message = Some(file);
        Ok(bytes)
    }

    fn hand_in(
        &mut self,
        path: &Address,
        message: &[u8],
        reply: &mut ReplyBuffer,
    ) -> Result<(), HandInFault> {
        let (rt, place): (&HostRuntime, &PostfixSetup<'_>) = (self.rt, self.place);
        let mut server = MailServer::new(rt, place.hand_in);
        let handed = self.sessions.hand_in(
            self.waiting,
            &mut server,
            place.host,
            &Submission { path, message },
            reply,
        );
        if let Some(error) = &server.unconnected {
            self.say_error(place.hand_in, error);
        }
        match &handed {
            Ok(()) => self.say_notice(reply),
            Err(fault) => self.say_refusal(fault, reply),
        }
        handed
    }

    fn mark_done(
        &mut self,
        _queue: &QueueName<'_>,
        _id: QueueId,
        place: u64,
    ) -> Result<(), DeedFault> {
        let rt: &HostRuntime = self.rt;
        match &self.message {
            Some(file) => self.deed("a recipient's record", mark_done(file, place)),
            None => Err(DeedFault::Failed),
        }
    }

    fn pass_on(
        &mut self,
        service: Service,
        request: &[u8],
        why: PassReason,
    ) -> Result<u32, DeedFault> {
        self.say_passed_on(service, &why);
        // That service writes the line itself.
        self.is_discarded = false;
        let (rt, place): (&HostRuntime, &PostfixSetup<'_>) = (self.rt, self.place);
        let connected = own_service(rt, place, service);
        let mut stream = Plain::new(self.deed(service_name(service), connected)?);
        ask_own_service(rt.alloc(), &mut stream, request)
    }

    fn release_log(&mut self) {
        self.log = None;
        self.message = None;
        self.end_turn();
    }
}
