//! A Postfix's queues for a preview: what a request would do is written down, and nothing is done.
ghost use Rattle.std.specs.Prelude.{None};

use crate::queue_folder::ascii::ascii_text;
use crate::queue_folder::log_file::{has_bytes, is_there, read_whole};
use crate::queue_folder::notice_words::{FAILURE_NOTICE, notice_kind};
use crate::queue_folder::queue_files::{log_path, path_of, reported_change};
use crate::queue_folder::queue_folder::QueueFolder;
use dsn_postfix::{PostfixRequest, QueueName};
use dsn_postfix_notices::{
    DeedFault, MailSystem, PassReason, RequestTerms, ServiceSettings, answer_request,
};
use dsn_smtp::{HandInFault, ReplyBuffer};
use dsn_text::{Address, QueueId, Service, Stamp};
use std::alloc::{AllocError, Global};
use std::fs::File;
use std::io;
use std::io::ErrorKind;

/// A Postfix's queues, of which nothing is changed. Its files are read without a lock. It exposes no
/// deeds to contracts, as [`PostfixSystem`](crate::PostfixSystem) doesn't.
#[derive(Drop)]
pub struct PreviewSystem<'a> {
    rt: &'a HostRuntime,
    queues: &'a QueueFolder<'a>,
    /// What the notices of the request are called.
    kind: &'static str,
    /// What would be done, in lines that end with LF.
    shown: Vec<u8>,
    /// Whether memory for a line was refused.
    is_short: bool,
}

impl<'a> PreviewSystem<'a> {
    /// The queues of this folder, with nothing written down.
    pub fn new(rt: &'a HostRuntime, queues: &'a QueueFolder<'a>) -> PreviewSystem<'a> {
        PreviewSystem {
            rt,
            queues,
            kind: FAILURE_NOTICE,
            shown: Vec::new(rt.alloc()),
            is_short: false,
        }
    }

    /// The queue in which a message's file is, if it is in one of these.
    pub fn queue_of<'q>(
        &self,
        queues: &'q [QueueName<'q>],
        id: QueueId,
    ) -> io::Result<Option<&'q QueueName<'q>>> {
        for queue in queues {
            let path = path_of(self.rt, self.queues, queue.bytes(), id)?;
            if is_there(self.rt, path.as_str())? {
                return Ok(Some(queue));
            }
        }
        Ok(None)
    }

    /// Writes down what the answer to a request about a log would do: each notice after a line with
    /// its recipient, why the request would be passed on, or that nobody is notified. The notices
    /// have the date `now` only if it can't be known when the log was last changed.
    pub fn preview(
        &mut self,
        settings: &ServiceSettings<'_>,
        service: Service,
        now: Stamp,
        request: &PostfixRequest<'_>,
    ) {
        let terms = RequestTerms {
            settings: &*settings,
            service,
            moment: self.begin(service, request).unwrap_or(now),
            first_serial: 0,
        };
        let before = self.shown.len();
        let answered = answer_request(self.rt.alloc(), &terms, request, b"", self);
        self.is_short |= answered.is_err();
        if self.shown.len() == before {
            let line = format!(in self.rt.alloc(); "{}: nobody is notified", self.kind);
            self.say_made(line);
        }
    }

    /// What was written down, in lines that end with LF. Returns an error if memory for it was
    /// refused.
    pub fn into_lines(self) -> Result<Vec<u8>, AllocError> {
        if self.is_short {
            return Err(AllocError);
        }
        Ok(self.shown)
    }

    /// Writes a line down.
    fn say(&mut self, line: &[u8]) {
        let said = self
            .shown
            .extend_from_slice(line)
            .and_then(|()| self.shown.push(b'\n').map_err(|_| AllocError));
        self.is_short |= said.is_err();
    }

    /// Writes a line down that was made, unless memory for it was refused.
    fn say_made(&mut self, made: Result<String, AllocError>) {
        match made {
            Ok(line) => self.say(line.as_bytes()),
            Err(_) => self.is_short = true,
        }
    }

    /// The bytes of a file. Returns `None` if there is none, and writes an error down.
    fn read(&mut self, path: io::Result<String>) -> Result<Option<Vec<u8>>, DeedFault> {
        let read = match path {
            Ok(path) => read_there(self.rt, path.as_str()),
            Err(error) => Err(error),
        };
        match read {
            Ok(bytes) => Ok(bytes),
            Err(error) if error.kind() == ErrorKind::OutOfMemory => Err(DeedFault::NoMemory),
            Err(error) => {
                let line = format!(in self.rt.alloc(); "{}: {error}", self.kind);
                self.say_made(line);
                Err(DeedFault::Failed)
            }
        }
    }
}

/// The bytes of the file at a path. Returns `None` if there is no file.
fn read_there(rt: &HostRuntime, path: &str) -> io::Result<Option<Vec<u8>>> {
    match File::open(rt, path) {
        Ok(file) => Ok(Some(read_whole(rt, &file)?)),
        Err(error) if error.kind() == ErrorKind::NotFound => Ok(None),
        Err(error) => Err(error),
    }
}

impl MailSystem for PreviewSystem<'_> {
    ghost deeds = { λ _. None };

    fn begin(&mut self, service: Service, request: &PostfixRequest<'_>) -> Option<Stamp> {
        self.kind = notice_kind(request);
        reported_change(self.rt, self.queues, service, request)
    }

    fn has_log(&mut self, service: Service, id: QueueId) -> Result<bool, DeedFault> {
        match log_path(self.rt, self.queues, service, id) {
            Ok(path) => has_bytes(self.rt, path.as_str()).map_err(|_| DeedFault::Failed),
            Err(_) => Err(DeedFault::Failed),
        }
    }

    fn read_log(
        &mut self,
        _alloc: Global,
        service: Service,
        id: QueueId,
    ) -> Result<Option<Vec<u8>>, DeedFault> {
        self.read(log_path(self.rt, self.queues, service, id))
    }

    fn append_to_log(
        &mut self,
        _service: Service,
        _id: QueueId,
        _bytes: &[u8],
    ) -> Result<(), DeedFault> {
        Ok(())
    }

    fn remove_log(&mut self, _service: Service, _id: QueueId) -> Result<(), DeedFault> {
        Ok(())
    }

    fn read_message(
        &mut self,
        _alloc: Global,
        queue: &QueueName<'_>,
        id: QueueId,
    ) -> Result<Vec<u8>, DeedFault> {
        let file = self.read(path_of(self.rt, self.queues, queue.bytes(), id))?;
        Ok(file.unwrap_or(Vec::new(self.rt.alloc())))
    }

    fn hand_in(
        &mut self,
        path: &Address,
        message: &[u8],
        _reply: &mut ReplyBuffer,
    ) -> Result<(), HandInFault> {
        let address = ascii_text(path.bytes());
        let line = format!(in self.rt.alloc(); "{}: to <{address}>\n", self.kind);
        self.say_made(line);
        let lines = message.strip_suffix(b"\n").unwrap_or(message);
        for line in lines.split(|byte| *byte == b'\n') {
            let line = line.strip_suffix(b"\r").unwrap_or(line);
            // The lines of SMTP's data (RFC 5321 section 4.5.2): the last, one dot, becomes an empty
            // line.
            self.say(line.strip_prefix(b".").unwrap_or(line));
        }
        Ok(())
    }

    fn mark_done(
        &mut self,
        _queue: &QueueName<'_>,
        _id: QueueId,
        _place: u64,
    ) -> Result<(), DeedFault> {
        Ok(())
    }

    fn pass_on(
        &mut self,
        _service: Service,
        _request: &[u8],
        why: PassReason,
    ) -> Result<u32, DeedFault> {
        let line = format!(in self.rt.alloc(); "{}: passed on: {why}", self.kind);
        self.say_made(line);
        Ok(0)
    }

    fn release_log(&mut self) {}
}
