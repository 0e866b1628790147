//! A mail system in memory, which records each operation, and fails at a set one.
ghost use Rattle.std.specs.Prelude.{None};

use crate::texts::{append_all, joined};
use dsn_postfix::{PostfixRequest, QueueName};
use dsn_postfix_notices::{DeedFault, MailSystem, PassReason};
use dsn_smtp::{HandInFault, HandInStep, ReplyBuffer, ReplyFault};
use dsn_text::{Address, QueueId, Service, Stamp};
use std::alloc::Global;

/// A mail system in memory. It reports no operation to contracts.
#[derive(Drop)]
pub(crate) struct MemorySystem<'a> {
    /// The bounce log, if there is one.
    pub(crate) bounce_log: Option<&'a [u8]>,
    /// The log of each other service, if there is one.
    pub(crate) log: Option<&'a [u8]>,
    /// When the log that a request reports was last changed, if that is known.
    pub(crate) changed: Option<Stamp>,
    /// The message's file.
    pub(crate) file: &'a [u8],
    /// The number of operations that succeed before one fails. All later operations succeed.
    pub(crate) well: usize,
    /// The fault of the operation that fails, unless it submits a notice.
    pub(crate) fault: DeedFault,
    /// The fault of the operation that fails, if it submits a notice.
    pub(crate) refusal: HandInFault,
    /// The answer of Postfix's own service.
    pub(crate) status: u32,
    /// A line for each operation, in their order. The line of a request that is passed on has the
    /// letter of its service and its flags. For example, `pass-on D3` is a request to the service
    /// of defer logs with the flags 3 (CLEAN and DELRCPT).
    pub(crate) asked: Vec<u8>,
    /// The notices that were submitted.
    pub(crate) notices: Vec<u8>,
}

impl<'a> MemorySystem<'a> {
    /// The log of a service, if there is one.
    fn log_of(&self, service: Service) -> Option<&'a [u8]> {
        match service {
            Service::Bounce => self.bounce_log,
            Service::Defer | Service::Trace => self.log,
        }
    }

    /// Writes the line of an operation, and says whether the operation succeeds.
    fn goes_well(&mut self, word: &[u8], text: &[u8]) -> bool {
        let written = append_all(&mut self.asked, &[word, b" ", text, b"\n"]).is_ok();
        let well = self.well != 0;
        self.well = if well { self.well - 1 } else { usize::MAX };
        written && well
    }

    /// The result of an operation that returns no value.
    fn done(&mut self, word: &[u8], text: &[u8]) -> Result<(), DeedFault> {
        if self.goes_well(word, text) {
            Ok(())
        } else {
            Err(self.fault)
        }
    }
}

/// A message was sent, and no reply to it could be read.
pub(crate) const UNHEARD: HandInFault = HandInFault::Unheard(HandInStep::Message, ReplyFault::Read);

/// A copy of a text.
fn copied(alloc: Global, text: &[u8]) -> Result<Vec<u8>, DeedFault> {
    match joined(alloc, &[text]) {
        Ok(copy) => Ok(copy),
        Err(_) => Err(DeedFault::NoMemory),
    }
}

/// The flags of a request. They have one digit in these tests.
fn flags_of(request: &[u8]) -> u8 {
    match request.get(b"nrequest\01\0flags\0".len()) {
        Some(digit) => *digit,
        None => b'?',
    }
}

/// The last three digits of a number.
fn digits(number: u64) -> [u8; 3] {
    [
        b'0' + (number / 100 % 10) as u8,
        b'0' + (number / 10 % 10) as u8,
        b'0' + (number % 10) as u8,
    ]
}

impl MailSystem for MemorySystem<'_> {
    ghost deeds = { λ _. None };

    fn begin(&mut self, _service: Service, _request: &PostfixRequest<'_>) -> Option<Stamp> {
        self.changed
    }

    fn has_log(&mut self, service: Service, _id: QueueId) -> Result<bool, DeedFault> {
        self.done(b"seek", &[service.letter()])?;
        match self.log_of(service) {
            Some(log) => Ok(!log.is_empty()),
            None => Ok(false),
        }
    }

    fn read_log(
        &mut self,
        alloc: Global,
        service: Service,
        _id: QueueId,
    ) -> Result<Option<Vec<u8>>, DeedFault> {
        self.done(b"log", &[service.letter()])?;
        match self.log_of(service) {
            Some(log) => Ok(Some(copied(alloc, log)?)),
            None => Ok(None),
        }
    }

    fn append_to_log(
        &mut self,
        _service: Service,
        _id: QueueId,
        bytes: &[u8],
    ) -> Result<(), DeedFault> {
        self.done(b"append", bytes)
    }

    fn remove_log(&mut self, service: Service, _id: QueueId) -> Result<(), DeedFault> {
        self.done(b"remove", &[service.letter()])
    }

    fn read_message(
        &mut self,
        alloc: Global,
        queue: &QueueName<'_>,
        _id: QueueId,
    ) -> Result<Vec<u8>, DeedFault> {
        self.done(b"message", queue.bytes())?;
        copied(alloc, self.file)
    }

    fn hand_in(
        &mut self,
        path: &Address,
        message: &[u8],
        _reply: &mut ReplyBuffer,
    ) -> Result<(), HandInFault> {
        let is_kept = self.notices.extend_from_slice(message).is_ok();
        if self.goes_well(b"hand-in", path.bytes()) && is_kept {
            Ok(())
        } else {
            Err(self.refusal)
        }
    }

    fn mark_done(
        &mut self,
        _queue: &QueueName<'_>,
        _id: QueueId,
        place: u64,
    ) -> Result<(), DeedFault> {
        self.done(b"mark", &digits(place))
    }

    fn pass_on(
        &mut self,
        service: Service,
        request: &[u8],
        _why: PassReason,
    ) -> Result<u32, DeedFault> {
        self.done(b"pass-on", &[service.letter(), flags_of(request)])?;
        Ok(self.status)
    }

    fn release_log(&mut self) {
        let _ = self.goes_well(b"release", b"");
    }
}
