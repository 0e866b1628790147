//! What the threads that serve a Postfix share.
use crate::serving::service_queue::ServiceQueue;
use dsn_event_log::EventLog;
use dsn_postfix_notices::ServiceSettings;
use dsn_postfix_queue::{LargeFiles, PostfixSetup};
use dsn_smtp::{KeptSessions, MailConnection};
use dsn_text::Service;
use std::alloc::{AllocError, Global};
use std::sync::atomic::{AtomicBool, AtomicU64, Ordering};
use std::sync::{Arc, Wait};

/// The first serial of a request without a log, and the distance between two of these. They lie
/// between the serials of logs, which begin at multiples of 500,000.
const FIRST_SERIAL: u64 = 750_000;

const SERIALS: u64 = 1_000_000;

/// What all threads share.
#[derive(Drop)]
pub(super) struct PostfixShare<'a> {
    /// The Postfix that is served.
    pub(super) place: PostfixSetup<'a>,
    /// The settings that its notices depend on.
    pub(super) settings: ServiceSettings<'a>,
    /// The sessions with its mail server.
    pub(super) sessions: KeptSessions<MailConnection>,
    /// The turn to hold a large queue file.
    pub(super) large_files: LargeFiles,
    /// The event log.
    pub(super) events: Arc<EventLog, Global>,
    /// The clients of each service that wait for a thread that makes notices.
    bounce: ServiceQueue<'a>,
    defer: ServiceQueue<'a>,
    trace: ServiceQueue<'a>,
    /// The serial of the next request's notice, if that request has no log.
    serial: AtomicU64,
    /// Whether the run must end, since a service has no thread.
    ending: AtomicBool,
    /// Whether the last accept failed.
    accept_failed: AtomicBool,
}

impl<'a> PostfixShare<'a> {
    /// What is shared when the threads of this Postfix start. Returns an error if memory was
    /// refused.
    pub(super) fn new<R: Wait>(
        alloc: Global,
        waiting: &R,
        place: PostfixSetup<'a>,
        settings: ServiceSettings<'a>,
        events: Arc<EventLog, Global>,
    ) -> Result<PostfixShare<'a>, AllocError> {
        Ok(PostfixShare {
            place,
            settings,
            sessions: KeptSessions::new(alloc, waiting)?,
            large_files: LargeFiles::new(alloc, waiting)?,
            events,
            bounce: ServiceQueue::new(alloc)?,
            defer: ServiceQueue::new(alloc)?,
            trace: ServiceQueue::new(alloc)?,
            serial: AtomicU64::new(FIRST_SERIAL),
            ending: AtomicBool::new(false),
            accept_failed: AtomicBool::new(false),
        })
    }

    /// The waiting clients of a service.
    pub(super) fn queue(&self, service: Service) -> &ServiceQueue<'a> {
        match service {
            Service::Bounce => &self.bounce,
            Service::Defer => &self.defer,
            Service::Trace => &self.trace,
        }
    }

    /// The serial of the notice of a request without a log, which no other request gets.
    pub(super) fn next_serial(&self) -> u64 {
        self.serial.fetch_add(SERIALS, Ordering::SeqCst)
    }

    /// Ends the run, and wakes the threads that wait for a client.
    pub(super) fn end<R: Wait>(&self, waiting: &R) {
        self.ending.store(true, Ordering::SeqCst);
        for service in [Service::Bounce, Service::Defer, Service::Trace] {
            self.queue(service).end_one(waiting);
        }
    }

    /// Whether the run must end.
    pub(super) fn is_ending(&self) -> bool {
        self.ending.load(Ordering::SeqCst)
    }

    /// Notes that an accept succeeded.
    pub(super) fn note_accept(&self) {
        self.accept_failed.store(false, Ordering::SeqCst);
    }

    /// Notes that an accept failed. Returns whether it is the first in a row.
    pub(super) fn note_failed_accept(&self) -> bool {
        !self.accept_failed.swap(true, Ordering::SeqCst)
    }
}
