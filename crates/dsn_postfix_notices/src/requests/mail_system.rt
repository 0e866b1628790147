//! All that lies outside of the service: Postfix's files, the mail server to which notices are
//! submitted, and Postfix's own services.
//! A request's effects are calls of one trait. So its contract can state their order, and what a
//! crash leaves, without a file or a socket.
ghost use Rattle.std.specs.Prelude.{◌≡◌, [], ◌∷◌};
ghost use Rattle.std.specs.Option.{option_map};
ghost use Rattle.dsn_postfix_notices.specs.requests.Deed.{Appended, HandedIn, LogRead, LogReleased, LogRemoved, LogSought, MarkedDone, MessageRead, PassedOn, answer_as, reply_as};
ghost use Rattle.dsn_postfix_notices.specs.requests.Gains.{with_deeds};

use crate::requests::deed_fault::DeedFault;
use crate::requests::pass_reason::PassReason;
use dsn_postfix::{PostfixRequest, QueueName};
use dsn_smtp::{HandInFault, ReplyBuffer};
use dsn_text::{Address, QueueId, Service, Stamp};
use std::alloc::Global;

/// What a request reads, writes and asks outside of the service. Each call is one deed: it ends
/// before the next one begins, and reports its result.
pub trait MailSystem {
    ghost use Rattle.std.specs.Prelude.{List, Option};
    ghost use Rattle.dsn_postfix_notices.specs.requests.Deed.{Deed};

    // The deeds so far, done or tried, in their order and with their results; `None` if the system
    // doesn't expose them. A system over files and sockets exposes nothing; one in memory may.
    ghost deeds: { Self → Option (List Deed) };

    /// Notifies the system which request to a service comes next, for its event log. Returns when
    /// the log that the request reports was last changed, if the system knows. This is not a deed.
    fn begin(&mut self, service: Service, request: &PostfixRequest<'_>) -> Option<Stamp>
        ensures { deeds self.new ≡ deeds self.old };

    /// Whether a service has a log about a message: a file that isn't empty. Doesn't lock it.
    fn has_log(&mut self, service: Service, id: QueueId) -> Result<bool, DeedFault>
        ensures { deeds self.new
            ≡ with_deeds (deeds self.old) (LogSought service id result ∷ []) };

    /// Reads all bytes of a service's log about a message. Returns `None` if there is no log. A log
    /// that was read stays locked until it is removed or released.
    fn read_log(
        &mut self,
        alloc: Global,
        service: Service,
        id: QueueId,
    ) -> Result<Option<Vec<u8>>, DeedFault>
        ensures { deeds self.new ≡ with_deeds (deeds self.old)
            (LogRead service id (answer_as (option_map (λ file. file.items)) result) ∷ []) };

    /// Adds the bytes of a record to the end of a log, under the log's lock, and syncs it. Makes
    /// the log if it doesn't exist. After an error the log is cut back, and has nothing of the
    /// record.
    fn append_to_log(
        &mut self,
        service: Service,
        id: QueueId,
        bytes: &[u8],
    ) -> Result<(), DeedFault>
        ensures { deeds self.new
            ≡ with_deeds (deeds self.old) (Appended service id bytes.now result ∷ []) };

    /// Removes a log and releases it. A log that doesn't exist counts as removed.
    fn remove_log(&mut self, service: Service, id: QueueId) -> Result<(), DeedFault>
        ensures { deeds self.new
            ≡ with_deeds (deeds self.old) (LogRemoved service id result ∷ []) };

    /// Reads all bytes of a message's file in a queue.
    fn read_message(
        &mut self,
        alloc: Global,
        queue: &QueueName<'_>,
        id: QueueId,
    ) -> Result<Vec<u8>, DeedFault>
        ensures { deeds self.new ≡ with_deeds (deeds self.old)
            (MessageRead queue.now id (answer_as (λ file. file.items) result) ∷ []) };

    /// Submits one notice to the mail server, as [`hand_in_notice`](dsn_smtp::hand_in_notice) does,
    /// in a new session or in a kept one. If a kept session fails at MAIL, a new one may follow.
    /// Returns `Ok` only if the server accepted the notice; `reply` then holds its reply. If no
    /// connection could be made, returns the fault of a greeting that wasn't received.
    fn hand_in(
        &mut self,
        path: &Address,
        message: &[u8],
        reply: &mut ReplyBuffer,
    ) -> Result<(), HandInFault>
        ensures { deeds self.new ≡ with_deeds (deeds self.old)
            (HandedIn path.now message.now (reply_as result reply.new) ∷ []) };

    /// Marks a recipient as done. `place` is the place of its record in the message's file.
    fn mark_done(&mut self, queue: &QueueName<'_>, id: QueueId, place: u64) -> Result<(), DeedFault>
        ensures { deeds self.new
            ≡ with_deeds (deeds self.old) (MarkedDone queue.now id place result ∷ []) };

    /// Passes a request on to Postfix's own service of that name, and returns the status that it
    /// answers. `why` is for the system's event log alone, and is no part of the deed.
    fn pass_on(
        &mut self,
        service: Service,
        request: &[u8],
        why: PassReason,
    ) -> Result<u32, DeedFault>
        ensures { deeds self.new
            ≡ with_deeds (deeds self.old) (PassedOn service request.now result ∷ []) };

    /// Releases the log that is still locked, if there is one.
    fn release_log(&mut self)
        ensures { deeds self.new
            ≡ with_deeds (deeds self.old) (LogReleased ∷ []) };
}
