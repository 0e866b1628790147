//! The key of a log: a service and a message.
//! Implements noticed-protocol(5).
use crate::queue_id::QueueId;
use crate::service::Service;

/// The key of a log. Each service has a log of its own for each message. Keys are ordered by
/// service, and then by the bytes of the queue id.
#[derive(Clone, Copy, Debug, PartialEq, Eq, PartialOrd, Ord)]
pub struct Key {
    /// The service.
    pub service: Service,
    /// The message's queue id.
    pub id: QueueId,
}
