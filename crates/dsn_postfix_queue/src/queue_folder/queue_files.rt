//! The paths of logs and of messages in the queue folder of a Postfix.
//! Implements docs/postfix-internals.md, "Files".
ghost use Rattle.std.specs.Prelude.{◌≡◌, IfOk, string_bytes};
ghost use Rattle.dsn_postfix_queue.specs.inner.ServicePaths.{log_path, own_socket_path, path_as_set};
ghost use Rattle.dsn_postfix_queue.specs.queue_folder.PathInQueue.{path_in_queue};

use crate::queue_folder::log_file::{has_bytes, last_change};
use crate::queue_folder::queue_check::MOST_DEPTH;
use crate::queue_folder::queue_folder::QueueFolder;
use crate::queue_folder::queue_path::path_in_queue;
use crate::queue_folder::service_name::service_name;
use dsn_postfix::PostfixRequest;
use dsn_postfix_notices::queue_id_of;
use dsn_text::{QueueId, Service, Stamp};
use std::alloc::{AllocError, Global};
use std::io;
use std::io::{Error, ErrorKind};

/// The path of a service's log about a message.
pub(super) fn log_path(
    rt: &HostRuntime,
    queues: &QueueFolder<'_>,
    service: Service,
    id: QueueId,
) -> io::Result<String>
    ensures { IfOk result (λ path. string_bytes path ≡ log_path queues.now service id) }
{
    path_of(rt, queues, service_name(service).as_bytes(), id)
}

/// The path of the socket of Postfix's own service of this name, below the queue folder `root`.
pub(super) fn own_socket_path(
    alloc: Global,
    root: &str,
    service: Service,
) -> Result<String, AllocError>
    ensures { IfOk result (λ path. string_bytes path ≡ own_socket_path root.now service) }
{
    let name = service_name(service);
    format!(in alloc; "{root}/private/{name}")
}

/// When the log that a request to a service reports was last changed. Returns `None` if the request
/// reports none, or if that can't be known.
// Not read under the log's lock: a wrong time can only make another Message-ID.
pub(super) fn reported_change(
    rt: &HostRuntime,
    queues: &QueueFolder<'_>,
    service: Service,
    request: &PostfixRequest<'_>,
) -> Option<Stamp> {
    if matches!(request, PostfixRequest::Append(_) | PostfixRequest::One(..)) {
        return None;
    }
    let path = log_path(rt, queues, service, queue_id_of(request)).ok()?;
    last_change(rt, path.as_str())
}

/// The path of a file in a queue, as deep as the settings say.
pub(super) fn path_of(
    rt: &HostRuntime,
    queues: &QueueFolder<'_>,
    queue: &[u8],
    id: QueueId,
) -> io::Result<String>
    ensures { IfOk result (λ path. string_bytes path ≡ path_as_set queues.now queue.now id) }
{
    path_at(rt, queues, queue, queues.hashing.depth_of(queue), id)
}

/// The path of a file that is `depth` folders deep in a queue. Returns `OutOfMemory` if memory was
/// refused, and `InvalidFilename` if the path isn't UTF-8.
fn path_at(
    rt: &HostRuntime,
    queues: &QueueFolder<'_>,
    queue: &[u8],
    depth: u32,
    id: QueueId,
) -> io::Result<String>
    ensures { IfOk result (λ path. string_bytes path
        ≡ path_in_queue queues.now.root.now queue.now depth id) }
{
    match path_in_queue(rt.alloc(), queues.root.as_bytes(), queue, depth, id) {
        Ok(path) => String::from_utf8(path).map_err(|_| Error::from(ErrorKind::InvalidFilename)),
        Err(_) => Err(Error::from(ErrorKind::OutOfMemory)),
    }
}

/// The path of a log that isn't empty and is where other settings would place it, if there is one.
pub(super) fn log_elsewhere(
    rt: &HostRuntime,
    queues: &QueueFolder<'_>,
    service: Service,
    id: QueueId,
) -> io::Result<Option<String>> {
    let queue = service_name(service).as_bytes();
    for depth in 0..=MOST_DEPTH {
        if depth != queues.hashing.depth_of(queue) {
            let path = path_at(rt, queues, queue, depth, id)?;
            if has_bytes(rt, path.as_str())? {
                return Ok(Some(path));
            }
        }
    }
    Ok(None)
}
