//! What the entries of a queue's folder show about the depth to which the queue is hashed.
//! Implements docs/postfix-internals.md, "Files".
ghost use Rattle.std.specs.Prelude.{◌↔◌, ℕ, IsTrue, MatchOption};
ghost use Rattle.dsn_postfix_queue.specs.queue_folder.FolderHashing.{depth_of};
ghost use Rattle.dsn_postfix_queue.specs.queue_folder.QueueEntry.{IsAgainst, IsFileName, IsFolderName};

use crate::queue_folder::folder_hashing::FolderHashing;
use dsn_text::QueueId;

/// The length of the shortest queue id of Postfix: five digits of microseconds, and one of an
/// inode.
const SHORTEST_ID: usize = 6;

/// Whether an entry has the name of a message's file or log.
fn is_file_name(name: &[u8]) -> bool
    ensures { IsTrue result ↔ IsFileName name.now }
{
    QueueId::is_valid(name) && SHORTEST_ID <= name.len()
}

/// Whether an entry has the name of a folder of a hashed queue.
fn is_folder_name(name: &[u8]) -> bool
    ensures { IsTrue result ↔ IsFolderName name.now }
{
    match name {
        [byte] => byte.is_ascii_alphanumeric() || *byte == b'_',
        _ => false,
    }
}

/// The depth to which an entry shows its queue to be hashed. Returns `None` if the entry agrees
/// with the settings. The entry is a file or a folder, `above` folders below the queue's own.
pub fn depth_against(
    hashing: &FolderHashing<'_>,
    queue: &[u8],
    above: u32,
    name: &[u8],
) -> Option<u64>
    ensures { MatchOption result
        ((depth : ℕ)
        → IsAgainst (depth_of hashing.now queue.now) queue.now above name.now depth → ⊥)
        (λ depth. IsAgainst (depth_of hashing.now queue.now) queue.now above name.now depth) }
{
    let wanted = hashing.depth_of(queue);
    if is_file_name(name) {
        if above == wanted {
            None
        } else {
            Some(u64::from(above))
        }
    } else if is_folder_name(name) && queue != b"trace".as_slice() && wanted <= above {
        Some(u64::from(above) + 1)
    } else {
        None
    }
}
