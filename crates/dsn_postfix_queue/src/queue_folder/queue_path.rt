//! The paths of files in Postfix's queues.
//! Implements docs/postfix-internals.md, "Files".
ghost use Rattle.std.specs.Prelude.{◌≡◌, ◌++◌, ◌∷◌, [], IfOk, OnOk};
ghost use Rattle.dsn_postfix_queue.specs.queue_folder.PathInQueue.{folder_levels, path_in_queue};

use crate::queue_folder::hashed_id::folder_level;
use dsn_text::{NoMemory, QueueId};
use std::alloc::{AllocError, Global};

/// The path of a message's file in a queue, or of its log in the folder of a service. It is below
/// the queue folder, `depth` folders deep, as in a hashed queue. Returns an error only if memory
/// was refused.
pub fn path_in_queue(
    alloc: Global,
    root: &[u8],
    queue: &[u8],
    depth: u32,
    id: QueueId,
) -> Result<Vec<u8>, NoMemory>
    ensures { IfOk result (λ path. path.items ≡ path_in_queue root.now queue.now depth id) }
{
    let mut path = Vec::new(alloc);
    match push_path(&mut path, root, queue, depth, id.bytes()) {
        Ok(()) => Ok(path),
        Err(_) => Err(NoMemory),
    }
}

/// Adds the path of a file.
fn push_path(
    path: &mut Vec<u8>,
    root: &[u8],
    queue: &[u8],
    depth: u32,
    id: &[u8],
) -> Result<(), AllocError>
    ensures { OnOk result
        (path.new.items ≡ path.old.items ++ path_in_queue root.now queue.now depth id.now) }
{
    path.extend_from_slice(root)?;
    path.push(b'/')?;
    path.extend_from_slice(queue)?;
    path.push(b'/')?;
    push_levels(path, depth, id)?;
    path.extend_from_slice(id)
}

/// Adds the folders of a file that is `depth` folders deep.
#[tactic(auto, using(crate::proofs::PathLemmas::one_level_more))]
fn push_levels(path: &mut Vec<u8>, depth: u32, id: &[u8]) -> Result<(), AllocError>
    ensures { OnOk result (path.new.items ≡ path.old.items ++ folder_levels id.now depth) }
{
    let mut level = 0;
    while level < depth {
        push_level(path, folder_level(id, level as usize))?;
        level += 1;
    }
    Ok(())
}

/// Adds a folder of this name.
fn push_level(path: &mut Vec<u8>, name: u8) -> Result<(), AllocError>
    ensures { OnOk result (path.new.items ≡ path.old.items ++ (name ∷ 47 ∷ [])) }
{
    path.push(name)?;
    path.push(b'/')?;
    Ok(())
}
