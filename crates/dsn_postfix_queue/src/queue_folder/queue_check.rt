//! Whether the queues of a Postfix are hashed as the settings say, by the entries in them.
//! Implements docs/postfix-internals.md, "Files".
use crate::queue_folder::queue_entry::depth_against;
use crate::queue_folder::queue_folder::QueueFolder;
use std::fs::DirEntry;
use std::io::ErrorKind;
use std::{fs, io};
use thiserror::Error;

/// The greatest depth of a hashed queue.
pub const MOST_DEPTH: u32 = 16;

/// The queues that are checked: those of logs, and those of messages that requests name.
const QUEUES: [&str; 7] = [
    "bounce", "defer", "trace", "incoming", "active", "deferred", "hold",
];

/// Why the settings appear to be wrong. The text begins with a path below the queue folder.
#[derive(Debug, Drop, Error)]
pub enum QueueFault {
    /// A file or a folder shows that its queue is hashed to another depth.
    #[error("{0}")]
    Differs(OtherDepth),
    /// A queue's folder can't be read.
    #[error("{0}: {1}")]
    Unread(&'static str, io::Error),
}

/// An entry that shows its queue to be hashed to another depth than the settings say.
#[derive(Debug, Drop, Error)]
#[error("{path}: the queue is hashed to a depth of {found}, and the options say {wanted}")]
pub struct OtherDepth {
    /// The file or the folder, below the queue folder.
    path: String,
    /// The depth that it shows.
    found: u64,
    /// The depth by the settings.
    wanted: u32,
}

/// A folder that must still be checked.
#[derive(Drop)]
struct Folder {
    /// Its path below the queue folder.
    path: String,
    /// How many folders it is below its queue's own.
    above: u32,
}

/// Checks the entries in the queues. Returns `Differs` if one contradicts the settings, and
/// `Unread` if a queue's folder can't be read.
pub fn check_queues(rt: &HostRuntime, queues: &QueueFolder<'_>) -> Result<(), QueueFault> {
    for queue in QUEUES {
        match first_against(rt, queues, queue) {
            Ok(None) => {}
            Ok(Some(other)) => return Err(QueueFault::Differs(other)),
            Err(error) => return Err(QueueFault::Unread(queue, error)),
        }
    }
    Ok(())
}

/// The first entry of a queue that contradicts the settings, if there is one.
fn first_against(
    rt: &HostRuntime,
    queues: &QueueFolder<'_>,
    queue: &str,
) -> io::Result<Option<OtherDepth>> {
    let mut folders = Vec::new(rt.alloc());
    folders.push(Folder {
        path: format!(in rt.alloc(); "{queue}")?,
        above: 0,
    })?;
    for _ in 0..u64::MAX {
        let Some(folder) = folders.pop() else {
            break;
        };
        if let Some(other) = look_into(rt, queues, queue, &folder, &mut folders)? {
            return Ok(Some(other));
        }
    }
    Ok(None)
}

/// The first entry of a folder that contradicts the settings, if there is one. Adds the folders in
/// it to those that must still be checked.
fn look_into(
    rt: &HostRuntime,
    queues: &QueueFolder<'_>,
    queue: &str,
    folder: &Folder,
    folders: &mut Vec<Folder>,
) -> io::Result<Option<OtherDepth>> {
    let (root, path) = (queues.root, folder.path.as_str());
    let read = fs::read_dir(rt, format!(in rt.alloc(); "{root}/{path}")?.as_str());
    let entries = match read {
        Err(error) if error.kind() == ErrorKind::NotFound => return Ok(None),
        read => read?,
    };
    for entry in entries {
        let entry = match entry {
            Err(error) if error.kind() == ErrorKind::InvalidFilename => continue,
            entry => entry?,
        };
        let name = entry.file_name();
        let against = depth_against(
            &queues.hashing,
            queue.as_bytes(),
            folder.above,
            name.as_bytes(),
        );
        if (against.is_none() && name.len() > 1) || !is_of_its_kind(&entry) {
            continue;
        }
        let below = format!(in rt.alloc(); "{path}/{name}")?;
        if let Some(found) = against {
            return Ok(Some(OtherDepth {
                path: below,
                found,
                wanted: queues.hashing.depth_of(queue.as_bytes()),
            }));
        }
        if folder.above < MOST_DEPTH {
            folders.push(Folder {
                path: below,
                above: folder.above + 1,
            })?;
        }
    }
    Ok(None)
}

/// Whether an entry is what its name says: a folder if the name is a single byte, or else a file.
/// An entry that was removed is neither.
fn is_of_its_kind(entry: &DirEntry) -> bool {
    match entry.file_type() {
        Ok(kind) if entry.file_name().len() == 1 => kind.is_dir(),
        Ok(kind) => kind.is_file(),
        Err(_) => false,
    }
}
