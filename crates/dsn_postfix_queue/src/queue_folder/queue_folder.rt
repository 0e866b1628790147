//! The place of a Postfix's queues.
use crate::queue_folder::folder_hashing::FolderHashing;

/// The folder in which a Postfix has its queues and its sockets.
#[derive(Clone, Copy)]
pub struct QueueFolder<'a> {
    /// Its path (`queue_directory` of postconf(5)).
    pub root: &'a str,
    /// Which of its queues are hashed.
    pub hashing: FolderHashing<'a>,
}
