//! The paths of files in queues, for short and for long queue ids and for each depth of hashing.
use crate::assert_same::same;
use dsn_postfix::QueueName;
use dsn_postfix_queue::{FolderHashing, path_in_queue};
use dsn_text::QueueId;
use std::alloc::AllocGlobal;
use std::process::Abort;
use std::test::Fail;

/// The queue, the depth of its hashing, the queue id, and the path of the message's file below the
/// root.
const PATHS: [(&[u8], u32, &[u8], &[u8]); 8] = [
    // a queue that isn't hashed has no folders
    (b"active", 0, b"4F9D195432C", b"active/4F9D195432C"),
    // the folders of a short id are named by its characters
    (b"defer", 1, b"4F9D195432C", b"defer/4/4F9D195432C"),
    (b"defer", 4, b"AB", b"defer/A/B/_/_/AB"),
    // the folders of a long id are named by its microseconds; a Postfix with long queue ids made
    // the first two
    (
        b"defer",
        1,
        b"4jZlfk4Kjfz1btWg",
        b"defer/9/4jZlfk4Kjfz1btWg",
    ),
    (
        b"deferred",
        1,
        b"4jZlfk4Kjfz1btWg",
        b"deferred/9/4jZlfk4Kjfz1btWg",
    ),
    (
        b"defer",
        6,
        b"0000007777z2",
        b"defer/F/5/0/2/3/_/0000007777z2",
    ),
    (
        b"defer",
        7,
        b"4C1hTbzzzzz1",
        b"defer/6/F/9/0/F/F/_/4C1hTbzzzzz1",
    ),
    // microseconds that are not a number count as 0
    (b"defer", 2, b"4C1hTbaaaaz1", b"defer/0/0/4C1hTbaaaaz1"),
];

/// A message's file has this path.
fn expect_path(
    rt: &(impl AllocGlobal + Abort),
    &(queue, depth, id, path): &(&[u8], u32, &[u8], &[u8]),
) -> Result<(), Fail> {
    let id = QueueId::new(id).ok_or("the queue id")?;
    let found = path_in_queue(rt.alloc(), b"/var/spool/postfix", queue, depth, id)?;
    let below = found.strip_prefix(b"/var/spool/postfix/".as_slice());
    same(rt, below, Some(path));
    Ok(())
}

#[test]
fn files_have_their_paths(rt: HostRuntime) -> Result<(), Fail> {
    for path in &PATHS {
        expect_path(&rt, path)?;
    }
    Ok(())
}

/// The depth of a queue's hashing, if `deferred` and `Defer` are hashed with a depth of 2.
fn depth(queue: &[u8]) -> Result<u32, Fail> {
    let queues = [
        QueueName::new(b"deferred").ok_or("the queue")?,
        QueueName::new(b"Defer").ok_or("the queue")?,
    ];
    let hashing = FolderHashing {
        queues: &queues,
        depth: 2,
    };
    Ok(hashing.depth_of(queue))
}

#[test]
fn queues_are_hashed_by_their_names(rt: HostRuntime) -> Result<(), Fail> {
    same(&rt, depth(b"defer")?, 2);
    same(&rt, depth(b"deferred")?, 2);
    same(&rt, depth(b"active")?, 0);
    Ok(())
}
