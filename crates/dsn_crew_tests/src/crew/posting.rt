//! Letters of a crew that are written while requests are taken, and after them.
use super::client::only_port;
use super::frames::frames_of;
use super::hold::{FREE, Until};
use super::whole_crew::run;
use crate::assert_same::same;
use crate::bodies::Kind;
use std::alloc::Global;
use std::sync::Wait;
use std::test::Fail;
use std::thread::Threads;
use std::time::Clock;

/// A crew of one agent, which is asked for this over one connection. Returns how many letters it
/// has, how many of them aren't sent, and whether its outbox is whole.
fn letters_of<R: Threads + Wait + Clock + Sync>(
    rt: &R,
    alloc: Global,
    asks: &[(Kind, [u8; 2])],
    until: Until,
) -> Result<(u32, u64, bool), Fail> {
    let frames = frames_of(alloc, asks)?;
    let ports = only_port(alloc, &frames)?;
    Ok(run(rt, alloc, ports, until)?.letters)
}

/// A flush between two appends.
const FLUSH_BETWEEN: &[(Kind, [u8; 2])] = &[
    (Kind::Append, *b"K1"),
    (Kind::Flush, *b"K1"),
    (Kind::Append, *b"K2"),
];

/// The third ask waits for the outbox's first write, which waits for the answer to that ask: so a
/// crew that posts its letters at the end runs out.
const CROSSED: Until = Until {
    agents: 1,
    number: 2,
    written: 1,
    write: 3,
    ..FREE
};

#[test]
fn notice_written_aside(rt: HostRuntime) -> Result<(), Fail> {
    let letters = letters_of(&rt, rt.alloc(), FLUSH_BETWEEN, CROSSED)?;
    same(&rt, letters, (1, 0, true));
    Ok(())
}

/// An append and a flush of each of three logs.
const THREE_LETTERS: &[(Kind, [u8; 2])] = &[
    (Kind::Append, *b"K1"),
    (Kind::Flush, *b"K1"),
    (Kind::Append, *b"K2"),
    (Kind::Flush, *b"K2"),
    (Kind::Append, *b"K3"),
    (Kind::Flush, *b"K3"),
];

/// The outbox's first write waits for the answer to the last flush. So all letters except the first
/// one wait when the agent says goodbye, after which no letter is sealed.
const HELD_TO_THE_END: Until = Until { write: 6, ..FREE };

#[test]
fn letters_that_wait_at_the_close_are_posted(rt: HostRuntime) -> Result<(), Fail> {
    let letters = letters_of(&rt, rt.alloc(), THREE_LETTERS, HELD_TO_THE_END)?;
    same(&rt, letters, (3, 0, true));
    Ok(())
}
