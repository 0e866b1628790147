//! Lanes of letters that are lost: the poster's thread ends, and a letter comes back.
use crate::assert_same::same;
use crate::letters::one_letter;
use dsn_crew::{LetterSink, Sink, open_post, start_posting};
use dsn_device::{Drain, Plain};
use dsn_outcome::{Letter, QueueId};
use dsn_report::{Outgoing, Site};
use std::alloc::Global;
use std::sync::Wait;
use std::test::Fail;
use std::thread;
use std::thread::{Scope, Threads};

/// Passes this letter on, if there is one, and drops the lane.
fn hand_last(rt: &impl Wait, mut sink: LetterSink, letter: Option<Letter>) {
    if let Some(letter) = letter {
        drop(sink.hand(rt, letter));
    }
}

/// How many letters reached a poster on a thread of its own, and whether the loss of its lane ended
/// it. The lane is lost once this letter, if there is one, was passed on.
fn lost_after<R: Threads + Wait + Sync>(
    rt: &R,
    alloc: Global,
    outgoing: Outgoing<Plain<Vec<u8>>>,
    letter: Option<Letter>,
) -> Option<(u32, bool)> {
    thread::scope(
        thread::scope_env(),
        rt,
        move |scope| -> Option<(u32, bool)> { lost_in(scope, rt, alloc, outgoing, letter) },
    )
}

/// The same, on a thread of this scope.
// A function of its own, since an outlet of a given type isn't seen to be one for another thread.
fn lost_in<'s, E: 's, R: Threads + Wait + Sync, W: Drain + Drop + Send + 's>(
    scope: &Scope<'s, E>,
    rt: &'s R,
    alloc: Global,
    outgoing: Outgoing<W>,
    letter: Option<Letter>,
) -> Option<(u32, bool)> {
    let Ok((sink, source)) = open_post(rt, alloc, 16) else {
        return None;
    };
    let Ok((sink, handle)) = start_posting(scope, rt, outgoing, sink, source) else {
        return None;
    };
    hand_last(rt, sink, letter);
    let posting = handle.join(rt);
    Some((posting.handed, posting.lost.is_some()))
}

/// What is posted by, which has posted nothing.
fn outgoing(alloc: Global) -> Result<Outgoing<Plain<Vec<u8>>>, Fail> {
    let site = Site::new(alloc, b"mx.example.net")?;
    Ok(Outgoing::new(site, Plain::new(Vec::new(alloc))))
}

#[test]
fn poster_ends_where_its_lane_is_lost(rt: HostRuntime) -> Result<(), Fail> {
    let alloc = rt.alloc();
    let none = lost_after(&rt, alloc, outgoing(alloc)?, None);
    same(&rt, none, Some((0, true)));
    let one = lost_after(&rt, alloc, outgoing(alloc)?, one_letter(alloc));
    same(&rt, one, Some((1, true)));
    Ok(())
}

/// The message of a letter that is passed to a sink whose source is gone, and comes back.
fn comes_back(rt: &impl Wait, alloc: Global) -> Option<QueueId> {
    let letter = one_letter(alloc)?;
    let (mut sink, source) = open_post(rt, alloc, 16).ok()?;
    drop(source);
    let back = sink.hand(rt, letter).err()?;
    Some(back.key().id)
}

#[test]
fn sink_without_its_source_gets_its_letter_back(rt: HostRuntime) -> Result<(), Fail> {
    same(&rt, comes_back(&rt, rt.alloc()), QueueId::new(b"K1"));
    Ok(())
}
