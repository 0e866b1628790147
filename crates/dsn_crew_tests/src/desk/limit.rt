//! Two agents on a thread beside their collector: what each is answered, the limit of its requests,
//! and the close of the crew.
ghost use Rattle.std.specs.Prelude.{◌≡◌, [], ◌∷◌, IfSome};
ghost use Rattle.dsn_crew.specs.desk.Close.{AreCrew};
ghost use Rattle.dsn_crew.specs.agents.AgentLanes.{lanes_of};

use super::asks::ask;
use super::collect::collect;
use crate::assert_same::same;
use crate::bodies::{Kind, body};
use crate::open_logs::{expect_open, open_logs};
use dsn_book::{Book, Limits};
use dsn_crew::{Agent, Desk, Finished, close_crew, open_crew};
use dsn_outcome::Reply;
use std::alloc::Global;
use std::sync::Wait;
use std::test::Fail;
use std::thread;
use std::thread::Threads;
use std::time::Clock;

/// What two agents were answered, each of which may ask once.
#[derive(Drop)]
struct Seen {
    /// The reply to the first one's request. Its second request was returned as one too many.
    reply: Reply,
    first: Finished,
    second: Finished,
}

/// The first agent asks twice, the second one not at all; both say goodbye.
fn ask_and_leave(rt: &impl Wait, alloc: Global, first: Agent, second: Agent) -> Option<Seen>
    ensures { IfSome result (λ seen. (lanes_of seen.first ≡ lanes_of first.halves) × (lanes_of seen.second ≡ lanes_of second.halves)) }
{
    let mut first = first;
    let Some(Ok(reply)) = ask(rt, &mut first, body(alloc, Kind::Append, b"K1")) else {
        return None;
    };
    let Some(Err((44, true))) = ask(rt, &mut first, body(alloc, Kind::Append, b"K1")) else {
        return None;
    };
    let first = first.bye(rt).ok()?;
    let second = second.bye(rt).ok()?;
    Some(Seen {
        reply,
        first,
        second,
    })
}

/// What the first agent of a crew of two was answered, how many requests each made, and the book at
/// last.
type Ended = (Reply, u32, u32, Book);

/// The result of a crew of two.
fn two_agents<R: Threads + Wait + Clock + Sync>(
    rt: &R,
    alloc: Global,
    crew: Vec<Agent>,
    desk: Desk,
) -> Option<Ended>
    requires { (first : Agent) × (second : Agent) × (crew.items ≡ first ∷ second ∷ []) × AreCrew (first.halves ∷ second.halves ∷ []) desk }
{
    let mut crew = crew;
    let second = crew.pop()?;
    let first = crew.pop()?;
    let (seen, desk) = thread::join(
        rt,
        move || ask_and_leave(rt, alloc, first, second),
        move || collect(rt, desk),
    );
    let seen = seen?;
    let desk = desk?;
    let (first, second) = (seen.first.requests(), seen.second.requests());
    let mut ended = Vec::with_capacity(alloc, 2).ok()?;
    ended.push_reserved(seen.first);
    ended.push_reserved(seen.second);
    let shut = close_crew(rt, ended, desk);
    Some((seen.reply, first, second, shut.book))
}

/// The same of a crew that was just opened.
fn limit_of_one<R: Threads + Wait + Clock + Sync>(rt: &R, alloc: Global) -> Option<Ended> {
    let limits = Limits::new(8, 8, 1)?;
    let Ok((crew, desk)) = open_crew(rt, alloc, limits, 2) else {
        return None;
    };
    two_agents(rt, alloc, crew, desk)
}

#[test]
fn agent_counts_and_request_limit(rt: HostRuntime) -> Result<(), Fail> {
    let seen = limit_of_one(&rt, rt.alloc()).ok_or("a crew that ends well")?;
    let (reply, first, second, book) = seen;
    same(&rt, (reply, first, second), (Reply::Logged(0), 1, 0));
    expect_open(&rt, &open_logs(rt.alloc(), &book)?, *b"K1", 1);
    Ok(())
}
