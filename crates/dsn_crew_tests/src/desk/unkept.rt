//! Requests that wait are kept together. Those that aren't kept are neither carried out nor answered, and end
//! the collector.
use super::turns::takes_one;
use crate::assert_same::same;
use crate::bodies::{Kind, body};
use crate::refusing::Refusing;
use dsn_book::{Book, Limits};
use dsn_crew::{Agent, Desk, LaneOut, open_crew_over};
use dsn_outcome::{Answer, Body, Reply, Request};
use std::alloc::Global;
use std::sync::Wait;
use std::test::Fail;

/// A crew of three, over a keeper that keeps what it is first asked to, and no more.
fn crew_of_three(rt: &impl Wait, alloc: Global) -> Option<(Vec<Agent>, Desk<Refusing>)> {
    let limits = Limits::new(8, 8, 8)?;
    let book = Book::new(alloc, limits).ok()?;
    open_crew_over(rt, alloc, Refusing { book, left: 1 }, 3).ok()
}

/// Sends the only request of an agent, which waits for no answer, and gives the half by which it is
/// answered.
fn send_only(rt: &impl Wait, agent: Agent, body: Body) -> Option<LaneOut<Answer>> {
    let agent_number = agent.number();
    let (mut requests, answers) = agent.into_halves();
    let number = requests.count();
    if number == u32::MAX {
        return None;
    }
    let request = Request {
        agent: agent_number,
        number,
        body,
    };
    if requests.send(rt, request).is_ok() {
        Some(answers)
    } else {
        None
    }
}

/// Has the last of these agents append, and gives the half by which it is answered.
fn append(rt: &impl Wait, alloc: Global, crew: &mut Vec<Agent>) -> Option<LaneOut<Answer>> {
    let body = body(alloc, Kind::Append, b"K1")?;
    send_only(rt, crew.pop()?, body)
}

/// The reply that an agent gets, if it gets one.
fn reply_of(rt: &impl Wait, heard: Option<LaneOut<Answer>>) -> Option<Reply> {
    match heard?.take(rt) {
        Ok(answer) => Some(answer.reply),
        Err(_) => None,
    }
}

// The keeper is asked twice: for the two that wait, and then for the third one.
#[test]
fn what_waits_is_kept_together_or_not_answered(rt: HostRuntime) -> Result<(), Fail> {
    let alloc = rt.alloc();
    let (mut crew, mut desk) = crew_of_three(&rt, alloc).ok_or("a crew")?;
    let first = append(&rt, alloc, &mut crew);
    let second = append(&rt, alloc, &mut crew);
    let both = (takes_one(&rt, &mut desk), takes_one(&rt, &mut desk));
    let third = append(&rt, alloc, &mut crew);
    let last = takes_one(&rt, &mut desk);
    drop(desk);
    same(&rt, (both, last), ((true, true), false));
    same(&rt, reply_of(&rt, first), Some(Reply::Logged(0)));
    same(&rt, reply_of(&rt, second), Some(Reply::Logged(1)));
    same(&rt, reply_of(&rt, third), None);
    Ok(())
}
