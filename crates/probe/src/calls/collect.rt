//! A collector and an outbox at work, once their requests and letters are made.
use crate::calls::asked::{append, flush};
use crate::calls::begin;
use dsn_book::Limits;
use dsn_crew::{Agent, Desk, LaneOut, Sink, open_crew};
use dsn_device::Plain;
use dsn_outcome::{Answer, Body, Letter, Letters, Request};
use dsn_report::{Poster, Site};
use std::alloc::Global;
use std::sync::Wait;
use std::time::Clock;

/// The room for the outbox, in bytes: two notices take no memory beyond it.
const ROOM: usize = 65_536;

/// A sink that keeps the letters.
#[derive(Drop)]
struct Kept {
    letters: Letters,
}

impl Sink for Kept {
    ghost takes = { λ _ _ _. Unit {0} };

    fn hand(&mut self, _rt: &impl Wait, letter: Letter) -> Result<(), Letter> {
        self.letters.push(letter);
        Ok(())
    }
}

/// What the agent of this number asks: the first two an append and a flush of a log, the next two the
/// same of another one; the fifth says goodbye.
fn body_of(alloc: Global, agent: u32) -> Option<Body> {
    match agent {
        0 => append(alloc, b"K1"),
        1 => flush(alloc, b"K1"),
        2 => append(alloc, b"K2"),
        3 => flush(alloc, b"K2"),
        _ => Some(Body::Bye),
    }
}

/// Sends the agent's only request, and gives the half by which it is answered.
fn send_one(rt: &impl Wait, alloc: Global, agent: Agent) -> Option<LaneOut<Answer>> {
    let agent_number = agent.number();
    let body = body_of(alloc, agent_number)?;
    let (mut requests, answers) = agent.into_halves();
    let number = requests.count();
    if number == u32::MAX {
        return None;
    }
    let request = Request {
        agent: agent_number,
        number,
        body,
    };
    match requests.send(rt, request) {
        Ok(()) => Some(answers),
        Err(_) => None,
    }
}

/// Sends each agent's only request, and gives the halves by which they are answered.
fn send_all(rt: &impl Wait, alloc: Global, crew: Vec<Agent>) -> Option<Vec<LaneOut<Answer>>> {
    let mut heard = Vec::new(alloc);
    for agent in crew {
        heard.push(send_one(rt, alloc, agent)?).ok()?;
    }
    Some(heard)
}

/// A collector that five agents have asked, of which only the fifth's goodbye is awaited. Beside it,
/// the halves by which the agents are answered.
fn asked(rt: &impl Wait, alloc: Global) -> Option<(Vec<LaneOut<Answer>>, Desk)> {
    let limits = Limits::new(8, 8, 8)?;
    let (crew, mut desk) = open_crew(rt, alloc, limits, 5).ok()?;
    desk.miss(4);
    match send_all(rt, alloc, crew) {
        Some(heard) => Some((heard, desk)),
        None => None,
    }
}

/// Posts the letters, and says how many there were; none where one could not be posted.
fn post_all(poster: Poster<Plain<Vec<u8>>>, letters: Letters) -> Option<u32> {
    let (mut poster, mut letters) = (poster, letters);
    let mut count = 0u32;
    for _ in 0..100u32 {
        let Some(letter) = letters.pop() else {
            return Some(count);
        };
        poster.post(letter).ok()?;
        count = count.wrapping_add(1);
    }
    None
}

/// Whether a collector runs to its end. A fault is dropped by its letter, since a proof about a
/// whole fault takes long.
fn runs(rt: &(impl Wait + Clock), desk: &mut Desk, kept: &mut Kept) -> bool {
    match desk.run(rt, kept) {
        Ok(()) => true,
        Err(fault) => {
            let _letter = fault.into_letter();
            false
        }
    }
}

/// A collector answers an append and a flush of two logs each, and its two letters are posted.
/// Returns 0 if all of this succeeds.
pub(crate) fn collect(rt: &(impl Print + Wait + Clock), alloc: Global) -> Option<u32> {
    let (heard, mut desk) = asked(rt, alloc)?;
    let site = Site::new(alloc, b"mx.example.net").ok()?;
    let outbox = Vec::with_capacity(alloc, ROOM).ok()?;
    let poster = Poster::new(site, Plain::new(outbox));
    let mut kept = Kept {
        letters: Letters::new(),
    };
    begin(rt)?;
    let has_run = runs(rt, &mut desk, &mut kept);
    let posted = post_all(poster, kept.letters);
    drop(heard);
    if has_run && posted == Some(2) {
        Some(0)
    } else {
        None
    }
}
