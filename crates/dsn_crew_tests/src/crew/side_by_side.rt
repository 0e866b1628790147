//! Agents of a crew that work at the same time. Each of these runs is held so that it runs out if
//! the crew serves its connections one after another, or in turns.
use super::client::{ANSWER, ClientPort, bytes_in, port_of, room_for};
use super::frames::appends;
use super::hold::{FREE, Until};
use super::whole_crew::run;
use crate::assert_same::same;
use crate::open_logs::expect_open;
use dsn_crew::AgentLine;
use std::alloc::Global;
use std::process::Abort;
use std::sync::Wait;
use std::sync::atomic::AtomicU8;
use std::test::Fail;
use std::thread::Threads;
use std::time::Clock;

/// Agents that append to one log and leave it open: how many, and how often each. The log then has
/// `outcomes` outcomes. `sum` is the sum of the places at which they are, each place once.
#[derive(Clone, Copy)]
struct Case {
    agents: u32,
    count: u32,
    outcomes: u32,
    sum: u64,
}

/// What each client of a case sends.
fn sent_by(alloc: Global, case: &Case) -> Result<Vec<Vec<u8>>, Fail> {
    let mut all = Vec::new(alloc);
    for _ in 0..case.agents {
        all.push(appends(alloc, case.count, *b"Q1")?)?;
    }
    Ok(all)
}

/// Room for what each client of a case hears.
fn rooms_of(alloc: Global, case: &Case) -> Result<Vec<Vec<AtomicU8>>, Fail> {
    let mut all = Vec::new(alloc);
    for _ in 0..case.agents {
        all.push(room_for(alloc, case.count)?)?;
    }
    Ok(all)
}

/// A port for each client.
fn ports_of<'a>(
    alloc: Global,
    sent: &'a [Vec<u8>],
    rooms: &'a [Vec<AtomicU8>],
) -> Result<Vec<ClientPort<'a>>, Fail> {
    let mut ports = Vec::new(alloc);
    for (unread, heard) in sent.iter().zip(rooms) {
        ports.push(port_of(unread, heard))?;
    }
    Ok(ports)
}

/// The frame of an answer `logged`.
fn logged(number: u32, place: u32) -> [u8; ANSWER] {
    let [a, b, c, d] = number.to_be_bytes();
    let [e, f, g, h] = place.to_be_bytes();
    [0, 0, 0, 10, 1, 1, a, b, c, d, e, f, g, h]
}

/// The place that the frame of an answer says.
fn place_in(frame: &[u8]) -> u32 {
    match frame {
        [.., a, b, c, d] => u32::from_be_bytes([*a, *b, *c, *d]),
        _ => u32::MAX,
    }
}

/// A client heard `count` times `logged` in their order, at places that rise, and no other byte.
/// Returns the sum of the places.
fn expect_logged(rt: &impl Abort, heard: &[u8], count: u32) -> u64 {
    let mut rest = heard;
    let mut next = 0u32;
    let mut sum = 0u64;
    for number in 0..count {
        let (first, later) = rest.split_at(ANSWER.min(rest.len()));
        let place = place_in(first);
        same(rt, first, logged(number, place).as_slice());
        same(rt, next <= place, true);
        next = place.saturating_add(1);
        sum = sum.wrapping_add(u64::from(place));
        rest = later;
    }
    same(rt, rest, [0; ANSWER].as_slice());
    sum
}

/// What the clients of a case heard.
fn expect_heard(
    rt: &impl Abort,
    alloc: Global,
    rooms: &[Vec<AtomicU8>],
    case: &Case,
) -> Result<(), Fail> {
    let mut sum = 0u64;
    for room in rooms {
        sum = sum.wrapping_add(expect_logged(rt, &bytes_in(alloc, room)?, case.count));
    }
    same(rt, sum, case.sum);
    Ok(())
}

/// Each agent of a case served one connection well.
fn expect_agents(rt: &impl Abort, agents: &[AgentLine], case: &Case) {
    same(rt, agents.len() as u64, u64::from(case.agents));
    for line in agents {
        let came = (
            line.requests,
            line.connections,
            line.faults,
            line.port_failed,
        );
        same(rt, came, (case.count, 1, 0, false));
    }
}

/// Runs the agents of a case, and checks the result.
fn expect<R: Threads + Wait + Clock + Sync + Abort>(
    rt: &R,
    alloc: Global,
    case: &Case,
    until: Until,
) -> Result<(), Fail> {
    let sent = sent_by(alloc, case)?;
    let rooms = rooms_of(alloc, case)?;
    let seen = run(rt, alloc, ports_of(alloc, &sent, &rooms)?, until)?;
    same(rt, seen.letters, (0, 0, true));
    expect_agents(rt, &seen.agents, case);
    expect_open(rt, &seen.open, *b"Q1", case.outcomes);
    expect_heard(rt, alloc, &rooms, case)
}

/// Two agents, each of which asks once.
const TWO: &Case = &Case {
    agents: 2,
    count: 1,
    outcomes: 2,
    sum: 1,
};

/// One agent is held until the other one is answered.
const ONE_HELD: Until = Until {
    agents: 1,
    answered: 1,
    to: 1,
    ..FREE
};

/// Sixteen agents, each of which asks sixty times.
const SIXTEEN: &Case = &Case {
    agents: 16,
    count: 60,
    outcomes: 960,
    sum: 460_320,
};

/// Each agent is held until all have begun.
const ALL_HELD: Until = Until {
    agents: 16,
    begun: 16,
    ..FREE
};

#[test]
fn agents_work_side_by_side(rt: HostRuntime) -> Result<(), Fail> {
    expect(&rt, rt.alloc(), TWO, ONE_HELD)?;
    expect(&rt, rt.alloc(), SIXTEEN, ALL_HELD)
}
