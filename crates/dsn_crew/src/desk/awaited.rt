//! Which agents the collector waits for before it has the next group kept, and until when.
use dsn_outcome::Request;
use std::io;
use std::time::{Clock, Duration, Instant};

/// How long a group takes to be kept at least, in microseconds, if its agents are awaited: a sleep
/// alone takes 100.
const LEAST_KEPT_IN: u64 = 500;

/// The longest wait, in microseconds. A group may take longer to be kept, as if a journal is
/// compacted, and its agents are back long before.
const LONGEST_WAIT: u64 = 10_000;

/// The agents that were answered together and have not asked again. An agent is a bit.
#[derive(Drop)]
pub(crate) struct Awaited {
    /// The agents that have asked since the last group was kept.
    back: u32,
    /// Those of the last group that have not asked since.
    missing: u32,
    /// When the wait for them ends, if there is one.
    until: Option<Instant>,
}

impl Awaited {
    /// No agent, as before the first group.
    pub(crate) fn nobody() -> Awaited {
        Awaited {
            back: 0,
            missing: 0,
            until: None,
        }
    }

    /// Awaits the agents of the group that was kept just now, for half the time since it began. So
    /// agents that don't come back cost half as much again, and nothing if others come later.
    pub(crate) fn await_group(&mut self, clock: &impl Clock, began: io::Result<Instant>) {
        self.missing = self.back;
        self.back = 0;
        self.until = match began {
            Ok(began) => end_of_wait(clock, began),
            Err(_) => None,
        };
    }

    /// Notes that an agent has asked. After its goodbye it won't again.
    pub(crate) fn note_asked(&mut self, request: &Request) {
        let agent = 1u32.wrapping_shl(request.agent);
        self.missing &= !agent;
        if !request.body.is_bye() {
            self.back |= agent;
        }
    }

    /// Whether an agent is awaited, and it isn't too late for it.
    pub(crate) fn is_due(&self, clock: &impl Clock) -> bool {
        match (self.until, self.missing) {
            (None, _) | (_, 0) => false,
            (Some(until), _) => Instant::now(clock).is_ok_and(|now| now < until),
        }
    }
}

/// When the wait for a group ends that was begun to be kept at this moment, and is kept now. There
/// is no wait if that took so little time that a wait would cost more than it gains.
fn end_of_wait(clock: &impl Clock, began: Instant) -> Option<Instant> {
    let now = Instant::now(clock).ok()?;
    let kept_in = now.duration_since(began);
    if kept_in < Duration::from_micros(LEAST_KEPT_IN) {
        return None;
    }
    now.checked_add((kept_in / 2).min(Duration::from_micros(LONGEST_WAIT)))
}
