//! The limits of a book.
ghost use Rattle.std.specs.Prelude.{◌≡◌, ◌≤◌, ◌↔◌, IsSome, IfSome};
ghost use Rattle.std.specs.Int.{IsInRange};

use std::marker::Model;

/// The upper bound of the limit of held keys.
pub const MOST_LOGS: u32 = 65_536;

/// The upper bound of the limit of outcomes in a log.
pub const MOST_ENTRIES: u32 = 1_000;

/// The upper bound of the limit of an agent's requests.
pub const MOST_REQUESTS: u32 = 1_000_000;

/// The limits of a book: held keys, outcomes in a log, and requests of an agent.
#[derive(Clone, Copy, Debug)]
pub struct Limits {
    logs: u32,
    entries: u32,
    requests: u32,
}

impl Model for Limits {
    ghost use Rattle.std.specs.Prelude.{◌≡◌};
    ghost use Rattle.std.specs.Int.{IsInRange};
    ghost use Rattle.dsn_outcome.specs.History.{Limits};

    ghost Value = { Limits };

    ghost view = { λ l. record { logs = l.logs; entries = l.entries; requests = l.requests } };

    ghost invariant = { λ l. IsInRange 1 65536 l.logs × IsInRange 1 1000 l.entries
        × IsInRange 1 1000000 l.requests };

    ghost inverse = { λ v. record { logs = v.logs; entries = v.entries; requests = v.requests } };
}

impl Limits {
    ghost use Rattle.dsn_book.specs.Limits.{AreLimits, limits_of};

    /// Returns the limits, or `None` if one of them is 0 or over its bound: [`MOST_LOGS`] keys,
    /// [`MOST_ENTRIES`] outcomes and [`MOST_REQUESTS`] requests (this project's profile).
    pub fn new(logs: u32, entries: u32, requests: u32) -> Option<Limits>
        ensures some { IsSome result ↔ AreLimits logs entries requests }
        ensures kept { IfSome result (λ limits. limits ≡ limits_of logs entries requests) }
    {
        if logs == 0 || logs > MOST_LOGS {
            return None;
        }
        if entries == 0 || entries > MOST_ENTRIES {
            return None;
        }
        if requests == 0 || requests > MOST_REQUESTS {
            return None;
        }
        Some(Limits {
            logs,
            entries,
            requests,
        })
    }

    /// The limits of the program: 4,096 keys, 1,000 outcomes in a log, and 1,000,000 requests of an
    /// agent (this project's profile).
    pub fn of_program() -> Limits
        ensures { result ≡ limits_of 4096 1000 1000000 }
    {
        Limits {
            logs: 4_096,
            entries: MOST_ENTRIES,
            requests: MOST_REQUESTS,
        }
    }

    /// How many keys a book may hold, including those of closed logs.
    pub fn logs(self) -> u32
        ensures value { result ≡ self.logs }
        ensures range { IsInRange 1 MOST_LOGS result }
    {
        self.logs
    }

    /// How many outcomes a log may have.
    pub fn entries(self) -> u32
        ensures value { result ≡ self.entries }
        ensures range { IsInRange 1 MOST_ENTRIES result }
    {
        self.entries
    }

    /// How many requests an agent may make.
    pub fn requests(self) -> u32
        ensures value { result ≡ self.requests }
        ensures range { IsInRange 1 MOST_REQUESTS result }
    {
        self.requests
    }
}
