//! What one agent did in a run.

/// What one agent did in a run.
#[derive(Clone, Copy, Debug, Drop, PartialEq, Eq)]
pub struct AgentLine {
    /// How many requests it made, its goodbye not counted.
    pub requests: u32,
    /// How many connections it served, up to 1,000,000.
    pub connections: u32,
    /// How many of their sessions ended with a fault.
    pub faults: u32,
    /// Whether its port failed.
    pub port_failed: bool,
}
