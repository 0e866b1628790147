//! What a daemon over a socket serves with.
use dsn_book::Limits;
use dsn_report::Site;

/// The site of a daemon over a socket, its agents, and the limits of its book.
#[derive(Drop)]
pub struct Serving {
    /// The site that its notices come from.
    pub site: Site,
    /// How many agents serve connections, each on a thread of its own: 1 to 16.
    pub agents: u32,
    /// How many connections each agent serves.
    pub max_use: u32,
    /// How many keys and outcomes are held, and how many requests an agent may make.
    pub limits: Limits,
    /// Whether the key that was closed longest ago makes room for a new one in a full book.
    pub releases: bool,
}
