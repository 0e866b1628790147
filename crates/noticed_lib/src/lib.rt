//! The daemon as a library. `batch` runs the requests of one input, and `serve` those of agents
//! that connect to a socket. `send` is such an agent's part. `list_journal` (dsn_listing) writes
//! what a journal holds.
#![tactic(auto)]

mod batch_run;
mod client;
mod daemon;

pub use batch_run::{BatchEnd, MemoryRun, batch, batch_bytes};
pub use client::{SendEnd, SendFault, send, send_request, sends_are_sessions_of_a_client};
pub use daemon::{
    JournalFolder, JournalUse, JournaledEnd, MailTerms, RequestKind, ServeEnd, ServiceManager,
    Serving, SocketWatch, Submitted, Watch, WatchOptions, WatchedOutbox, WatchedPaths, serve,
    serve_journaled, serve_submitting, serve_watched,
};
pub use dsn_book::Limits;
pub use dsn_frame::Spoken;
pub use dsn_ledger::limits_in;
pub use dsn_listing::{CopiedDisk, ListingFault, list_journal};
pub use dsn_report::Site;
