//! A crew: delivery agents, the one collector that answers them, and a poster, each on a thread of
//! its own.
#![tactic(auto)]

mod agent_memory;
mod agents;
mod breach;
mod broken_off;
mod conclude;
mod crew_account;
mod crew_cause;
mod crew_fault;
mod crew_memory;
mod crew_run;
mod desk;
mod gathered;
mod lane;
mod post;
mod start_serving;

pub use agents::{Agent, AgentLine, AskFault, Finished, Gate, Next, NoGate, Port};
pub use crew_account::Account;
pub use crew_cause::CrewCause;
pub use crew_fault::CrewFault;
pub use crew_run::{run_crew, run_crew_over};
pub use desk::{CrewOpenFault, CrewShut, Desk, DeskFault, close_crew, open_crew, open_crew_over};
pub use dsn_frame::{ServeFault, Served};
pub use lane::{
    LaneEnd, LaneGone, LaneIn, LaneLeft, LaneLists, LaneOut, LaneShut, Lost, close_lane, open_lane,
};
pub use post::{LetterSink, LetterSource, Outlet, Posting, Posts, Sink, open_post, start_posting};
