//! Delivery agents: what one asks a collector over lanes, and how it serves its connections.
mod agent;
mod agent_line;
mod ask_fault;
mod finished_agent;
mod gate;
mod lane_halves;
mod next_connection;
mod port;
mod port_end;
mod port_service;
mod serve_connection;
mod unanswered;
mod unheard;

pub use agent::Agent;
pub use agent_line::AgentLine;
pub use ask_fault::AskFault;
pub use finished_agent::Finished;
pub use gate::{Gate, NoGate};
pub use next_connection::Next;
pub use port::Port;
pub(crate) use port_end::PortEnd;
pub(crate) use port_service::serve_port;
pub(crate) use unheard::Unheard;
