//! The desk: the one collector that answers the agents' requests over lanes, how it is opened with
//! its agents, and how it is closed with them.
mod answer_lane;
mod awaited;
mod close;
mod crew_open_fault;
mod crew_shut;
mod desk;
mod desk_fault;
mod intake;
mod open;
mod returned_letter;

pub use close::close_crew;
pub use crew_open_fault::CrewOpenFault;
pub use crew_shut::CrewShut;
pub use desk::Desk;
pub use desk_fault::DeskFault;
pub(crate) use open::open_room;
pub use open::{open_crew, open_crew_over};
pub(crate) use returned_letter::HandedBack;
