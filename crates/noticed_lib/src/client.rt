//! The client: it hands the frames of an input to a daemon, one after another, and writes in notes
//! what each was answered.
//! The client tests nothing of a request: the daemon answers what is wrong.
mod laws;
mod send_end;
mod send_fault;
mod send_frames;

pub use laws::sends_are_sessions_of_a_client;
pub use send_end::SendEnd;
pub use send_fault::SendFault;
pub use send_frames::{send, send_request};
