//! Postfix's programs as clients: each receives the announcement of the protocol, sends one
//! request, and receives its status.
mod client_fault;
mod heard_client;
mod serving;

pub use client_fault::ClientFault;
pub use heard_client::{HeardClient, hear_client};
pub use serving::{answer_client, refuse_client};
