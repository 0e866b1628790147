//! Serves Postfix's programs in place of its bounce(8): how a client is served, and the sockets and
//! threads that serve all clients.
#![tactic(auto)]

mod clients;
mod serving;

pub use clients::{ClientFault, HeardClient, answer_client, hear_client, refuse_client};
pub use serving::{Listeners, OtherAccount, StartFault, check_owner, serve_postfix};
