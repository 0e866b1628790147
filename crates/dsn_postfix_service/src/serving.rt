//! The process that serves a Postfix: the sockets at which its programs connect, the lock of its
//! folder, and the threads.
mod account;
mod client_connection;
mod folder_lock;
mod listeners;
mod postfix_share;
mod service_queue;
mod start_fault;
mod workers;

pub use account::{OtherAccount, check_owner};
pub use listeners::Listeners;
pub use start_fault::StartFault;
pub use workers::serve_postfix;
