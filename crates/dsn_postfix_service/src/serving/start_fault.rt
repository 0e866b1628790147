//! Why a Postfix isn't served.
use crate::serving::account::OtherAccount;
use dsn_postfix_queue::QueueFault;
use std::io;
use thiserror::Error;

/// Why a Postfix isn't served. The text begins with the path in the queue folder that it is about.
#[derive(Debug, Drop, Error)]
pub enum StartFault {
    /// The lock or a socket isn't available.
    #[error("private: {0}")]
    Sockets(#[from] io::Error),
    /// The folder of the sockets belongs to another account.
    #[error("private: {0}")]
    Account(#[from] OtherAccount),
    /// The queues aren't hashed as the settings say.
    #[error("{0}")]
    Queue(#[from] QueueFault),
}
