//! Why a client wasn't served.
use dsn_postfix::ListFault;
use thiserror::Error;

/// Why a client wasn't served to the end.
#[derive(Clone, Copy, Debug, Drop, PartialEq, Eq, Error)]
pub enum ClientFault {
    /// Memory for the announcement was refused. Nothing was read.
    #[error("out of memory")]
    NoMemory,
    /// The protocol couldn't be announced to it. Nothing was read.
    #[error("the protocol could not be announced")]
    Unannounced,
    /// It sent no list, or memory for one was refused. Nothing was done for it.
    #[error("no list was read: {0}")]
    NoList(ListFault),
    /// The system's clock gave no valid time. Nothing was done for it.
    #[error("the clock gave no moment")]
    NoMoment,
    /// Its request was answered this status, which couldn't be sent to it.
    #[error("the status {0} could not be said")]
    Unsaid(u32),
}
