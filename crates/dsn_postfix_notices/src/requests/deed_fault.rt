//! Why a deed outside of the service failed.
use thiserror::Error;

/// Why a deed failed.
#[derive(Clone, Copy, Debug, Drop, PartialEq, Eq, Error)]
pub enum DeedFault {
    /// The file system or the other service failed, or refused the deed.
    #[error("it failed")]
    Failed,
    /// Memory for the result was refused.
    #[error("out of memory")]
    NoMemory,
}
