//! Why no list of attributes could be read from a device.
use thiserror::Error;

/// Why no list could be read. The bytes before the fault are lost, and the device is not used
/// again.
#[derive(Clone, Copy, Debug, Drop, PartialEq, Eq, Error)]
pub enum ListFault {
    /// Memory for more of the list was refused.
    #[error("out of memory")]
    NoMemory,
    /// The input ends before the first byte.
    #[error("there is no list")]
    Nothing,
    /// The input ends within the list.
    #[error("the input ends within a list")]
    CutShort,
    /// No list ends within 65,536 bytes.
    #[error("the list is longer than 65,536 bytes")]
    TooLong,
    /// Bytes follow the list in the piece that ends it.
    #[error("bytes follow the list")]
    Trailing,
    /// The device failed.
    #[error("the device failed")]
    Read,
}
