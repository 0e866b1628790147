//! Why no reply could be read from a device.
use thiserror::Error;

/// Why no reply could be read. The bytes before the fault are lost, and the connection is used only
/// to leave it.
#[derive(Clone, Copy, Debug, Drop, PartialEq, Eq, Error)]
pub enum ReplyFault {
    /// The input ends before the first byte.
    #[error("there is no reply")]
    Nothing,
    /// The input ends within the reply.
    #[error("the input ends within a reply")]
    CutShort,
    /// A byte is at a place where no reply has it.
    #[error("not a reply")]
    NoReply,
    /// No reply ends within 8,192 bytes.
    #[error("the reply is longer than 8,192 bytes")]
    TooLong,
    /// Bytes follow the reply in the piece that ends it. So the reply may answer another command,
    /// or no command.
    #[error("bytes follow the reply")]
    Trailing,
    /// The device failed.
    #[error("the device failed")]
    Read,
}
