//! The error of a queue file that can't be read further.
use thiserror::Error;

/// The next record is cut short, or its length has more than five bytes; or a pointer has no valid
/// place; or one pointer too many leads back.
#[derive(Clone, Copy, Debug, Drop, PartialEq, Eq, Error)]
#[error("a queue file that can't be read on")]
pub struct QueueBroken;
