//! The error of a device.
use thiserror::Error;

/// The device failed. The error doesn't distinguish causes, such as an interrupting signal, a full
/// disk or a peer that went away.
#[derive(Clone, Copy, Debug, PartialEq, Eq, Error)]
#[error("the device failed")]
pub struct Broken;
