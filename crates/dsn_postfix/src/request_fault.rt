//! Why bytes are not a valid request of Postfix's programs.
//! Implements docs/postfix-internals.md, "What Postfix's programs send".

use thiserror::Error;

/// Why bytes are not a valid request: the fault of the first attribute, from the left, that differs
/// from its layout, or else the fault of the end. Such bytes request nothing, so nothing is
/// changed.
#[derive(Clone, Copy, Debug, Drop, PartialEq, Eq, Error)]
pub enum RequestFault {
    /// The bytes end before the list does.
    #[error("the list of attributes has no end")]
    Unended,
    /// The list ends where the layout has an attribute.
    #[error("an attribute is missing")]
    Missing,
    /// An attribute has another name than the layout has at this place.
    #[error("an attribute has another name")]
    Name,
    /// A value isn't a decimal number, or is too large.
    #[error("a value is not a number")]
    Number,
    /// The kind of request isn't 0 to 5.
    #[error("what is asked is unknown")]
    Command,
    /// The queue's name isn't 1 to 100 letters and digits.
    #[error("the queue name is malformed")]
    QueueName,
    /// The queue id isn't 1 to 32 letters and digits.
    #[error("the queue id is malformed")]
    QueueId,
    /// The delimiters aren't two bytes.
    #[error("the delimiters are not two bytes")]
    Delimiters,
    /// The list goes on after the last attribute of the layout.
    #[error("an attribute follows the last one")]
    Extra,
    /// Bytes follow the list.
    #[error("bytes follow the list of attributes")]
    Trailing,
}
