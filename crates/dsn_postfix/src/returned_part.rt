//! What a notice returns of its message.
//! Implements docs/postfix-internals.md, "The notice of a Postfix log".

/// What a notice returns (RFC 3461 section 4.3).
#[derive(Clone, Copy, Debug, PartialEq, Eq)]
pub enum ReturnedPart {
    /// The message.
    Whole,
    /// Its header.
    Header,
}
