//! The class of a reply to a command.
//! Implements RFC 5321 section 4.2.1.

/// The class of a reply, by its first digit (RFC 5321 section 4.2.1).
#[derive(Clone, Copy, Debug, PartialEq, Eq)]
pub enum ReplyClass {
    /// 2yz: done.
    Positive,
    /// 3yz: accepted so far; the server waits for the rest.
    Intermediate,
    /// 4yz: refused for now; the same may be accepted later.
    RefusedForNow,
    /// 5yz: refused for good.
    RefusedForGood,
}
