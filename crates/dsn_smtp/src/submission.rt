//! What one transaction submits (RFC 5321 section 3.3).
use dsn_text::Address;

/// What is submitted to a mail server in one transaction (RFC 5321 section 3.3).
#[derive(Clone, Copy)]
pub struct Submission<'a> {
    /// Its only recipient.
    pub path: &'a Address,
    /// The message, with leading dots doubled and with the line of one dot that ends it (RFC 5321
    /// section 4.5.2).
    pub message: &'a [u8],
}
