//! What a notice says of its message.
use dsn_text::QueueId;

/// What a queue file and a request say of the message that a notice is about.
#[derive(Clone, Copy, Debug)]
pub struct ReportedMessage<'a> {
    /// The queue id.
    pub queue_id: QueueId,
    /// When the message arrived, in seconds since 1970, if the queue file says so.
    pub arrival: Option<u64>,
    /// Its sender, without quotes.
    pub sender: &'a [u8],
    /// The sender's id for it (RFC 3461 section 4.4); empty if the sender gave no id.
    pub envelope_id: &'a [u8],
    /// Its header and body.
    pub text: &'a [u8],
    /// For how many seconds after its arrival delivery is tried.
    pub lifetime: u32,
    /// The size in bytes up to which it is returned whole.
    pub size_limit: u32,
}
