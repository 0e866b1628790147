//! The queue folder of a Postfix, and the mail server for its notices.
use crate::queue_folder::queue_folder::QueueFolder;
use dsn_smtp::ServerAddress;
use dsn_text::MtaName;

/// The queue folder of a Postfix, and the mail server to which its notices are submitted.
#[derive(Clone, Copy)]
pub struct PostfixSetup<'a> {
    /// Its queue folder.
    pub queues: QueueFolder<'a>,
    /// The address of that mail server.
    pub hand_in: &'a ServerAddress,
    /// The client's name in EHLO to that server.
    pub host: &'a MtaName,
}
