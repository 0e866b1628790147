//! Submits notices to a mail server: a client of SMTP (RFC 5321) that waits for each reply, or for
//! those to a group of commands (RFC 2920).
#![tactic(auto)]

mod body;
mod command;
mod command_line;
mod connect;
mod dialogue;
mod extensions;
mod group_replies;
mod hand_in_fault;
mod hand_in_step;
mod handed_in;
mod kept_or_new;
mod kept_sessions;
mod mail_server;
mod mail_stream;
mod pipelining;
mod queue_id_text;
mod read_ahead;
mod reply_buffer;
mod reply_class;
mod reply_code;
mod reply_fault;
mod reply_state;
mod server_address;
mod session;
mod submission;
mod transaction;

pub use body::Body;
pub use connect::Connect;
pub use dialogue::say;
pub use extensions::Extensions;
pub use hand_in_fault::HandInFault;
pub use hand_in_step::HandInStep;
pub use handed_in::HandedIn;
pub use kept_or_new::hand_in_over;
pub use kept_sessions::KeptSessions;
pub use mail_server::{MailConnection, MailServer};
pub use mail_stream::MailStream;
pub use queue_id_text::{after_last_byte, queue_id_in};
pub use reply_buffer::{LONGEST_REPLY, ReplyBuffer};
pub use reply_class::ReplyClass;
pub use reply_code::ReplyCode;
pub use reply_fault::ReplyFault;
pub use server_address::ServerAddress;
pub use session::Session;
pub use submission::Submission;
pub use transaction::{greet, hand_in_notice, leave};
