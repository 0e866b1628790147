//! Letters of notices that are planned from what Postfix keeps of a message.
mod letter_fault;
mod notice_draft;
mod notice_letter;
mod plain_status;
mod reported_message;
mod told_outcome;

pub use letter_fault::LetterFault;
pub use notice_letter::letter_of_notice;
pub use reported_message::ReportedMessage;
