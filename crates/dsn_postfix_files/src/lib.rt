//! Postfix's files of a message: the log of its recipients, and its queue file.
#![tactic(auto)]

mod broken_message;
mod laws;
mod log_entry;
mod log_field;
mod log_line;
mod log_part;
mod log_reader;
mod log_record;
mod log_write_error;
mod log_writer;
mod message_facts;
mod message_header;
mod message_text;
mod placed_record;
mod queue_broken;
mod queue_reader;
mod queue_record;
mod queue_step;
mod queued_recipient;
mod recipient_state;
mod said_before;
mod zero_free;

pub use broken_message::BrokenMessage;
pub use laws::{
    fronts_show_headers, log_files_are_read_whole, queue_files_have_one_list,
    written_logs_are_read_back,
};
pub use log_entry::{DamagedEntry, LogEntry};
pub use log_field::LogField;
pub use log_line::without_outer_spaces;
pub use log_reader::LogReader;
pub use log_record::{LogRecord, full_text_or, usual_action, usual_status};
pub use log_write_error::LogWriteError;
pub use log_writer::is_full_loggable;
pub use message_facts::MessageFacts;
pub use message_header::{LONGEST_FIELD_NAME, header_of_message, message_id_of_text};
pub use message_text::text_of_message;
pub use placed_record::PlacedRecord;
pub use queue_broken::QueueBroken;
pub use queue_reader::QueueReader;
pub use queue_record::QueueRecord;
pub use queued_recipient::QueuedRecipient;
pub use recipient_state::RecipientState;
pub use zero_free::is_zero_free;
