//! What Postfix's programs ask of bounce(8), as lists of attributes: the log record of an append,
//! and the notices of a request for notices.
#![tactic(auto)]

mod attribute_reader;
mod attribute_text;
mod attribute_writer;
mod cant_say;
mod decode;
mod encode;
mod laws;
mod list_buffer;
mod list_dialogue;
mod list_fault;
mod list_state;
mod logged_append;
mod notice_plan;
mod number;
mod plan_fault;
mod planned_notice;
mod postfix_answer;
mod postfix_request;
mod queue_name;
mod quoted_address;
mod recipient_set;
mod request_fault;
mod request_reading;
mod returned_part;
mod told_recipients;
mod verp_delimiters;
mod verp_path;
mod wanted;
mod whole_records;

pub use attribute_text::AttributeText;
pub use cant_say::CantSay;
pub use decode::decode_postfix_request;
pub use encode::encode_postfix_request;
pub use laws::{lists_are_read_as_written, notices_tell_each_once};
pub use list_buffer::{LONGEST_LIST, ListBuffer};
pub use list_dialogue::hear_list;
pub use list_fault::ListFault;
pub use logged_append::logged_as;
pub use notice_plan::plan_notices;
pub use plan_fault::PlanFault;
pub use planned_notice::PlannedNotice;
pub use postfix_answer::{decode_status, encode_announcement, encode_status};
pub use postfix_request::{
    AppendRequest, DeliveryReport, NoticeRequest, PostfixRequest, ReportedRecipient,
};
pub use queue_name::QueueName;
pub use quoted_address::needs_no_quotes;
pub use request_fault::RequestFault;
pub use returned_part::ReturnedPart;
pub use verp_delimiters::VerpDelimiters;
