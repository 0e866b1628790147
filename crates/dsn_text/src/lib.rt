//! The parts of a bounce daemon's outcomes and requests: texts, codes, keys and moments.
#![tactic(auto)]

mod action;
mod address;
mod block_order;
mod clean;
mod envelope_id;
mod extension;
pub mod fault_code;
mod fault_table;
mod key;
mod laws;
mod mta_name;
mod no_memory;
mod packed_stamp;
mod queue_id;
mod raw_header;
mod service;
mod short_text;
mod stamp;
mod status;
mod text;
mod type_name;

pub use action::Action;
pub use address::{Address, LONGEST_ADDRESS};
pub use clean::{Clean, LONGEST_CLEAN, replace_unprintable};
pub use envelope_id::{EnvelopeId, LONGEST_ENVELOPE_ID};
pub use extension::{
    LONGEST_EXTENSION_NAME, LONGEST_EXTENSION_TEXT, LONGEST_EXTENSION_VALUE, MOST_EXTENSIONS,
    first_ended_line, is_extension_text,
};
pub use fault_table::{FAULT_WORDS, fault_words};
pub use key::Key;
pub use laws::keys_are_ordered;
pub use mta_name::{LONGEST_MTA_NAME, MtaName};
pub use no_memory::NoMemory;
pub use packed_stamp::PackedStamp;
pub use queue_id::{LONGEST_QUEUE_ID, QueueId};
pub use raw_header::{LONGEST_HEADER, RawHeader};
pub use service::Service;
pub use short_text::{SHORT_ROOM, ShortText};
pub use stamp::{LAST_MOMENT, Stamp};
pub use status::{LONGEST_STATUS, Status};
pub use text::TextFault;
pub use type_name::{LONGEST_TYPE_NAME, is_type_name};
