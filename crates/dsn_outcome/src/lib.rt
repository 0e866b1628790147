//! The values of a bounce daemon: outcomes, drafts, letters, requests and replies.
#![tactic(auto)]

mod answer;
mod body;
mod chain;
mod draft;
mod draft_fault;
mod draft_parts;
mod extension_fields;
mod lane_item;
mod laws;
mod letter;
mod letter_cell;
mod letter_cells;
mod letters;
mod optional_texts;
mod outcome;
mod outcome_fault;
mod outcome_links;
mod outcome_node;
mod outcome_parts;
mod outcome_texts;
mod request;
mod returned;
mod wording;

pub use answer::{Answer, Replied, Reply};
pub use body::{Body, BodyRef};
pub use chain::{Chain, MOST_OUTCOMES};
pub use draft::Draft;
pub use draft_fault::DraftFault;
pub use draft_parts::{DraftParts, Wishes};
pub use dsn_device::{Broken, Drain, OpaqueStream, Plain, Source, Stream, fill, send};
pub use dsn_text::{
    Action, Address, Clean, EnvelopeId, Key, LAST_MOMENT, LONGEST_ADDRESS, LONGEST_CLEAN,
    LONGEST_ENVELOPE_ID, LONGEST_EXTENSION_TEXT, LONGEST_HEADER, LONGEST_MTA_NAME,
    LONGEST_QUEUE_ID, LONGEST_STATUS, LONGEST_TYPE_NAME, MOST_EXTENSIONS, MtaName, NoMemory,
    QueueId, RawHeader, SHORT_ROOM, Service, ShortText, Stamp, Status, TextFault, keys_are_ordered,
};
pub use lane_item::Carried;
pub use laws::{
    answers_tell_serials, closed_keys_alone_are_forgotten, closed_logs_stay_closed,
    flushes_seal_what_they_expect, histories_answer_each_request, letters_are_numbered,
};
pub use letter::Letter;
pub use letter_cell::DraftTerms;
pub use letters::Letters;
pub use outcome::Outcome;
pub use outcome_fault::OutcomeFault;
pub use outcome_links::Outcomes;
pub use outcome_node::Node;
pub use outcome_parts::{Parts, Types};
pub use request::Request;
pub use returned::Returned;
pub use wording::Wording;
