//! Requests and answers in bytes: how they are encoded and decoded, and why bytes are refused.
//! Implements noticed-protocol(5).
mod answer;
mod answer_fault;
mod body_fault;
mod body_parts;
mod decode;
mod encode;
mod laws;
mod read_fields;
mod spoken;
mod write_fields;

pub use answer::{decode_answer, encode_answer};
pub use answer_fault::AnswerFault;
pub use body_fault::BodyFault;
pub use decode::decode_request;
pub use encode::{encode_lent, encode_request};
pub use laws::bodies_are_requests_or_refused;
pub use spoken::Spoken;

/// The first version of the format: the first byte of each answer's body, and of most requests.
const VERSION: u8 = 1;

/// The second version: the first byte of a Forget, and of an append with moments.
const SECOND_VERSION: u8 = 2;

/// The third version: the first byte of an append with types or extension fields, and of a flush
/// whose further terms aren't the usual ones.
const THIRD_VERSION: u8 = 3;
