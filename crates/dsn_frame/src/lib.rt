//! Requests and answers in bytes, the frames that carry them, the result of each frame, and
//! sessions of frames.
#![tactic(auto)]

mod bodies;
mod frame;
mod frame_buffer;
mod frame_fault;
mod frame_ref;
mod frame_requests;
mod laws;
mod refusal;
mod serve_fault;
mod session;

pub use bodies::{
    AnswerFault, BodyFault, Spoken, bodies_are_requests_or_refused, decode_answer, decode_request,
    encode_answer, encode_lent, encode_request,
};
pub use frame::{Frame, LONGEST_BODY, read_frame};
pub use frame_buffer::FrameBuffer;
pub use frame_fault::FrameFault;
pub use frame_ref::FrameRef;
pub use frame_requests::next_request;
pub use laws::{
    inputs_are_frames_and_an_end, requests_in_turn_are_taken,
    sessions_are_functions_of_their_bytes, sessions_take_the_frames_of_their_bytes,
};
pub use refusal::Refusal;
pub use serve_fault::ServeFault;
pub use session::{Responder, Served, Turn, run_session};
