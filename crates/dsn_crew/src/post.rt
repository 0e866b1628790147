//! The way of a letter to its outlet: a lane of letters, and a poster on a thread of its own.
mod finished_sink;
mod letter_lane;
mod letter_sink;
mod letter_source;
mod outlet;
mod parcel;
mod posted;
mod posting;
mod posting_end;
mod posting_start;
mod sink;

pub use letter_lane::open_post;
pub use letter_sink::LetterSink;
pub use letter_source::LetterSource;
pub use outlet::Outlet;
pub(crate) use posted::Posted;
pub use posting::Posting;
pub(crate) use posting_end::end_posting;
pub use posting_start::{Posts, start_posting};
pub use sink::Sink;
