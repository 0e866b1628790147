//! The book of a bounce daemon: its open and closed logs, and the effect of each request on them.
#![tactic(auto)]

mod book;
mod closing;
mod entry;
mod index;
mod keeper;
mod limits;
mod not_kept;
mod open_line;
mod releasing_book;
mod ruled_book;
mod step;
mod table;

pub use book::Book;
pub use closing::Closing;
pub use entry::Entry;
pub use keeper::Keeper;
pub use limits::{Limits, MOST_ENTRIES, MOST_LOGS, MOST_REQUESTS};
pub use not_kept::NotKept;
pub use open_line::OpenLine;
pub use releasing_book::{COLLECTOR, ReleasingBook};
pub use ruled_book::RuledBook;
pub use step::Step;
