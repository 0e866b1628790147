//! An outlet of a crew's letters that submits them to a mail server, and keeps those that are settled
//! in a journal.
#![tactic(auto)]

mod journal_marks;
mod laws;
mod mail_outlet;
mod mail_parts;
mod run_clock;
mod sited_letter;
mod submissions;

pub use journal_marks::JournalMarks;
pub use laws::{crashes_count_only_settled, only_deeds_settle, outlet_keeps_letters};
pub use mail_outlet::MailOutlet;
pub use mail_parts::MailParts;
pub use run_clock::RunClock;
pub use sited_letter::SitedLetter;
pub use submissions::Submissions;
