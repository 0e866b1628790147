//! Lists the content of a journal's folder in lines. Both files are only read: each is opened in a
//! copy in memory.
#![tactic(auto)]

mod closed_keys;
mod copied_disk;
mod copied_folder;
mod journal_listing;
mod listing_fault;
mod listing_lines;
mod listing_texts;

pub use copied_disk::CopiedDisk;
pub use journal_listing::list_journal;
pub use listing_fault::ListingFault;
