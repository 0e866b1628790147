//! A ledger: a book over a journal. Each request is durable before it is carried out. Opening a
//! ledger again restores its logs, and returns the letters that no mark counts.
#![tactic(auto)]

mod compacting;
mod file_limits;
mod forgetting;
mod header;
mod keep_error;
mod kept;
mod kept_book;
mod laws;
mod ledger;
mod ledger_error;
mod making_room;
mod new_file;
mod opening;
mod opening_to_raise;
mod raising;
mod replay;
mod snapshot;
mod staying;

pub use file_limits::limits_in;
pub use keep_error::KeepError;
pub use kept_book::KeptBook;
pub use laws::{
    books_over_snapshots_are_in_place, histories_in_place_go_on_alike,
    ledgers_have_earlier_histories, ledgers_have_one_history, snapshots_are_in_place,
};
pub use ledger::Ledger;
pub use ledger_error::{LedgerError, LedgerNotOpened};
pub use opening::{Opened, open};
pub use opening_to_raise::open_to_raise;
