//! Submits letters to a mail server, and keeps those that wait until they are settled.
#![tactic(auto)]

mod deeds;
mod delay;
mod laws;
mod mail;
mod submitter;
mod verdict;
mod waiting;

pub use deeds::{Marks, RefusedLetters};
pub use laws::{letters_keep_their_places, only_settling_settles};
pub use mail::{Mail, Transaction};
pub use submitter::{Handled, Submitter};
pub use verdict::{Verdict, reason_of, verdict_of};
pub use waiting::{Waiting, Waits};
