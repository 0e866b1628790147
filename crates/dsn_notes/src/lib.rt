//! The notes of a run: the texts of their lines, and the lines at the end of the run.
#![tactic(auto)]

mod last_lines;
mod note_lines;

pub use last_lines::{status_of, write_last_lines, write_open_lines};
pub use note_lines::{answer_line, fault_line, push_key, unsent_line};
