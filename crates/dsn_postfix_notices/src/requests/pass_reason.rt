//! Why a request is passed on to Postfix's own service.
use crate::letters::LetterFault;
use dsn_postfix::{CantSay, RequestFault};
use dsn_postfix_files::LogField;
use thiserror::Error;

/// Why a request is passed on to Postfix's own service, for its line in the event log. No contract
/// depends on it.
#[derive(Clone, Copy, Debug, Drop, PartialEq, Eq, Error)]
pub enum PassReason {
    /// Its bytes are not a valid request.
    #[error("{0}")]
    NoRequest(RequestFault),
    /// No line of a log can express this field of the record to append.
    #[error("{0} can't be said in a log")]
    NoRecord(LogField),
    /// Its notices can't be planned.
    #[error("{0}")]
    NoPlan(CantSay),
    /// No letter can be made of one of its notices.
    #[error("{0}")]
    NoLetter(LetterFault),
    /// The postmaster gets a copy of its notices.
    #[error("the postmaster gets a copy")]
    Postmaster,
    /// The mail server refused its first notice for good.
    #[error("the mail server refused its notice for good")]
    Refused,
}
