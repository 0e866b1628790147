//! Why no notice can be made of a log. Postfix's own service then makes the notice.
//! Implements docs/postfix-internals.md, "The notice of a Postfix log".
use dsn_postfix_files::LogField;
use thiserror::Error;

/// Why the notices of a request can't be expressed.
#[derive(Clone, Copy, Debug, Drop, PartialEq, Eq, Error)]
pub enum CantSay {
    /// The log of a notice of failure is missing, so it is unknown which recipients to report.
    #[error("the log is missing")]
    NoLog,
    /// The log has no whole record at this place, in bytes.
    #[error("the log is damaged at byte {0}")]
    DamagedPart(u64),
    /// The message was submitted with SMTPUTF8 (RFC 6531).
    #[error("the message needs SMTPUTF8")]
    NeedsSmtputf8,
    /// These send options have a bit that no notice keeps: 32 or an unknown one.
    #[error("the message has send options {0}")]
    SendOptions(u32),
    /// This field of the request's recipient can't be expressed.
    #[error("{0} can't be said")]
    Unlogged(LogField),
    /// The action of a recipient is not one of RFC 3464 section 2.3.3.
    #[error("an action that RFC 3464 does not know")]
    UnknownAction,
}
