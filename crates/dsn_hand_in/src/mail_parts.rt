//! What a mail outlet is made of, and what is left of it.
use crate::sited_letter::SitedLetter;
use dsn_device::Stream;
use dsn_submission::Submitter;

/// The letters that wait for a mail server, the server, and the places where refused letters are
/// kept, and which ones are settled.
#[derive(Drop)]
pub struct MailParts<'s, S: Stream, C, K, M> {
    /// The letters that wait.
    pub submitter: Submitter<SitedLetter<'s>, S>,
    /// The mail server.
    pub server: C,
    /// The place where letters that are refused for good are kept.
    pub refused: K,
    /// The place where it is kept which letters are settled.
    pub marks: M,
}
