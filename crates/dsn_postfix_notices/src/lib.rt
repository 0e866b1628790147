//! The result of one request of Postfix's programs: the letters of a log's notices, and the deeds
//! that submit them. All that lies outside is behind one trait.
#![tactic(auto)]

mod letters;
mod requests;

pub use letters::{LetterFault, ReportedMessage, letter_of_notice};
pub use requests::{
    DeedFault, MailSystem, NOT_CARRIED_OUT, PassReason, PostmasterCopies, RequestTerms,
    ServiceSettings, answer_request, answered_appends_stand, bounce_logs_are_told_first,
    fields_come_before_notices, logs_are_removed_after_acceptance, no_notice_causes_another,
    notices_are_handed_in_once, pass_on, queue_id_of,
};
