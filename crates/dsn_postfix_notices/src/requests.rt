//! What one request of Postfix's programs does, in which order, and how it is answered.
mod answering;
mod append;
mod carrying_out;
mod deed_fault;
mod finish;
mod hand_in_letters;
mod laws;
mod letters_made;
mod mail_found;
mod mail_system;
mod notice_heading;
mod notice_task;
mod notify;
mod pass_reason;
mod places_done;
mod postmaster_copies;
mod request_letters;
mod request_status;
mod request_terms;
mod service_settings;
mod thread_id;
mod untold;

pub use answering::answer_request;
pub use carrying_out::queue_id_of;
pub use deed_fault::DeedFault;
pub use laws::{
    answered_appends_stand, bounce_logs_are_told_first, fields_come_before_notices,
    logs_are_removed_after_acceptance, no_notice_causes_another, notices_are_handed_in_once,
};
pub use mail_system::MailSystem;
pub use pass_reason::PassReason;
pub use postmaster_copies::PostmasterCopies;
pub use request_status::{NOT_CARRIED_OUT, pass_on};
pub use request_terms::RequestTerms;
pub use service_settings::ServiceSettings;
