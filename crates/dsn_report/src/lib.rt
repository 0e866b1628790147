//! Delivery status notifications: the text of a notice, and the outbox, to which notices are
//! written as mail transactions.
#![tactic(auto)]

mod boundary_number;
mod extension_lines;
mod laws;
mod letter_boundary;
mod line_writer;
mod mail_transaction;
mod notice_lines;
mod notice_text;
mod notice_wording;
mod outbox_end;
mod outgoing;
mod pending_bytes;
mod plain_words;
mod post_fault;
mod poster;
mod preface;
mod returned_lines;
mod returned_text;
mod ruled_out_boundaries;
mod site;
mod template;
mod template_fault;
mod template_parts;
mod templates;

pub use boundary_number::boundary;
pub use laws::{
    data_law, division_law, dots_law, empty_log_law, grammar_law, lines_law, outbox_law,
    well_formed_law,
};
pub use notice_text::{mail_data, notice};
pub use outbox_end::OutboxEnd;
pub use outgoing::Outgoing;
pub use post_fault::PostFault;
pub use poster::{Ended, Poster};
pub use site::{LONGEST_HOST, Site, SiteFault};
pub use template::Template;
pub use template_fault::TemplateFault;
pub use templates::Templates;
