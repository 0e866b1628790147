//! A notice to be made.
//! Implements docs/postfix-internals.md, "The notice of a Postfix log".
use crate::returned_part::ReturnedPart;
use dsn_postfix_files::LogRecord;
use dsn_text::Service;
use std::marker::Model;

/// A notice to be made: its addressee, what it returns of the message, and the outcomes that it
/// reports.
#[derive(Debug, Drop)]
pub struct PlannedNotice<'a> {
    /// The sender of the message, to whom the notice goes.
    pub to: &'a [u8],
    /// The two delimiters of the recipient in the address of the notice, if the sender wanted the
    /// recipient there (VERP).
    pub delimiters: Option<&'a [u8]>,
    /// The kind of notice: of failure, of delay, or of deliveries.
    pub service: Service,
    /// What it returns of the message.
    pub returned: ReturnedPart,
    /// The outcomes that it reports, in the log's order.
    pub outcomes: Vec<LogRecord<'a>>,
}

impl<'a> Model for PlannedNotice<'a> {
    ghost use Rattle.std.specs.Option.{option_map};
    ghost use Rattle.std.specs.Prelude.{map};
    ghost use Rattle.dsn_postfix.specs.PlannedNotice.{NoticeFacts};
    ghost use Rattle.dsn_postfix_files.specs.LogRecord.{logged_fields_in};

    ghost Value = { NoticeFacts };

    ghost view = { λ notice. record {
      to = notice.to.now;
      delimiters = option_map (λ text. text.now) notice.delimiters;
      service = notice.service;
      returned = notice.returned;
      outcomes = map logged_fields_in notice.outcomes.items;
    } };
}
