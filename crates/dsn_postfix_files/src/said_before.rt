//! The facts of a recipient in the records before its own.
//! Implements docs/postfix-internals.md, "Postfix's queue files".
ghost use Rattle.std.specs.Prelude.{◌≡◌};
ghost use Rattle.dsn_postfix_files.specs.LogRecord.{number_if_said, number_or_0, written_number};
ghost use Rattle.dsn_postfix_files.specs.QueueRecipients.{after_record, nothing_before, recipient_facts_in, recipient_with, with_attribute};
ghost use Rattle.dsn_postfix_files.specs.inner.QueueReading.{said_before_in};
ghost use Rattle.dsn_postfix_files.specs.QueueRecord.{placed_bytes_in};
ghost use Rattle.dsn_postfix_files.specs.declared.log_field.LogField.TheVariants.{NotifyFlags};

use crate::log_field::LogField;
use crate::log_line::value_named;
use crate::log_record::written_number;
use crate::placed_record::PlacedRecord;
use crate::queued_recipient::QueuedRecipient;
use crate::recipient_state::RecipientState;

/// The facts since the last recipient. An empty text and the number 0 mean a missing fact.
#[derive(Clone, Copy)]
pub(super) struct SaidBefore<'a> {
    pub(super) original: &'a [u8],
    pub(super) dsn_original: &'a [u8],
    pub(super) notify_flags: u8,
}

/// The flags in a text, or 0 if they aren't valid.
fn notify_flags(text: &[u8]) -> u8
    ensures { result ≡ number_or_0 (number_if_said NotifyFlags (written_number text.now)) }
{
    match written_number(text) {
        Some(number) if LogField::NotifyFlags.may_say(number) => number as u8,
        _ => 0,
    }
}

impl<'a> SaidBefore<'a> {
    /// No facts.
    pub(super) fn nothing() -> SaidBefore<'a>
        ensures { said_before_in result ≡ nothing_before }
    {
        SaidBefore {
            original: &[],
            dsn_original: &[],
            notify_flags: 0,
        }
    }

    /// These facts and that of an attribute.
    fn with_attribute(self, bytes: &'a [u8]) -> SaidBefore<'a>
        ensures { said_before_in result ≡ with_attribute (said_before_in self.entry) bytes.now }
    {
        if let Some(text) = value_named(b"dsn_orig_rcpt", bytes) {
            return SaidBefore {
                dsn_original: text,
                ..self
            };
        }
        match value_named(b"notify_flags", bytes) {
            Some(text) => SaidBefore {
                notify_flags: notify_flags(text),
                ..self
            },
            None => self,
        }
    }

    /// These facts and that of a record.
    #[tactic(auto, unfolding(crate::specs::QueueRecipients::after_record))]
    pub(super) fn after_record(self, found: PlacedRecord<'a>) -> SaidBefore<'a>
        ensures { said_before_in result
            ≡ after_record (said_before_in self.entry) (placed_bytes_in found.entry) }
    {
        match found.kind {
            b'O' => SaidBefore {
                original: found.bytes,
                ..self
            },
            b'o' => SaidBefore {
                dsn_original: found.bytes,
                ..self
            },
            b'n' => SaidBefore {
                notify_flags: notify_flags(found.bytes),
                ..self
            },
            b'A' => self.with_attribute(found.bytes),
            _ => self,
        }
    }

    /// The recipient of a record, with these facts.
    pub(super) fn recipient(
        self,
        found: PlacedRecord<'a>,
        state: RecipientState,
    ) -> QueuedRecipient<'a>
        ensures { recipient_facts_in result
            ≡ recipient_with (said_before_in self.entry) (placed_bytes_in found.entry) state }
    {
        QueuedRecipient {
            place: found.place,
            address: found.bytes,
            original: self.original,
            dsn_original: self.dsn_original,
            notify_flags: self.notify_flags,
            state,
        }
    }
}
