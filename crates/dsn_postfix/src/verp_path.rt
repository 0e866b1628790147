//! The address of a notice that contains its recipient.
//! Implements docs/postfix-internals.md, "What Postfix's programs send".
ghost use Rattle.std.specs.Prelude.{◌≡◌, ◌++◌, IfOk, OnOk};
ghost use Rattle.dsn_postfix_files.specs.LogRecord.{logged_fields_in};
ghost use Rattle.dsn_postfix.specs.VerpPath.{led_by, notice_address, verp_path, verp_recipient};

use crate::planned_notice::PlannedNotice;
use crate::quoted_address::{domain_part, local_part};
use dsn_postfix_files::LogRecord;
use std::alloc::{AllocError, Global};

/// Adds a text after a byte, unless the text is empty.
fn push_led(path: &mut Vec<u8>, byte: u8, text: &[u8]) -> Result<(), AllocError>
    ensures { OnOk result (path.new.items ≡ path.old.items ++ led_by byte text.now) }
{
    if text.is_empty() {
        return Ok(());
    }
    path.push(byte)?;
    path.extend_from_slice(text)?;
    Ok(())
}

/// A copy of a text.
fn copied(alloc: Global, text: &[u8]) -> Result<Vec<u8>, AllocError>
    ensures { IfOk result (λ copy. copy.items ≡ text.now) }
{
    let mut copy = Vec::new(alloc);
    copy.extend_from_slice(text)?;
    Ok(copy)
}

/// A sender's address that contains a recipient's, by two delimiters.
fn verp_path(
    alloc: Global,
    sender: &[u8],
    delimiters: &[u8],
    recipient: &[u8],
) -> Result<Vec<u8>, AllocError>
    ensures { IfOk result (λ path. path.items ≡ verp_path sender.now delimiters.now recipient.now) }
{
    let [before, within, ..] = delimiters else {
        return copied(alloc, sender);
    };
    // These are the log's texts, so a quoted local part keeps its quotes within the new one, as
    // with bounce(8).
    let mut path = copied(alloc, local_part(sender))?;
    path.push(*before)?;
    path.extend_from_slice(local_part(recipient))?;
    push_led(&mut path, *within, domain_part(recipient))?;
    push_led(&mut path, b'@', domain_part(sender))?;
    Ok(path)
}

/// The recipient before it was rewritten, or the recipient if the record has no other.
fn verp_recipient<'a>(fields: &LogRecord<'a>) -> &'a [u8]
    ensures { result.now ≡ verp_recipient (logged_fields_in fields.now) }
{
    if fields.original_recipient.is_empty() {
        fields.recipient
    } else {
        fields.original_recipient
    }
}

impl<'a> PlannedNotice<'a> {
    /// The address to which it goes: the sender's, which contains the recipient if the sender
    /// wanted that. Returns an error only if memory was refused.
    pub fn address(&self, alloc: Global) -> Result<Vec<u8>, AllocError>
        ensures { IfOk result (λ path. path.items ≡ notice_address self.now) }
    {
        match (self.delimiters, self.outcomes.as_slice()) {
            (Some(delimiters), [fields, ..]) => {
                verp_path(alloc, self.to, delimiters, verp_recipient(fields))
            }
            _ => copied(alloc, self.to),
        }
    }
}
