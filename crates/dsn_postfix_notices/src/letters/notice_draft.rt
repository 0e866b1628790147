//! The draft of a planned notice.
//! Implements docs/postfix-internals.md, "The notice of a Postfix log".
ghost use Rattle.std.specs.Prelude.{◌≡◌, ◌≤◌, ◌++◌, codes, IfErr, IfOk, IsSome, None, OnOk};
ghost use Rattle.dsn_postfix_notices.specs.letters.LetterFault.{IsLetterFault};
ghost use Rattle.dsn_postfix_notices.specs.letters.NoticeDraft.{IsDraftTold, first_draft_fault_told, is_named_sender, is_returned_whole, is_said_sender, postfix_fields, return_path_line, returned_as, returned_text, sender_field, tried_until};
ghost use Rattle.dsn_postfix_notices.specs.letters.ReportedMessage.{message_said_in};

use crate::letters::letter_fault::LetterFault;
use crate::letters::reported_message::ReportedMessage;
use dsn_outcome::{Address, Draft, DraftParts, LONGEST_HEADER, Returned, Service, Stamp, Wording};
use dsn_postfix::{PlannedNotice, ReturnedPart, needs_no_quotes};
use dsn_postfix_files::header_of_message;
use std::alloc::{AllocError, Global};

/// The longest sender in an extension field, in bytes. With `rfc822; ` in front, the field's value
/// has at most 255 bytes.
const LONGEST_SENDER: usize = 247;

/// The moment until which delivery is tried, if a notice of this service reports it. Returns `None`
/// if that moment is after the year 9999.
pub(super) fn tried_until(service: Service, arrival: Stamp, lifetime: u32) -> Option<Stamp>
    ensures { result ≡ tried_until service arrival lifetime }
{
    match service {
        Service::Defer => Stamp::new(arrival.seconds() + u64::from(lifetime)),
        Service::Bounce | Service::Trace => None,
    }
}

/// Adds a field. `name` includes the separator before the value.
fn push_field(fields: &mut Vec<u8>, name: &[u8], value: &[u8]) -> Result<(), AllocError>
    ensures { OnOk result (fields.new.items ≡ fields.old.items
        ++ (name.now ++ (value.now ++ codes "\n"))) }
{
    fields.extend_from_slice(name)?;
    fields.extend_from_slice(value)?;
    fields.push(b'\n')?;
    Ok(())
}

/// Whether a sender is a valid address that fits in an extension field.
fn is_said_sender(sender: &[u8]) -> bool
    ensures { result ≡ is_said_sender sender.now }
{
    Address::is_valid(sender) && sender.len() <= LONGEST_SENDER
}

/// Adds the field of a message's sender, if that is a valid address that fits.
fn push_sender(fields: &mut Vec<u8>, sender: &[u8]) -> Result<(), AllocError>
    ensures { OnOk result (fields.new.items ≡ fields.old.items ++ sender_field sender.now) }
{
    if !is_said_sender(sender) {
        return Ok(());
    }
    push_field(fields, b"X-Postfix-Sender: rfc822; ", sender)
}

/// The fields that Postfix adds to those about the message as a whole.
fn postfix_fields(alloc: Global, queue_id: &[u8], sender: &[u8]) -> Result<Vec<u8>, AllocError>
    ensures { IfOk result (λ fields. fields.items ≡ postfix_fields queue_id.now sender.now) }
{
    let mut fields = Vec::new(alloc);
    push_field(&mut fields, b"X-Postfix-Queue-ID: ", queue_id)?;
    push_sender(&mut fields, sender)?;
    Ok(fields)
}

/// Whether a field can name a sender: the null sender, or a valid address without quotes.
fn is_named_sender(sender: &[u8]) -> bool
    ensures { result ≡ is_named_sender sender.now }
{
    sender.is_empty() || Address::is_valid(sender) && needs_no_quotes(sender)
}

/// The line with a message's sender that is before what is returned of it, or no bytes if a field
/// cannot name the sender.
fn return_path_line(alloc: Global, sender: &[u8]) -> Result<Vec<u8>, AllocError>
    ensures { IfOk result (λ line. line.items ≡ return_path_line sender.now) }
{
    let mut line = Vec::new(alloc);
    if is_named_sender(sender) {
        line.extend_from_slice(b"Return-Path: <")?;
        line.extend_from_slice(sender)?;
        line.extend_from_slice(b">\n")?;
    }
    Ok(line)
}

/// Whether a message is returned whole behind the line of its sender; `size_limit` is in bytes.
fn is_returned_whole(part: ReturnedPart, size_limit: u32, line: &[u8], text: &[u8]) -> bool
    ensures { result ≡ is_returned_whole part size_limit line.now text.now }
{
    match part {
        // The first limit counts the text, where bounce(8) counts the queue file.
        ReturnedPart::Whole => {
            text.len() <= size_limit as usize && line.len() + text.len() <= LONGEST_HEADER
        }
        ReturnedPart::Header => false,
    }
}

/// The part of a message that is returned, behind the line of its sender.
fn returned_text(line: Vec<u8>, whole: bool, text: &[u8]) -> Result<Vec<u8>, AllocError>
    ensures { IfOk result
        (λ returned. returned.items ≡ returned_text whole line.items text.now) }
{
    let mut returned = line;
    returned.extend_from_slice(if whole { text } else { header_of_message(text) })?;
    Ok(returned)
}

/// What the draft's `header` field holds.
fn returned_as(whole: bool) -> Returned
    ensures { result ≡ returned_as whole }
{
    if whole {
        // Postfix's own smtpd has 8BITMIME, and smtp(8) converts for a server that lacks it.
        Returned::EightBitMessage
    } else {
        Returned::Header
    }
}

/// Makes the draft of a planned notice. Returns `Quotes` if its address needs quotes in SMTP,
/// `Draft` if a field is not valid, and `NoMemory` if memory was refused.
#[tactic(auto, using(crate::proofs::LetterLemmas::some_address))]
pub(super) fn draft_told(
    alloc: Global,
    message: &ReportedMessage<'_>,
    notice: &PlannedNotice<'_>,
    moment: Stamp,
    arrival: Stamp,
) -> Result<Draft, LetterFault>
    ensures told { IfOk result
        (IsDraftTold (message_said_in message.now) notice.now moment arrival) }
    ensures has_return { IfOk result (λ draft. IsSome draft.return_path) }
    ensures accepted { OnOk result
        (first_draft_fault_told (message_said_in message.now) notice.now
        ≡ None) }
    ensures refused { IfErr result
        (IsLetterFault (first_draft_fault_told (message_said_in message.now)
        notice.now)) }
{
    let address = notice.address(alloc)?;
    // Without its quotes it could be read as another address.
    if !needs_no_quotes(&address) {
        return Err(LetterFault::Quotes);
    }
    let fields = postfix_fields(alloc, message.queue_id.bytes(), message.sender)?;
    let line = return_path_line(alloc, message.sender)?;
    let whole = is_returned_whole(notice.returned, message.size_limit, &line, message.text);
    let returned = returned_text(line, whole, message.text)?;
    let parts = DraftParts {
        return_path: &address,
        envelope_id: message.envelope_id,
        header: &returned,
        expected: None,
        returned: Some(returned_as(whole)),
        wording: Some(Wording::ByOutcome),
        extensions: &fields,
    };
    match Draft::read(alloc, moment, arrival, parts) {
        Ok(draft) => Ok(draft),
        Err(fault) => Err(LetterFault::from(fault)),
    }
}
