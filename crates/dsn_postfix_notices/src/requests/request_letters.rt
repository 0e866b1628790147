//! The letters of a request for notices, made of what was read for it.
//! Implements docs/postfix-internals.md, "The notice of a Postfix log".
ghost use Rattle.std.specs.Prelude.{◌≡◌, ◌<◌, [], List, length, map, true, IfOk, IfErr, IfSome, MatchOption, OnOk};
ghost use Rattle.std.specs.List.{list_any};
ghost use Rattle.std.specs.Option.{unwrap_or};
ghost use Rattle.dsn_postfix_files.specs.MessageFacts.{message_facts_in, said_of_message};
ghost use Rattle.dsn_postfix_files.specs.QueueListing.{QueueEnding, RecordsFrom};
ghost use Rattle.dsn_postfix_files.specs.QueueRecipients.{BeginsRecipients, RecipientFacts, RecipientsLeft, nothing_before, recipient_facts_in, recipients_of};
ghost use Rattle.dsn_postfix_files.specs.QueueRecord.{PlacedBytes};
ghost use Rattle.dsn_postfix_files.specs.QueueWalk.{first_place, steps_left};
ghost use Rattle.dsn_postfix_notices.specs.letters.ReportedMessage.{message_said_in};
ghost use Rattle.dsn_postfix_notices.specs.requests.RequestLetters.{AreLettersAsked, AreLettersOf, CantBeSaid, first_serial, has_fault, serial_of_log, serial_of_service};
ghost use Rattle.dsn_postfix_notices.specs.inner.RequestLetters.{GainsLetter, IsReason};

use crate::letters::{ReportedMessage, letter_of_notice};
use crate::requests::mail_found::MailFound;
use crate::requests::notice_task::NoticeTask;
use crate::requests::request_terms::RequestTerms;
use crate::requests::service_settings::ServiceSettings;
use crate::requests::untold::Untold;
use dsn_outcome::{LONGEST_HEADER, Letter};
use dsn_postfix::{NoticeRequest, PlannedNotice, plan_notices};
use dsn_postfix_files::{
    LONGEST_FIELD_NAME, MessageFacts, QueueReader, QueuedRecipient, fronts_show_headers,
    queue_files_have_one_list, text_of_message,
};
use dsn_text::{Service, Stamp};
use std::alloc::{AllocError, Global};

/// How many bytes of a message's text letters need. A longer text isn't returned whole, and a
/// header that doesn't end within these bytes isn't returned.
pub(super) const FRONT_OF_TEXT: usize = LONGEST_HEADER + LONGEST_FIELD_NAME + 1;

/// The distance between the first serials of two logs whose lengths differ by one byte. Two logs of
/// a message share a serial only if one of them has more than 500,000 notices, which nothing checks.
const SERIALS: u64 = 1_000_000;

/// The next recipient of a queue file. Returns `None` at its end, or at the place from which it
/// can't be read.
fn next_queued<'a>(reader: &mut QueueReader<'a>) -> Option<QueuedRecipient<'a>>
    ensures listed { (recipients : List RecipientFacts) (ending : QueueEnding)
        → RecipientsLeft reader.old nothing_before recipients ending
        → MatchOption result (recipients ≡ [])
        (λ found. BeginsRecipients (recipient_facts_in found) recipients ending reader.new) }
    ensures fewer { IfSome result (λ _. steps_left (length reader.new.file) reader.new.place
        < steps_left (length reader.old.file) reader.old.place) }
{
    match reader.next_recipient() {
        Ok(found) => found,
        Err(_) => None,
    }
}

/// The recipients of a queue file, done or not, up to the place from which it can't be read.
fn queued_recipients(alloc: Global, file: &[u8]) -> Result<Vec<QueuedRecipient<'_>>, AllocError>
    ensures { (records : List PlacedBytes) (ending : QueueEnding)
        → RecordsFrom file.now (first_place file.now) records ending
        → IfOk result (λ queued. map recipient_facts_in queued.items ≡ recipients_of records) }
{
    let mut queued = Vec::new(alloc);
    let mut reader = QueueReader::new(file);
    while let Some(recipient) = next_queued(&mut reader) {
        queued.push(recipient)?;
    }
    Ok(queued)
}

/// What a file says of its message, even if it can't be read to its end.
pub(super) fn facts_said(file: &[u8]) -> MessageFacts<'_>
    ensures { (records : List PlacedBytes) (ending : QueueEnding)
        → RecordsFrom file.now (first_place file.now) records ending
        → message_facts_in result ≡ said_of_message records }
{
    match MessageFacts::read(file) {
        Ok(facts) => facts,
        Err(broken) => broken.before,
    }
}

/// The sender that a file gives, or else that of a request. They differ if local(8) requests a
/// notice for the owner of a list.
fn sender_said<'a>(facts: &MessageFacts<'a>, asked: &'a [u8]) -> &'a [u8]
    ensures { result.now ≡ unwrap_or (message_facts_in facts.now).sender asked.now }
{
    match facts.sender {
        Some(sender) => sender,
        None => asked,
    }
}

/// Adds the letter of a notice.
fn push_letter(
    alloc: Global,
    letters: &mut Vec<Letter>,
    message: &ReportedMessage<'_>,
    notice: &PlannedNotice<'_>,
    moment: Stamp,
    serial: u64,
) -> Result<(), Untold>
    ensures gained { OnOk result (GainsLetter (message_said_in message.now) moment serial
        notice.now letters.old.items letters.new.items) }
    ensures none { IfErr result (IsReason
        (has_fault (message_said_in message.now) notice.now ≡ true)) }
{
    let letter = letter_of_notice(alloc, message, notice, moment, serial)?;
    letters.push(letter)?;
    Ok(())
}

/// The letters of notices, one for each, in their order.
fn letters_of(
    alloc: Global,
    message: &ReportedMessage<'_>,
    notices: &[PlannedNotice<'_>],
    moment: Stamp,
    first_serial: u64,
) -> Result<Vec<Letter>, Untold>
    ensures letters { IfOk result (λ letters. AreLettersOf (message_said_in message.now) moment
        first_serial notices.now letters.items) }
    ensures none { IfErr result (IsReason
        (list_any (has_fault (message_said_in message.now)) notices.now
        ≡ true)) }
{
    let mut letters = Vec::new(alloc);
    let mut serial = first_serial;
    let mut rest = notices;
    while let [notice, after @ ..] = rest {
        push_letter(alloc, &mut letters, message, notice, moment, serial)?;
        // No two notices of one request may have the same Message-ID.
        serial = serial.wrapping_add(1);
        rest = after;
    }
    Ok(letters)
}

/// How far behind those of a bounce log of the same length the serials of a service's log begin.
fn serial_of_service(service: Service) -> u64
    ensures { result ≡ serial_of_service service }
{
    match service {
        // A flush of either log gives notices of failure, so the service isn't seen in their
        // Message-IDs.
        Service::Defer => SERIALS / 2,
        Service::Bounce | Service::Trace => 0,
    }
}

/// The first serial of a log's letters, by the length of the log. So a notice that is submitted
/// again has the same Message-ID as long as its log is the same, and another once the log has grown.
fn serial_of_log(service: Service, log: &[u8]) -> u64
    ensures { result ≡ serial_of_log service log.now }
{
    let first = (log.len() as u64).wrapping_mul(SERIALS);
    first.wrapping_add(serial_of_service(service))
}

/// The first serial of a request's letters. A request that read no log has that of its terms.
fn first_serial(task: &NoticeTask<'_>, found: &MailFound) -> u64
    ensures { result ≡ first_serial task.now found.now.log }
{
    let terms: &RequestTerms<'_> = task.terms;
    match found.log() {
        Some(log) => serial_of_log(terms.service, log),
        None => terms.first_serial,
    }
}

/// The letters of all notices that a request has of what was read for it.
pub(super) fn letters_asked(
    alloc: Global,
    task: &NoticeTask<'_>,
    found: &MailFound,
) -> Result<Vec<Letter>, Untold>
    ensures letters { IfOk result (λ letters. AreLettersAsked task.now found.now letters.items) }
    ensures none { IfErr result (IsReason (CantBeSaid task.now found.now)) }
{
    let terms: &RequestTerms<'_> = task.terms;
    let settings: &ServiceSettings<'_> = terms.settings;
    let notice: &NoticeRequest<'_> = task.notice;
    queue_files_have_one_list();
    fronts_show_headers();
    let file = found.file();
    let queued = queued_recipients(alloc, file)?;
    let text = text_of_message(alloc, file, FRONT_OF_TEXT)?;
    let facts = facts_said(file);
    let message = ReportedMessage {
        queue_id: notice.queue_id,
        arrival: facts.arrival,
        sender: sender_said(&facts, notice.sender.bytes()),
        envelope_id: notice.envelope_id.bytes(),
        text: &text,
        lifetime: settings.lifetime,
        size_limit: settings.size_limit,
    };
    let double_bounce = settings.double_bounce;
    let notices = plan_notices(
        alloc,
        double_bounce,
        terms.service,
        task.request,
        &queued,
        found.log(),
    )?;
    letters_of(
        alloc,
        &message,
        &notices,
        terms.moment,
        first_serial(task, found),
    )
}
