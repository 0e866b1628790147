//! What all notices of one request have in common: the mail system that they come from, and the
//! header fields in front of each.
//! Implements docs/postfix-internals.md, "The notice of a Postfix log".
ghost use Rattle.std.specs.Option.{option_map};
ghost use Rattle.std.specs.Prelude.{[], ◌++◌, ◌∷◌, ◌≡◌, IfOk, List, Some};
ghost use Rattle.dsn_postfix_files.specs.QueueListing.{QueueEnding, RecordsFrom};
ghost use Rattle.dsn_postfix_files.specs.QueueRecord.{PlacedBytes};
ghost use Rattle.dsn_postfix_files.specs.QueueWalk.{first_place};
ghost use Rattle.dsn_postfix_notices.specs.requests.Heading.{front_of, submitted_data, thread_lines, tls_lines};
ghost use Rattle.dsn_report.specs.Lines.{text_of_lines};

use crate::requests::mail_found::MailFound;
use crate::requests::notice_task::NoticeTask;
use crate::requests::thread_id::{text_searched, thread_id};
use dsn_outcome::Letter;
use dsn_postfix::NoticeRequest;
use dsn_report::{Site, mail_data};
use dsn_text::NoMemory;
use std::alloc::{AllocError, Global};
use std::marker::Model;

/// The field of a notice about a message that has it, with its line end (RFC 8689 section 3).
const TLS_NOT_REQUIRED: &[u8] = b"TLS-Required: no\r\n";

/// How the notices of one request begin.
#[derive(Debug, Drop)]
pub(super) struct NoticeHeading<'a> {
    /// The mail system.
    pub(super) site: &'a Site,
    /// The header fields in front of each notice, each with its line end.
    pub(super) front: &'a [u8],
}

impl<'a> Model for NoticeHeading<'a> {
    ghost use Rattle.dsn_postfix_notices.specs.requests.Heading.{Heading};

    ghost Value = { Heading };

    ghost view = { λ heading. record {
      site = heading.site.now;
      front = heading.front.now;
    } };
}

/// Adds a header field with this name and id.
#[tactic(auto, using(crate::proofs::HeadingLemmas::field_pushed))]
fn push_field(front: &mut Vec<u8>, name: &[u8], id: &[u8]) -> Result<(), AllocError>
    ensures { IfOk result (λ _. front.new.items
        ≡ front.old.items ++ text_of_lines ((name.now ++ id.now) ∷ [])) }
{
    front.extend_from_slice(name)?;
    front.extend_from_slice(id)?;
    front.extend_from_slice(b"\r\n")
}

/// Adds the fields that refer to the message with this id.
fn push_thread(front: &mut Vec<u8>, id: &[u8]) -> Result<(), AllocError>
    ensures { IfOk result (λ _. front.new.items
        ≡ front.old.items ++ text_of_lines (thread_lines (Some id.now))) }
{
    push_field(front, b"References: ", id)?;
    push_field(front, b"In-Reply-To: ", id)
}

/// The fields that refer to the message with this id, or none without an id.
#[tactic(auto, using(crate::proofs::HeadingLemmas::no_lines))]
fn thread_front(alloc: Global, id: Option<&[u8]>) -> Result<Vec<u8>, AllocError>
    ensures { IfOk result (λ front. front.items
        ≡ text_of_lines (thread_lines (option_map (λ id. id.now) id.entry))) }
{
    let mut front = Vec::new(alloc);
    match id {
        Some(id) => {
            push_thread(&mut front, id)?;
            Ok(front)
        }
        None => Ok(front),
    }
}

/// Adds the field of a message that doesn't need TLS, if it is one.
#[tactic(auto, using(crate::proofs::HeadingLemmas::tls_pushed, crate::proofs::HeadingLemmas::no_tls_pushed))]
fn push_tls(front: &mut Vec<u8>, tls_optional: bool) -> Result<(), AllocError>
    ensures { IfOk result (λ _. front.new.items
        ≡ front.old.items ++ text_of_lines (tls_lines tls_optional)) }
{
    if tls_optional {
        front.extend_from_slice(TLS_NOT_REQUIRED)
    } else {
        Ok(())
    }
}

/// The header fields in front of a request's notices, of a message with this id or none to refer
/// to. They are in the order in which bounce(8) has them.
#[tactic(auto, using(crate::proofs::HeadingLemmas::lines_append))]
fn front_with(alloc: Global, id: Option<&[u8]>, tls_optional: bool) -> Result<Vec<u8>, AllocError>
    ensures { IfOk result (λ front. front.items ≡ text_of_lines
        (thread_lines (option_map (λ id. id.now) id.entry) ++ tls_lines tls_optional)) }
{
    let mut front = thread_front(alloc, id)?;
    push_tls(&mut front, tls_optional)?;
    Ok(front)
}

/// The header fields in front of a request's notices.
pub(super) fn front_of(
    alloc: Global,
    task: &NoticeTask<'_>,
    found: &MailFound,
) -> Result<Vec<u8>, AllocError>
    ensures { (records : List PlacedBytes) (ending : QueueEnding)
        → RecordsFrom found.now.file (first_place found.now.file) records ending
        → IfOk result (λ front. front.items ≡ front_of task.now records) }
{
    let notice: &NoticeRequest<'_> = task.notice;
    if !task.is_threaded() {
        return front_with(alloc, None, notice.is_tls_optional());
    }
    let text = text_searched(alloc, found.file())?;
    front_with(
        alloc,
        thread_id(found.file(), &text),
        notice.is_tls_optional(),
    )
}

/// Two texts, one after the other.
fn joined(alloc: Global, first: &[u8], second: &[u8]) -> Result<Vec<u8>, AllocError>
    ensures { IfOk result (λ text. text.items ≡ first.now ++ second.now) }
{
    let mut text = Vec::with_capacity(alloc, first.len().saturating_add(second.len()))?;
    text.extend_from_slice(first)?;
    text.extend_from_slice(second)?;
    Ok(text)
}

impl<'a> NoticeHeading<'a> {
    /// The mail data of a letter's notice, with the fields in front. Returns `NoMemory` only if
    /// memory for it was refused.
    pub(super) fn mail_data(&self, alloc: Global, letter: &Letter) -> Result<Vec<u8>, NoMemory>
        ensures { IfOk result (λ text. text.items ≡ submitted_data self.now letter.now) }
    {
        let notice = mail_data(alloc, self.site, letter)?;
        match joined(alloc, self.front, &notice) {
            Ok(text) => Ok(text),
            Err(_) => Err(NoMemory),
        }
    }
}
