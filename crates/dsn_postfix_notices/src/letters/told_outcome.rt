//! The outcome that a notice reports for a log's record.
//! Implements docs/postfix-internals.md, "The notice of a Postfix log".
//! If a text can't be reported as it is, Postfix's own service makes the notice: a cleaned address
//! would name another recipient. Only a diagnostic or a reason is cut.
ghost use Rattle.std.specs.Prelude.{◌≡◌, ◌≤◌, length, take, IfErr, IfOk, OnOk, None};
ghost use Rattle.std.specs.List.{after_first, before_first, position_or_len};
ghost use Rattle.dsn_postfix_files.specs.LogRecord.{logged_fields_in};
ghost use Rattle.dsn_postfix_notices.specs.letters.LetterFault.{IsLetterFault};
ghost use Rattle.dsn_postfix_notices.specs.letters.ToldOutcome.{action_said, diagnostic_said, first_told_fault, is_remote_type, is_semicolon, is_usual_type, original_said, original_told, outcome_told, unless_final};
ghost use Rattle.dsn_text.specs.Text.{longest_clean};

use crate::letters::letter_fault::LetterFault;
use crate::letters::plain_status::plain_status;
use dsn_outcome::{Action, LONGEST_CLEAN, Node, Outcome, Parts, Service, Stamp, Types};
use dsn_postfix_files::LogRecord;
use std::alloc::Global;

/// A text with its type; an empty type means the usual one.
#[derive(Clone, Copy)]
struct TypedText<'a> {
    kind: &'a [u8],
    text: &'a [u8],
}

/// The first `most` bytes of a text, or all of a shorter text.
fn first_bytes(most: usize, text: &[u8]) -> &[u8]
    ensures { result.now ≡ take most text.now }
{
    &text[..most.min(text.len())]
}

/// The front of a text that fits in an outcome.
fn cut_short(text: &[u8]) -> &[u8]
    ensures { result.now ≡ take longest_clean text.now }
{
    first_bytes(LONGEST_CLEAN, text)
}

/// The index of the first semicolon, or the length of a text without one.
fn semicolon_place(text: &[u8]) -> usize
    ensures place { result ≡ position_or_len is_semicolon text.now }
    ensures within { result ≤ length text.now }
{
    text.iter()
        .position(|&byte| byte == b';')
        .unwrap_or(text.len())
}

/// The parts before and after the first semicolon. A text without one is all `kind`.
fn parted_at_semicolon(text: &[u8]) -> TypedText<'_>
    ensures kind { result.kind.now ≡ before_first is_semicolon text.now }
    ensures text { result.text.now ≡ after_first is_semicolon text.now }
{
    let place = semicolon_place(text);
    if place < text.len() {
        TypedText {
            kind: &text[..place],
            text: &text[place + 1..],
        }
    } else {
        TypedText {
            kind: text,
            text: &text[place..],
        }
    }
}

/// The original recipient with its type: `said` split at its semicolon, or `rewritten` if `said` is
/// empty.
fn original_said<'a>(said: &'a [u8], rewritten: &'a [u8]) -> TypedText<'a>
    ensures kind { result.kind.now ≡ (original_said said.now rewritten.now).kind }
    ensures text { result.text.now ≡ (original_said said.now rewritten.now).text }
{
    if said.is_empty() {
        TypedText {
            kind: b"",
            text: rewritten,
        }
    } else {
        parted_at_semicolon(said)
    }
}

/// Whether a type of address is the usual one, which is empty or `rfc822`.
fn is_usual_type(kind: &[u8]) -> bool
    ensures { result ≡ is_usual_type kind.now }
{
    kind.is_empty() || kind.eq_ignore_ascii_case(b"rfc822")
}

/// An original recipient, or an empty one if it is the final recipient, which the notice names
/// anyway.
fn unless_final<'a>(recipient: &[u8], original: TypedText<'a>) -> TypedText<'a>
    ensures kind { result.kind.now ≡ (unless_final recipient.now
        (record { kind = original.entry.kind.now; text = original.entry.text.now })).kind }
    ensures text { result.text.now ≡ (unless_final recipient.now
        (record { kind = original.entry.kind.now; text = original.entry.text.now })).text }
{
    // RFC 3461 wants it if the sender gave ORCPT, but without ORCPT smtpd(8) logs the address of
    // RCPT too. Readers that begin a recipient at Final-Recipient, as bounce(8) does, would assign
    // it to the recipient before.
    if is_usual_type(original.kind) && original.text == recipient {
        return TypedText {
            kind: b"",
            text: b"",
        };
    }
    original
}

/// The original recipient that a notice reports for a record.
fn original_told<'a>(found: &LogRecord<'a>) -> TypedText<'a>
    ensures kind { result.kind.now ≡ (original_told (logged_fields_in found.now)).kind }
    ensures text { result.text.now ≡ (original_told (logged_fields_in found.now)).text }
{
    let original = original_said(found.dsn_original, found.original_recipient);
    unless_final(found.recipient, original)
}

/// The diagnostic with its type, or the mail system's own reason if the type or the text is empty.
fn diagnostic_said<'a>(kind: &'a [u8], text: &'a [u8], reason: &'a [u8]) -> TypedText<'a>
    ensures kind { result.kind.now ≡ (diagnostic_said kind.now text.now reason.now).kind }
    ensures text { result.text.now ≡ (diagnostic_said kind.now text.now reason.now).text }
{
    if !kind.is_empty() && !text.is_empty() {
        return TypedText {
            kind,
            text: cut_short(text),
        };
    }
    TypedText {
        kind: if reason.is_empty() { b"" } else { b"X-Postfix" },
        text: cut_short(reason),
    }
}

/// The byte of the action that a word names, or 0 if it names no action.
fn action_said(word: &[u8]) -> u8
    ensures { result ≡ action_said word.now }
{
    match Action::from_word(word) {
        Some(action) => action.byte(),
        None => 0,
    }
}

/// Whether a remote system's name is absent or of the type `dns`, the only one that a notice
/// reports.
fn is_remote_type(kind: &[u8], name: &[u8]) -> bool
    ensures { result ≡ is_remote_type kind.now name.now }
{
    name.is_empty() || kind.eq_ignore_ascii_case(b"dns")
}

/// Makes the outcome that a notice of `service` reports for a record. `until` is the moment until
/// which delivery is tried.
/// Returns `RemoteType` if a remote system's name has another type than `dns`, `Outcome` if a field
/// is not valid, and `NoMemory` if memory was refused.
#[tactic(auto, using(crate::proofs::LetterLemmas::outcome_fault_is, crate::proofs::LetterLemmas::outcome_is))]
pub(super) fn outcome_told(
    alloc: Global,
    service: Service,
    until: Option<Stamp>,
    found: &LogRecord<'_>,
) -> Result<Box<Node>, LetterFault>
    ensures told { IfOk result
        (λ node. node.value.outcome ≡ outcome_told service until (logged_fields_in found.now)) }
    ensures service { IfOk result (λ node. node.value.outcome.service ≡ service) }
    ensures accepted { OnOk result
        (first_told_fault service until (logged_fields_in found.now) ≡ None) }
    ensures refused { IfErr result
        (IsLetterFault (first_told_fault service until (logged_fields_in found.now))) }
{
    if !is_remote_type(found.mta_type, found.mta_name) {
        return Err(LetterFault::RemoteType);
    }
    let original = original_told(found);
    let diagnostic = diagnostic_said(found.diagnostic_type, found.diagnostic_text, found.reason);
    let status = plain_status(alloc, found.status)?;
    let types = Types {
        recipient: b"",
        original: original.kind,
        diagnostic: diagnostic.kind,
    };
    let parts = Parts {
        recipient: found.recipient,
        original: original.text,
        action: action_said(found.action),
        status: &status,
        mta: found.mta_name,
        diagnostic: diagnostic.text,
        reason: cut_short(found.reason),
        last_attempt: None,
        retry_until: until,
        types,
        extensions: b"",
    };
    Ok(Outcome::new(alloc, service, parts)?)
}
