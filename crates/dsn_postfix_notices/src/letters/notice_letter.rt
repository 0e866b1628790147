//! The letter of a planned notice.
//! Implements docs/postfix-internals.md, "The notice of a Postfix log".
ghost use Rattle.std.specs.Prelude.{◌≡◌, ◌≤◌, ℕ, IfErr, IfOk, None, OnOk, length, map};
ghost use Rattle.dsn_outcome.specs.Outcomes.{most_outcomes};
ghost use Rattle.dsn_postfix_files.specs.LogRecord.{logged_fields_in};
ghost use Rattle.dsn_postfix_notices.specs.letters.LetterFault.{IsLetterFault};
ghost use Rattle.dsn_postfix_notices.specs.letters.NoticeLetter.{IsLetterOf, first_fault_of_told, first_letter_fault};
ghost use Rattle.dsn_postfix_notices.specs.letters.ReportedMessage.{message_said_in};
ghost use Rattle.dsn_postfix_notices.specs.letters.ToldOutcome.{outcome_told};

use crate::letters::letter_fault::LetterFault;
use crate::letters::notice_draft::{draft_told, tried_until};
use crate::letters::reported_message::ReportedMessage;
use crate::letters::told_outcome::outcome_told;
use dsn_outcome::{Chain, Key, Letter, MOST_OUTCOMES, Service, Stamp};
use dsn_postfix::PlannedNotice;
use dsn_postfix_files::LogRecord;
use std::alloc::Global;

/// The outcomes that a notice of a service reports for records, in their order. Requires at most
/// 1,000 records.
fn outcomes_told(
    alloc: Global,
    service: Service,
    until: Option<Stamp>,
    found: &[LogRecord<'_>],
) -> Result<Chain, LetterFault>
    requires few { length found.now ≤ most_outcomes }
    ensures told { IfOk result
        (λ chain. chain ≡ map (outcome_told service until) (map logged_fields_in found.now)) }
    ensures accepted { OnOk result
        (first_fault_of_told service until (map logged_fields_in found.now) ≡ None) }
    ensures refused { IfErr result
        (IsLetterFault (first_fault_of_told service until (map logged_fields_in found.now))) }
{
    let mut chain = Chain::new();
    let mut rest = found;
    while let [next, after @ ..] = rest {
        chain.push(outcome_told(alloc, service, until, next)?);
        rest = after;
    }
    Ok(chain)
}

/// Makes the letter of a planned notice about a message, at `moment`. The caller chooses the
/// serial, which is a part of the Message-ID.
/// Tests for faults in the order of [`LetterFault`]'s variants; the last two are tested record by
/// record. Returns `NoMemory` only if memory was refused, and then also before a later fault.
#[tactic(auto, using(crate::proofs::LetterLemmas::told_of_service))]
pub fn letter_of_notice(
    alloc: Global,
    message: &ReportedMessage<'_>,
    notice: &PlannedNotice<'_>,
    moment: Stamp,
    serial: u64,
) -> Result<Letter, LetterFault>
    ensures letter { IfOk result
        (λ letter. (arrival : ℕ) × IsLetterOf (message_said_in message.now)
        notice.now moment serial arrival letter) }
    ensures accepted { OnOk result
        (first_letter_fault (message_said_in message.now) notice.now ≡ None) }
    ensures refused { IfErr result
        (IsLetterFault (first_letter_fault (message_said_in message.now)
        notice.now)) }
{
    if notice.outcomes.is_empty() || notice.outcomes.len() > MOST_OUTCOMES as usize {
        return Err(LetterFault::Count);
    }
    let arrival = message
        .arrival
        .and_then(Stamp::new)
        .ok_or(LetterFault::Arrival)?;
    let draft = draft_told(alloc, message, notice, moment, arrival)?;
    let until = tried_until(notice.service, arrival, message.lifetime);
    let chain = outcomes_told(alloc, notice.service, until, &notice.outcomes)?;
    let key = Key {
        service: notice.service,
        id: message.queue_id,
    };
    Ok(Letter::seal(key, draft, chain, serial))
}
