//! Submits letters, one after another.
//! Implements docs/postfix-internals.md, "A connection".
ghost use Rattle.std.specs.Prelude.{◌≡◌};
ghost use Rattle.dsn_postfix_notices.specs.requests.Gains.{Gains};
ghost use Rattle.dsn_postfix_notices.specs.inner.HandingIn.{HandsInAll, HandsInOne};
ghost use Rattle.dsn_postfix_notices.specs.requests.HandingIn.{refusal_of};

use crate::requests::mail_system::MailSystem;
use crate::requests::notice_heading::NoticeHeading;
use crate::requests::pass_reason::PassReason;
use crate::requests::untold::Untold;
use dsn_outcome::Letter;
use dsn_smtp::{HandInFault, ReplyBuffer};
use std::alloc::Global;

/// Why a sender isn't notified after a letter wasn't accepted. The request is passed on only if its
/// first letter on one log is refused for good. Then no letter was accepted, so another service can
/// notify the sender of all of it.
fn refusal(is_first: bool, fault: HandInFault) -> Untold
    ensures { result ≡ refusal_of is_first fault }
{
    // Once a letter was accepted, nothing is passed on: bounce(8) would notify its recipient again.
    if is_first && fault.is_refused_for_good() {
        Untold::PassedOn(PassReason::Refused)
    } else {
        Untold::Failed
    }
}

/// Submits one letter. `is_first` says whether it is the first of its request.
fn hand_in_letter<M: MailSystem>(
    alloc: Global,
    heading: &NoticeHeading<'_>,
    letter: &Letter,
    is_first: bool,
    system: &mut M,
) -> Result<(), Untold>
    ensures { Gains M.deeds system.old system.new (HandsInOne heading.now is_first letter.now result) }
{
    let message = heading.mail_data(alloc, letter)?;
    let mut reply = ReplyBuffer::new();
    match system.hand_in(letter.return_path(), &message, &mut reply) {
        Ok(()) => Ok(()),
        Err(fault) => Err(refusal(is_first, fault)),
    }
}

/// Submits letters in their order, each once. Stops at the first that isn't accepted.
pub(super) fn hand_in_letters<M: MailSystem>(
    alloc: Global,
    heading: &NoticeHeading<'_>,
    letters: &[Letter],
    system: &mut M,
) -> Result<(), Untold>
    ensures { Gains M.deeds system.old system.new (HandsInAll heading.now letters.now result) }
{
    let mut is_first = true;
    for letter in letters {
        hand_in_letter(alloc, heading, letter, is_first, system)?;
        is_first = false;
    }
    Ok(())
}
