//! A request for notices.
//! Implements docs/postfix-internals.md, "A connection".
ghost use Rattle.std.specs.Prelude.{◌≡◌};
ghost use Rattle.dsn_postfix_notices.specs.requests.Gains.{Gains};
ghost use Rattle.dsn_postfix_notices.specs.requests.NoticeDeeds.{EndsTelling, IsNotified, Tells, TellsOrLeaves};

use crate::requests::finish::finish;
use crate::requests::hand_in_letters::hand_in_letters;
use crate::requests::letters_made::make_letters;
use crate::requests::mail_found::read_mail;
use crate::requests::mail_system::MailSystem;
use crate::requests::notice_heading::NoticeHeading;
use crate::requests::notice_task::NoticeTask;
use crate::requests::pass_reason::PassReason;
use crate::requests::request_status::{CARRIED_OUT, NOT_CARRIED_OUT, pass_on};
use crate::requests::untold::Untold;
use dsn_postfix_files::queue_files_have_one_list;
use dsn_text::NoMemory;
use std::alloc::Global;

/// Reads the log and the message, and notifies the message's sender. Makes all letters of what was
/// read, and only then submits the first. Once all are accepted, marks the recipients that are
/// done, and removes the log.
fn tell<M: MailSystem>(alloc: Global, task: &NoticeTask<'_>, system: &mut M) -> Result<(), Untold>
    ensures { Gains M.deeds system.old system.new (Tells task.now result) }
{
    queue_files_have_one_list();
    let found = read_mail(alloc, task, system)?;
    // All of them, and the list of places to mark: what can't be expressed, or has no memory, shows
    // before anybody is notified. A letter's text is made in its turn.
    let made = make_letters(alloc, task, &found)?;
    let heading = NoticeHeading {
        site: task.site(),
        front: &made.front,
    };
    hand_in_letters(alloc, &heading, &made.letters, system)?;
    finish(task, found.log(), &made.places, system)
}

/// Notifies the message's sender, unless the postmaster gets a copy of the notices.
fn tell_or_leave<M: MailSystem>(
    alloc: Global,
    task: &NoticeTask<'_>,
    system: &mut M,
) -> Result<(), Untold>
    ensures { Gains M.deeds system.old system.new (TellsOrLeaves task.now result) }
{
    if task.is_copied() {
        return Err(Untold::PassedOn(PassReason::Postmaster));
    }
    tell(alloc, task, system)
}

/// Does what is left after the sender was notified or wasn't, and returns the status.
fn end_telling<M: MailSystem>(
    task: &NoticeTask<'_>,
    bytes: &[u8],
    telling: Result<(), Untold>,
    system: &mut M,
) -> Result<u32, NoMemory>
    ensures { Gains M.deeds system.old system.new (EndsTelling task.now.terms.service bytes.now telling result) }
{
    match telling {
        Ok(()) => Ok(CARRIED_OUT),
        Err(Untold::Failed) => Ok(NOT_CARRIED_OUT),
        // Not put off: Postfix repeats a request that fails, and one that always fails would stay
        // in the queue. A server that refuses a notice for good mostly refuses it again, and
        // bounce(8) submits its notices to cleanup(8).
        Err(Untold::PassedOn(why)) => Ok(pass_on(system, task.service(), bytes, why)),
        // Not a status: so no implementation can drop a request untried and answer that it failed.
        Err(Untold::NoMemory) => Err(NoMemory),
    }
}

/// Notifies the message's sender as a request asks, releases the log, and returns the status. If the
/// postmaster gets a copy, a notice can't be expressed, or the first letter is refused for good,
/// passes the whole request on to Postfix's own service.
pub(super) fn notify<M: MailSystem>(
    alloc: Global,
    task: &NoticeTask<'_>,
    bytes: &[u8],
    system: &mut M,
) -> Result<u32, NoMemory>
    ensures { Gains M.deeds system.old system.new
        (IsNotified task.now bytes.now result) }
{
    let telling = tell_or_leave(alloc, task, system);
    // First, since an append of Postfix's own service takes this lock.
    system.release_log();
    end_telling(task, bytes, telling, system)
}
