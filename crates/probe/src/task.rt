//! What the arguments ask for.
use crate::crew::{Call, Failing, Failure};
use crate::journal::Keeping;
use crate::postfix::PostfixFile;
use dsn_book::Limits;
use dsn_text::Service;
use std::env;
use std::env::Args;

/// What to do.
#[derive(Drop)]
pub(crate) enum Task {
    /// Makes the public call of this name, of a diagnostic with its text.
    Call(String, Option<String>),
    /// Runs a crew of the given number of agents, each of which serves the given number of appends.
    Crew(u32, u32),
    /// Runs a crew of one agent over given connections; each read gives at most the given bytes.
    Given(usize, Failing),
    /// Keeps requests in a journal.
    Journal(Keeping),
    /// Reads a file of this kind.
    Postfix(PostfixFile),
}

/// What the arguments ask for; none where they are wrong, or memory was refused.
pub(crate) fn asked_for(rt: &HostRuntime) -> Option<Task> {
    let mut words = env::args(rt).ok()?;
    let _program = words.next();
    let first = words.next()?;
    match first.as_str() {
        "call" => Some(Task::Call(words.next()?, words.next())),
        "crew" => Some(Task::Crew(number(&mut words)?, number(&mut words)?)),
        "given" => given(words),
        "journal" => journal(words),
        "postfix" => Some(Task::Postfix(file_of(words)?)),
        _ => None,
    }
}

/// The next word as a number.
fn number(words: &mut Args) -> Option<u32> {
    words.next()?.as_str().parse().ok()
}

/// The arguments `MOST CALL NUMBER FAILURE` of given connections.
fn given(mut words: Args) -> Option<Task> {
    let most = number(&mut words)?;
    let call = call_of(words.next()?.as_str())?;
    let at = number(&mut words)?;
    let failure = failure_of(words.next()?.as_str())?;
    Some(Task::Given(most as usize, Failing::new(call, u64::from(at), failure)))
}

/// The arguments `FILE SIZE LOGS ENTRIES REQUESTS GROUP MARK` of a journal.
fn journal(mut words: Args) -> Option<Task> {
    let path = words.next()?;
    let size = number(&mut words)?;
    let logs = number(&mut words)?;
    let entries = number(&mut words)?;
    let limits = Limits::new(logs, entries, number(&mut words)?)?;
    let group = number(&mut words)?;
    let mark = u64::from(number(&mut words)?);
    Some(Task::Journal(Keeping {
        path,
        size,
        limits,
        group,
        mark,
    }))
}

/// The kind of file that the next word names; after `plan`, the service whose log comes with a request, and after
/// `many` a service or `queue`.
fn file_of(mut words: Args) -> Option<PostfixFile> {
    let word = words.next()?;
    match word.as_str() {
        "queue" => Some(PostfixFile::Queue),
        "plan" => Some(PostfixFile::Plan(service_of(words.next()?.as_str())?)),
        "many" => Some(PostfixFile::Many(service_of(words.next()?.as_str()))),
        other => Some(PostfixFile::Log(service_of(other)?)),
    }
}

/// The service that a word names.
fn service_of(word: &str) -> Option<Service> {
    match word {
        "bounce" => Some(Service::Bounce),
        "defer" => Some(Service::Defer),
        "trace" => Some(Service::Trace),
        _ => None,
    }
}

/// The call that a word names.
fn call_of(word: &str) -> Option<Call> {
    match word {
        "read" => Some(Call::Read),
        "write" => Some(Call::Write),
        "post" => Some(Call::Post),
        "flush" => Some(Call::Flush),
        _ => None,
    }
}

/// The failure that a word names.
fn failure_of(word: &str) -> Option<Failure> {
    match word {
        "error" => Some(Failure::Error),
        "interruption" => Some(Failure::Interruption),
        "nothing" => Some(Failure::Nothing),
        _ => None,
    }
}
