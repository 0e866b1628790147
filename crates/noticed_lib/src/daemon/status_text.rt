//! The text of a run's status.
//! noticed-serve(8), has its lines.
use crate::daemon::board::Board;
use crate::daemon::open_logs::OpenLog;
use dsn_text::fault_words;
use std::alloc::{AllocError, Global};
use std::fmt::Write;

/// How many agents a run has, how many of them have a connection, for how many seconds it goes on, and
/// whether it is ending.
#[derive(Clone, Copy)]
pub(crate) struct RunCounts {
    pub(crate) is_ending: bool,
    pub(crate) agents: u32,
    pub(crate) busy: u32,
    pub(crate) uptime: u64,
}

/// The lines of a run's status, each a name, a space and a value. Returns an error if there is no
/// memory for them.
pub(crate) fn status_text(
    alloc: Global,
    board: &Board,
    run: RunCounts,
) -> Result<String, AllocError> {
    let mut text = String::new(alloc);
    let keys = board.key_counts();
    writeln!(text, "state {}", state_of(keys.limit, run.is_ending))?;
    add(&mut text, "uptime_seconds", run.uptime)?;
    add(&mut text, "agents", u64::from(run.agents))?;
    add(&mut text, "agents_busy", u64::from(run.busy))?;
    add(&mut text, "keys_limit", u64::from(keys.limit))?;
    add(&mut text, "keys_held", u64::from(keys.held()))?;
    add(&mut text, "keys_open", u64::from(keys.open))?;
    add(&mut text, "keys_closed", u64::from(keys.closed))?;
    add(&mut text, "keys_released", keys.released)?;
    add_all(&mut text, &board.requests.named())?;
    add_all(&mut text, &board.answers.named())?;
    add_all(&mut text, &board.events())?;
    if board.journal_size() > 0 {
        add(&mut text, "journal_used", board.journal_used())?;
        add(&mut text, "journal_size", board.journal_size())?;
    }
    add_fault(&mut text, board)?;
    add_open_logs(&mut text, board.open_logs(alloc), run.uptime)?;
    Ok(text)
}

/// The state of a run. Its keeper says how many keys it may hold once the journal is read: until then
/// all other counts are 0.
fn state_of(keys_limit: u32, is_ending: bool) -> &'static str {
    if is_ending {
        "ending"
    } else if keys_limit == 0 {
        "starting"
    } else {
        "serving"
    }
}

/// Adds a line.
fn add(text: &mut String, name: &str, value: u64) -> Result<(), AllocError> {
    writeln!(text, "{name} {value}")
}

/// Adds a line for each of these.
fn add_all(text: &mut String, lines: &[(&'static str, u64)]) -> Result<(), AllocError> {
    for (name, value) in lines {
        add(text, name, *value)?;
    }
    Ok(())
}

/// Adds the line of the last fault, if there is one.
fn add_fault(text: &mut String, board: &Board) -> Result<(), AllocError> {
    let Some((code, error)) = board.last_fault() else {
        return Ok(());
    };
    let words = fault_words(code);
    match error {
        None => writeln!(text, "last_fault {code}: {words}"),
        Some(error) => writeln!(text, "last_fault {code}: {words}: {error}"),
    }
}

/// Adds how many open logs are listed, and a line for each of them, the oldest first.
fn add_open_logs(text: &mut String, logs: Vec<OpenLog>, uptime: u64) -> Result<(), AllocError> {
    let mut logs = logs;
    logs.sort_unstable_by_key(|log| log.since);
    add(text, "listed", logs.len() as u64)?;
    for log in logs.iter() {
        add_open_log(text, log, uptime)?;
    }
    Ok(())
}

/// Adds the line of an open log: its service, its queue id, how many outcomes it has, and its age in
/// seconds.
fn add_open_log(text: &mut String, log: &OpenLog, uptime: u64) -> Result<(), AllocError> {
    let service = char::from(log.key.service.letter());
    let id = str::from_utf8(log.key.id.bytes()).unwrap_or("");
    let age = uptime.saturating_sub(log.since);
    writeln!(text, "open {service} {id} {} {age}", log.outcomes)
}
