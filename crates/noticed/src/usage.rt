//! The usage line that follows the reason if arguments are wrong.
use std::alloc::AllocGlobal;
use std::env;
use std::rt::Env;

/// The line of the commands over frames, and that of a command which isn't known.
const FRAMES: &str = "usage: noticed batch HOST | serve SOCKET HOST AGENTS MAX-USE | send SOCKET";

/// The other commands, each with its line.
const OTHERS: [(&str, &str); 10] = [
    ("stop", "usage: noticed stop SOCKET"),
    (
        "status",
        "usage: noticed status [--open|--prometheus] SOCKET",
    ),
    ("discard", "usage: noticed discard SOCKET SERVICE ID"),
    ("forget", "usage: noticed forget SOCKET SERVICE ID"),
    ("journal", "usage: noticed journal FOLDER"),
    (
        "hand-in",
        "usage: noticed hand-in [--done FILE] [--give-up SECONDS] HAND-IN",
    ),
    ("resubmit", "usage: noticed resubmit FOLDER HOST HAND-IN"),
    (
        "postfix",
        "usage: noticed postfix [OPTIONS] QUEUE-FOLDER HOST HAND-IN",
    ),
    (
        "preview",
        "usage: noticed preview [OPTIONS] QUEUE-FOLDER HOST ID",
    ),
    ("faults", "usage: noticed faults"),
];

/// The usage line of the command that the arguments name.
pub(crate) fn usage_line<R: Env + AllocGlobal>(rt: &R) -> &'static str {
    let Ok(mut words) = env::args(rt) else {
        return FRAMES;
    };
    match words.nth(1) {
        Some(name) => line_of(name.as_str()),
        None => FRAMES,
    }
}

/// The usage line of the command of this name.
fn line_of(name: &str) -> &'static str {
    match OTHERS.iter().find(|(command, _)| *command == name) {
        Some((_, line)) => line,
        None => FRAMES,
    }
}
