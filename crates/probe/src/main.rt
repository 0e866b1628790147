//! What the scripts of tests/ and bench/ run to refuse memory, threads, reads and writes, and to
//! measure.
//!
//! `probe call NAME` makes one public call that takes memory, on values that are made before it.
//! For a diagnostic it is `probe call clean TEXT`.
//!
//! `probe crew AGENTS REQUESTS` runs a crew over connections in memory. Each agent serves one,
//! which asks for `REQUESTS` appends, and for agent 0 also for a flush.
//!
//! `probe given MOST CALL NUMBER FAILURE`: one agent serves the connections of standard input, each
//! a length in four bytes and what the peer sends. A read gives at most `MOST` bytes. The call of
//! this kind (`read`, `write`, `post`, `flush`) and number (from 1; 0 for none) fails in this way
//! (`error`, `interruption`, `nothing`). Standard output has `conn` for each connection and the
//! bytes of its answers before the rest.
//!
//! `probe journal FILE SIZE LOGS ENTRIES REQUESTS GROUP MARK` opens the ledger of a file under
//! these limits and a mark. It keeps and answers the frames of standard input, `GROUP` at once. If
//! there is no file, it makes one of `SIZE` bytes; with 0 the file has to exist. Standard output
//! has `opened` and where the next record goes, and then the answers' frames. It has a line for a
//! group that found no room.
//!
//! `probe postfix KIND` reads a file of Postfix from standard input. With `bounce`, `defer` or
//! `trace` that is a log file of bounce(8), whose records it writes to standard output again. With
//! `queue` it is a queue file, of which it writes each record that counts as a line.
//!
//! `probe postfix plan SERVICE` reads a request, the log of that service and the queue file, with a
//! length in four bytes before each. It writes the notices that the request has.
//!
//! `probe postfix many KIND` reads many files of a kind likewise, and writes a line of numbers for
//! each.
//!
//! A test can't refuse a growth or the start of a thread within its process. Over memory a run
//! takes milliseconds, and its ends are known to the byte.
#![tactic(auto)]

mod calls;
mod crew;
mod journal;
mod postfix;
mod task;

use std::io::Read;
use std::process::ExitCode;
use task::{Task, asked_for};

fn main(rt: HostRuntime) -> ExitCode {
    let done = match asked_for(&rt) {
        Some(Task::Call(name, text)) => {
            let text = text.as_ref().map(String::as_str);
            calls::show_call(&rt, rt.alloc(), name.as_str(), text)
        }
        Some(Task::Crew(agents, requests)) => crew::run_peers(&rt, rt.alloc(), agents, requests),
        Some(Task::Given(most, failing)) => match sent(&rt) {
            Some(sent) => crew::run_given(&rt, rt.alloc(), &sent, most, &failing),
            None => None,
        },
        Some(Task::Journal(keeping)) => match sent(&rt) {
            Some(sent) => journal::keep(&rt, &keeping, &sent),
            None => None,
        },
        Some(Task::Postfix(kind)) => match sent(&rt) {
            Some(sent) => postfix::show(&rt, kind, &sent),
            None => None,
        },
        None => None,
    };
    ExitCode::from(u8::from(done.is_none()))
}

/// What standard input gives, to its end.
fn sent(rt: &HostRuntime) -> Option<Vec<u8>> {
    let mut sent = Vec::new(rt.alloc());
    rt.stdin().read_to_end(&mut sent).ok()?;
    Some(sent)
}
