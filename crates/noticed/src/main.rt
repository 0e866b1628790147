//! The command `noticed`: what is asked of it, and the exit status. What it does is the library's.
#![tactic(auto)]

mod arguments;
mod batch_command;
mod buffer;
mod command_line;
mod config_file;
mod done_file;
mod fault_list;
mod fault_note;
mod hand_in_command;
mod journal_command;
mod journal_copies;
mod journal_files;
mod listening;
mod log_command;
mod outbox_text;
mod outbox_writer;
mod postfix_command;
mod postfix_serving;
mod postfix_values;
mod preview_command;
mod refused_file;
mod resubmit_command;
mod run_file;
mod send_command;
mod serve_command;
mod serve_values;
mod service_socket;
mod socket_fault;
mod standard_streams;
mod start_error;
mod status_command;
mod status_metrics;
mod status_socket;
mod stop_command;
mod template_files;
mod usage;
mod watched_server;

use arguments::{Command, command_of};
use batch_command::run_batch;
use dsn_text::fault_code;
use fault_list::fault_list;
use fault_note::print_fault_line;
use hand_in_command::run_hand_in;
use journal_command::run_journal;
use log_command::run_log_request;
use postfix_command::run_postfix;
use preview_command::run_preview;
use resubmit_command::run_resubmit;
use send_command::run_send;
use serve_command::run_serve;
use standard_streams::take_closed_streams;
use start_error::StartError;
use status_command::run_status;
use std::alloc::{AllocError, Global};
use std::process::ExitCode;
use stop_command::run_stop;
use usage::usage_line;

fn main(rt: HostRuntime) -> ExitCode {
    let done = match begin(&rt) {
        Ok(Command::Batch { site }) => run_batch(&rt, site),
        Ok(Command::Serve(arguments)) => run_serve(&rt, &rt, arguments),
        Ok(Command::Stop { socket }) => run_stop(&rt, &socket),
        Ok(Command::Send { socket }) => run_send(&rt, &rt, &socket),
        Ok(Command::Log(arguments)) => run_log_request(&rt, &rt, arguments),
        Ok(Command::Status { socket, view }) => run_status(&rt, &socket, view),
        Ok(Command::Journal { folder }) => run_journal(&rt, &folder),
        Ok(Command::HandIn(arguments)) => run_hand_in(&rt, arguments),
        Ok(Command::Resubmit(arguments)) => run_resubmit(&rt, arguments),
        Ok(Command::Postfix(serving)) => run_postfix(&rt, &rt, serving),
        Ok(Command::Preview(arguments)) => run_preview(&rt, arguments),
        Ok(Command::Faults) => print_faults(&rt),
        Err(start_error) => Err(start_error),
    };
    ExitCode::from(match done {
        Ok(status) => status,
        Err(start_error) => print_start_error(&rt, &start_error),
    })
}

/// Sees to the standard streams, and then reads what the arguments ask for.
fn begin(rt: &HostRuntime) -> Result<Command, StartError> {
    take_closed_streams(rt)?;
    command_of(rt)
}

/// Prints the numbers of faults and refusals with their words. Returns the status.
fn print_faults(rt: &HostRuntime) -> Result<u8, StartError> {
    let list = fault_list(rt.alloc())?;
    match print!(rt; "{list}") {
        Ok(()) => Ok(0),
        Err(_) => Ok(1),
    }
}

/// Prints why a command isn't started, or the help or the version that was asked for. Returns the
/// status.
fn print_start_error(rt: &HostRuntime, start_error: &StartError) -> u8 {
    match start_error {
        StartError::CommandLine(shown) if !shown.use_stderr() => {
            let _ = shown.print(rt);
            return 0;
        }
        StartError::CommandLine(error) => {
            if let Ok(text) = format!(in rt.alloc(); "{error}") {
                print_line(rt, reason_in(text.as_str()));
            }
        }
        StartError::Wrong(reason) => {
            if let Ok(text) = format!(in rt.alloc(); "error: {reason}") {
                print_line(rt, text.as_str());
            }
        }
        StartError::NotText => {
            let _ = eprintln!(rt; "error: an argument is not UTF-8");
        }
        StartError::NoMemory => {
            print_fault_line(rt, fault_code::NO_MEMORY);
            return 1;
        }
        StartError::NoStream(error) => {
            let _ = eprintln!(rt; "the standard streams could not be seen to: {error}");
            return 1;
        }
    }
    let _ = eprintln!(rt; "{}", usage_line(rt));
    let _ = eprintln!(rt; "try 'noticed help'");
    2
}

/// What the parser of the command line says of an error, before its own usage.
fn reason_in(text: &str) -> &str {
    match text.split_once("\n\n") {
        Some((reason, _usage)) => reason,
        None => text,
    }
}

/// Prints a text as one line.
fn print_line(rt: &HostRuntime, text: &str) {
    if let Ok(line) = joined(rt.alloc(), text) {
        let _ = eprintln!(rt; "{line}");
    }
}

/// The lines of a text in one, each after a space. An argument may have several.
fn joined(alloc: Global, text: &str) -> Result<String, AllocError> {
    let mut joined = String::new(alloc);
    for line in text.lines() {
        if !joined.is_empty() {
            joined.push_str(" ")?;
        }
        joined.push_str(line.trim())?;
    }
    Ok(joined)
}
