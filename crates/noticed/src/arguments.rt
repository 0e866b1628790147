//! The arguments: which command they name, and what it is given.
use crate::command_line::command_line;
use crate::fault_list::fault_list;
use crate::hand_in_command::{HandInArguments, HandInTerms};
use crate::log_command::{LogArguments, LogRequest};
use crate::postfix_serving::PostfixServing;
use crate::postfix_values::postfix_serving;
use crate::preview_command::PreviewArguments;
use crate::resubmit_command::ResubmitArguments;
use crate::serve_values::serve_arguments;
use crate::start_error::StartError;
use crate::status_command::StatusView;
use clap::ArgMatches;
use dsn_report::{Site, SiteFault};
use dsn_text::QueueId;
use noticed_lib::{Serving, WatchOptions};
use std::alloc::Global;
use std::env;
use std::io::ErrorKind;
use std::rt::Env;

/// The most agents.
pub(crate) const MOST_AGENTS: u32 = 16;

/// The most connections of an agent.
pub(crate) const MOST_USE: u32 = 1_000_000;

/// The longest idle limit, in seconds.
pub(crate) const MOST_IDLE: u32 = 86_400;

/// The longest path of a socket that the system takes, in bytes.
pub(crate) const LONGEST_PATH: usize = 107;

/// What the arguments ask for.
#[derive(Drop)]
pub(crate) enum Command {
    /// `batch HOST`.
    Batch {
        /// The site that the host names.
        site: Site,
    },
    /// `serve [OPTION].. SOCKET HOST AGENTS MAX-USE`.
    Serve(ServeArguments),
    /// `stop SOCKET`.
    Stop {
        /// The path of the socket.
        socket: String,
    },
    /// `send SOCKET`.
    Send {
        /// The path of the socket.
        socket: String,
    },
    /// `discard SOCKET SERVICE ID` and `forget SOCKET SERVICE ID`.
    Log(LogArguments),
    /// `status [OPTION] SOCKET`.
    Status {
        /// The path of the daemon's socket.
        socket: String,
        /// What is printed.
        view: StatusView,
    },
    /// `journal FOLDER`.
    Journal {
        /// The folder of the journal.
        folder: String,
    },
    /// `hand-in [OPTION].. HAND-IN`.
    HandIn(HandInArguments),
    /// `resubmit FOLDER HOST HAND-IN`.
    Resubmit(ResubmitArguments),
    /// `postfix [OPTION].. QUEUE-FOLDER HOST HAND-IN`.
    Postfix(PostfixServing),
    /// `preview [OPTION].. QUEUE-FOLDER HOST ID`.
    Preview(PreviewArguments),
    /// `faults`.
    Faults,
}

/// What `serve` is given.
#[derive(Drop)]
pub(crate) struct ServeArguments {
    /// The path of the socket.
    pub(crate) socket: String,
    /// The host's name.
    pub(crate) host: String,
    /// The site that the host names, 1 to 16 agents, 1 to 1,000,000 connections for each, and what the
    /// book holds.
    pub(crate) serving: Serving,
    /// What its options ask for.
    pub(crate) options: ServeOptions,
}

/// What the options of `serve` ask for.
#[derive(Drop)]
pub(crate) struct ServeOptions {
    /// The place of the notices, and the folder of the journal.
    pub(crate) destination: Destination,
    /// The size up to which the journal's file is lengthened, in MiB.
    pub(crate) max_journal: u32,
    /// What the run's watch is asked to do.
    pub(crate) watch: WatchOptions,
}

/// The place of the notices of `serve`, and the folder of the journal.
#[derive(Drop)]
pub(crate) enum Destination {
    /// An outbox.
    Outbox {
        /// Its path, if it isn't standard output.
        path: Option<String>,
        /// The folder of the journal, if there is to be one.
        journal: Option<String>,
    },
    /// A mail server.
    Server {
        /// The mail server, and for how long it is tried.
        terms: HandInTerms,
        /// The folder of the journal.
        journal: String,
    },
}

/// The command that the arguments name, with what it is given.
pub(crate) fn command_of(rt: &HostRuntime) -> Result<Command, StartError> {
    let alloc = rt.alloc();
    let words = words_of(rt)?;
    let faults = fault_list(alloc)?;
    let line = command_line(alloc, faults.as_str())?;
    let given = line.try_get_matches_from(words.as_slice())?;
    match given.subcommand() {
        Some((name, given)) => command_given(rt, name, given),
        // The parser requires a command.
        None => Err(StartError::wrong(alloc, "COMMAND", "one of the program's", "")),
    }
}

/// The words of the command line, the program's name among them.
fn words_of(rt: &HostRuntime) -> Result<Vec<String>, StartError> {
    let words = match env::args(rt) {
        Ok(words) => words,
        Err(error) if error.kind() == ErrorKind::OutOfMemory => return Err(StartError::NoMemory),
        Err(_) => return Err(StartError::NotText),
    };
    Ok(words.collect(rt.alloc())?)
}

/// The command of this name, with what it is given.
fn command_given(
    rt: &HostRuntime,
    name: &str,
    given: &ArgMatches<'_>,
) -> Result<Command, StartError> {
    let alloc = rt.alloc();
    match name {
        "batch" => Ok(Command::Batch {
            site: site_of(alloc, text_of(given, "HOST"))?,
        }),
        "serve" => Ok(Command::Serve(serve_arguments(rt, given)?)),
        "stop" => Ok(Command::Stop {
            socket: socket_of(alloc, given)?,
        }),
        "send" => Ok(Command::Send {
            socket: socket_of(alloc, given)?,
        }),
        "discard" => Ok(Command::Log(LogArguments::of(alloc, LogRequest::Discard, given)?)),
        "forget" => Ok(Command::Log(LogArguments::of(alloc, LogRequest::Forget, given)?)),
        "status" => Ok(Command::Status {
            socket: socket_of(alloc, given)?,
            view: view_of(given),
        }),
        "journal" => Ok(Command::Journal {
            folder: owned(alloc, text_of(given, "FOLDER"))?,
        }),
        "hand-in" => Ok(Command::HandIn(HandInArguments::of(alloc, given)?)),
        "resubmit" => Ok(Command::Resubmit(ResubmitArguments::of(alloc, given)?)),
        "faults" => Ok(Command::Faults),
        "preview" => Ok(Command::Preview(PreviewArguments::of(rt, given)?)),
        _ => Ok(Command::Postfix(postfix_serving(rt, given)?)),
    }
}

/// What `status` prints.
fn view_of(given: &ArgMatches<'_>) -> StatusView {
    if given.get_flag("open") {
        StatusView::Open
    } else if given.get_flag("prometheus") {
        StatusView::Metrics
    } else {
        StatusView::Counts
    }
}

/// The text of an argument; the empty text if it isn't given.
pub(crate) fn text_of<'a>(given: &ArgMatches<'a>, name: &str) -> &'a str {
    given.get_str(name).unwrap_or("")
}

/// The number that an argument says: 1 to `most` in decimal, without leading zeros.
pub(crate) fn number_of(
    alloc: Global,
    given: &ArgMatches<'_>,
    name: &str,
    most: u32,
) -> Result<u32, StartError> {
    number_in(alloc, name, text_of(given, name), most)
}

/// The number that a word says: 1 to `most` in decimal, without leading zeros. Returns an error that
/// has the name of the argument otherwise.
pub(crate) fn number_in(
    alloc: Global,
    name: &str,
    word: &str,
    most: u32,
) -> Result<u32, StartError> {
    if matches!(word.as_bytes().first(), Some(b'1'..=b'9')) {
        if let Ok(number) = word.parse::<u32>() {
            if number <= most {
                return Ok(number);
            }
        }
    }
    match format!(in alloc; "1 to {most}") {
        Ok(allowed) => Err(StartError::wrong(alloc, name, allowed.as_str(), word)),
        Err(_) => Err(StartError::NoMemory),
    }
}

/// The site that a host names.
pub(crate) fn site_of(alloc: Global, host: &str) -> Result<Site, StartError> {
    match Site::new(alloc, host.as_bytes()) {
        Ok(site) => Ok(site),
        Err(SiteFault::BadHost) => Err(StartError::wrong(
            alloc,
            "HOST",
            "1 to 255 letters, digits, dots and hyphens",
            host,
        )),
        Err(SiteFault::NoMemory) => Err(StartError::NoMemory),
    }
}

/// The queue id that the argument ID says.
pub(crate) fn queue_id_of(alloc: Global, given: &ArgMatches<'_>) -> Result<QueueId, StartError> {
    let id = text_of(given, "ID");
    match QueueId::new(id.as_bytes()) {
        Some(id) => Ok(id),
        None => Err(StartError::wrong(alloc, "ID", "1 to 32 letters and digits", id)),
    }
}

/// The path of the socket, as it is given: who connects or binds there tests it.
pub(crate) fn socket_of(alloc: Global, given: &ArgMatches<'_>) -> Result<String, StartError> {
    owned(alloc, text_of(given, "SOCKET"))
}

/// A text of its own.
pub(crate) fn owned(alloc: Global, text: &str) -> Result<String, StartError> {
    Ok(format!(in alloc; "{text}")?)
}
