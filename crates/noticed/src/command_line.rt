//! The command line: its commands with their options and arguments, and the help of each.
//! noticed(8) and noticed-serve(8) have the bounds.
use clap::builder::ValueParser;
use clap::{Arg, ArgAction, Command};
use std::alloc::{AllocError, Global};

/// The version of the program.
pub(crate) const VERSION: &str = "1.0.0";

/// The command line of the program, with this list of faults.
pub(crate) fn command_line<'a>(alloc: Global, faults: &'a str) -> Result<Command<'a>, AllocError> {
    Command::new(alloc, "noticed")
        .version(VERSION)
        .about("Logs outcomes of deliveries, and makes a delivery status notification of each log")
        .subcommand_required(true)
        .subcommand(batch(alloc)?)?
        .subcommand(serve(alloc)?)?
        .subcommand(stop(alloc)?)?
        .subcommand(send(alloc)?)?
        .subcommand(discard(alloc)?)?
        .subcommand(forget(alloc)?)?
        .subcommand(status(alloc)?)?
        .subcommand(journal(alloc)?)?
        .subcommand(hand_in(alloc)?)?
        .subcommand(resubmit(alloc)?)?
        .subcommand(postfix(alloc)?)?
        .subcommand(preview(alloc)?)?
        .subcommand(
            Command::new(alloc, "faults")
                .about("Lists the numbers of faults and refusals")
                .override_help(faults),
        )
}

fn batch<'a>(alloc: Global) -> Result<Command<'a>, AllocError> {
    Command::new(alloc, "batch")
        .about(
            "Answers the request frames of standard input, and writes the outbox to standard output",
        )
        .arg(host(alloc))
}

fn serve<'a>(alloc: Global) -> Result<Command<'a>, AllocError> {
    Command::new(alloc, "serve")
        .about("Answers clients that connect to a Unix socket, and writes or submits the notices")
        .arg(option(alloc, "config", "FILE").help(
            "Takes what is not given here from FILE, whose lines are 'key = value'",
        ))?
        .arg(flag(alloc, "inherited").help("Takes over the socket that the caller listens on"))?
        .arg(option(alloc, "journal", "FOLDER").help(
            "Keeps each request in FOLDER before it is answered",
        ))?
        .arg(option(alloc, "max-journal", "MIB").help(
            "Up to which size the journal's file grows, in MiB, 1 to 4096 [default: 256]",
        ))?
        .arg(flag(alloc, "release-closed").help(
            "Releases the key that was closed longest ago if a new one finds no room",
        ))?
        .arg(option(alloc, "logs", "N").help(
            "How many keys are held at once, closed ones too, 1 to 65536 [default: 4096]",
        ))?
        .arg(option(alloc, "entries", "N").help(
            "How many outcomes a log takes, 1 to 1000 [default: 1000]",
        ))?
        .arg(option(alloc, "hand-in", "HAND-IN").help(
            "Submits the notices to this mail server, in place of an outbox",
        ))?
        .arg(option(alloc, "give-up", "SECONDS").help(
            "How long a notice is tried, 1 to 8640000 [default: 432000]",
        ))?
        .arg(option(alloc, "outbox", "PATH").help("Writes the outbox to PATH, synced"))?
        .arg(option(alloc, "idle", "SECONDS").help(
            "Cuts off a client that is silent, or takes for a frame, SECONDS, 1 to 86400",
        ))?
        .arg(flag(alloc, "end-on-fault").help("Ends the run once the outbox could not be written"))?
        .arg(flag(alloc, "log").help("Logs events on standard error"))?
        .arg(configurable(socket(alloc))?)?
        .arg(configurable(host(alloc))?)?
        .arg(configurable(argument(alloc, "AGENTS").help(
            "How many clients are served at once, 1 to 16",
        ))?)?
        .arg(configurable(argument(alloc, "MAX-USE").help(
            "How many connections each agent takes, 1 to 1000000",
        ))?)
}

/// An argument that may be in the configuration file instead.
fn configurable<'a>(argument: Arg<'a>) -> Result<Arg<'a>, AllocError> {
    argument.required(false).required_unless_present("config")
}

fn stop<'a>(alloc: Global) -> Result<Command<'a>, AllocError> {
    Command::new(alloc, "stop")
        .about("Ends the daemon of a socket in order")
        .arg(socket(alloc))
}

fn send<'a>(alloc: Global) -> Result<Command<'a>, AllocError> {
    Command::new(alloc, "send")
        .about("Sends the request frames of standard input to a daemon, and prints its answers")
        .arg(socket(alloc))
}

fn discard<'a>(alloc: Global) -> Result<Command<'a>, AllocError> {
    Command::new(alloc, "discard")
        .about(
            "Closes one log without a notice: its outcomes are lost, and no sender hears of them",
        )
        .arg(socket(alloc))?
        .arg(service(alloc))?
        .arg(queue_id(alloc))
}

fn forget<'a>(alloc: Global) -> Result<Command<'a>, AllocError> {
    Command::new(alloc, "forget")
        .about(
            "Releases the key of a closed log: a late request about it begins a new log, and its sender may get a second notice",
        )
        .arg(socket(alloc))?
        .arg(service(alloc))?
        .arg(queue_id(alloc))
}

fn status<'a>(alloc: Global) -> Result<Command<'a>, AllocError> {
    Command::new(alloc, "status")
        .about("Prints what a daemon has done and holds, also while all its agents are busy")
        .arg(flag(alloc, "open").help(
            "Prints the open logs: service, queue id, outcomes, seconds",
        ))?
        .arg(
            flag(alloc, "prometheus")
                .help("Prints the numbers in the text format of Prometheus")
                .conflicts_with("open")?,
        )?
        .arg(socket(alloc))
}

fn journal<'a>(alloc: Global) -> Result<Command<'a>, AllocError> {
    Command::new(alloc, "journal")
        .about("Prints what the journal of a folder holds, and changes nothing")
        .arg(folder(alloc))
}

fn hand_in<'a>(alloc: Global) -> Result<Command<'a>, AllocError> {
    Command::new(alloc, "hand-in")
        .about("Submits the notices of the outbox on standard input to a mail server")
        .arg(option(alloc, "done", "FILE").help(
            "Keeps in FILE how many notices are settled, and goes on there",
        ))?
        .arg(
            option(alloc, "give-up", "SECONDS")
                .default_value("432000")
                .help("How long a notice is tried, 1 to 8640000"),
        )?
        .arg(mail_server(alloc))
}

fn resubmit<'a>(alloc: Global) -> Result<Command<'a>, AllocError> {
    Command::new(alloc, "resubmit")
        .about("Submits the refused notices of a journal again, also while its daemon runs")
        .arg(folder(alloc))?
        .arg(host(alloc))?
        .arg(mail_server(alloc))
}

fn postfix<'a>(alloc: Global) -> Result<Command<'a>, AllocError> {
    let command = Command::new(alloc, "postfix").about("Serves a Postfix in place of bounce(8)");
    with_settings(alloc, command)?
        .arg(flag(alloc, "inherited").help("Takes over the sockets that the caller listens on"))?
        .arg(queue_folder(alloc))?
        .arg(host(alloc))?
        .arg(mail_server(alloc))
}

fn preview<'a>(alloc: Global) -> Result<Command<'a>, AllocError> {
    let command = Command::new(alloc, "preview").about(
        "Prints the notices that 'postfix' would make of a message's logs, and changes nothing",
    );
    with_settings(alloc, command)?
        .arg(queue_folder(alloc))?
        .arg(host(alloc))?
        .arg(queue_id(alloc))
}

/// Adds the options that give the settings of a Postfix.
fn with_settings<'a>(alloc: Global, command: Command<'a>) -> Result<Command<'a>, AllocError> {
    command
        .arg(
            option(alloc, "lifetime", "SECONDS")
                .default_value("432000")
                .help("How long Postfix tries a delivery, 1 to 8640000"),
        )?
        .arg(
            option(alloc, "bounce-size-limit", "BYTES")
                .default_value("50000")
                .help("The longest message that is returned whole, 1 to 2147483647"),
        )?
        .arg(option(alloc, "double-bounce", "ADDRESS").help(
            "The sender whose mail gets no notice [default: double-bounce@HOST]",
        ))?
        .arg(
            option(alloc, "hash-queue-names", "NAMES")
                .value_parser(ValueParser::String)
                .default_value("deferred, defer")
                .help("The queues whose folders are hashed"),
        )?
        .arg(
            option(alloc, "hash-queue-depth", "DEPTH")
                .default_value("1")
                .help("How many levels they are hashed by, 1 to 16"),
        )?
        .arg(
            option(alloc, "pass-on", "CLASSES")
                .value_parser(ValueParser::String)
                .default_value("")
                .help("Classes that bounce(8) reports: bounce, 2bounce, delay"),
        )?
        .arg(option(alloc, "templates", "FOLDER").help(
            "Templates of notices: failure, delay, success, verify",
        ))?
        .arg(flag(alloc, "threaded").help("Refers to the Message-ID of a notice's message"))
}

/// The argument QUEUE-FOLDER.
fn queue_folder<'a>(alloc: Global) -> Arg<'a> {
    argument(alloc, "QUEUE-FOLDER").help("Postfix's queue folder")
}

/// The argument FOLDER.
fn folder<'a>(alloc: Global) -> Arg<'a> {
    argument(alloc, "FOLDER").help("The folder of the journal")
}

/// The argument HAND-IN.
fn mail_server<'a>(alloc: Global) -> Arg<'a> {
    argument(alloc, "HAND-IN").help(
        "The mail server: an IP address or localhost with a port, or a socket's path",
    )
}

/// The argument HOST.
fn host<'a>(alloc: Global) -> Arg<'a> {
    argument(alloc, "HOST").help("The name of this mail system in its notices")
}

/// The argument SOCKET. Its length is tested by who reads it.
fn socket<'a>(alloc: Global) -> Arg<'a> {
    argument(alloc, "SOCKET")
        .value_parser(ValueParser::String)
        .help("The path of the daemon's socket")
}

/// The argument SERVICE.
fn service<'a>(alloc: Global) -> Arg<'a> {
    argument(alloc, "SERVICE").help("The log's service: bounce, defer or trace")
}

/// The argument ID.
fn queue_id<'a>(alloc: Global) -> Arg<'a> {
    argument(alloc, "ID").help("The log's queue id")
}

/// An argument that has to be there.
fn argument<'a>(alloc: Global, name: &'a str) -> Arg<'a> {
    Arg::new(alloc, name)
        .required(true)
        .value_parser(ValueParser::NonEmptyString)
}

/// An option with a value.
fn option<'a>(alloc: Global, name: &'a str, value: &'a str) -> Arg<'a> {
    Arg::new(alloc, name)
        .long(name)
        .value_name(value)
        .value_parser(ValueParser::NonEmptyString)
}

/// An option without a value.
fn flag<'a>(alloc: Global, name: &'a str) -> Arg<'a> {
    Arg::new(alloc, name).long(name).action(ArgAction::SetTrue)
}
