//! The command `serve`.
use crate::arguments::{Destination, ServeArguments, ServeOptions};
use crate::buffer::{ROOM, let_go};
use crate::fault_note::{NoteWriter, print_fault_line};
use crate::hand_in_command::HandInTerms;
use crate::journal_files::{
    lengthen_journal, open_folder, open_outbox, path_in, print_journal_fault, print_outbox_fault,
};
use crate::listening::{check_place, inherit_socket, make_socket};
use crate::outbox_writer::OutboxWriter;
use crate::refused_file::RefusedPlace;
use crate::run_file::RunFile;
use crate::service_socket::service_manager;
use crate::socket_fault::note_socket_fault;
use crate::start_error::StartError;
use crate::status_socket::{StatusSocket, StatusSource, status_path};
use crate::watched_server::WatchedServer;
use dsn_event_log::EventLog;
use dsn_journal::FileDisk;
use dsn_outcome::Plain;
use dsn_smtp::MailServer;
use dsn_text::{MtaName, fault_code};
use noticed_lib::{
    JournalFolder, MailTerms, ServeEnd, ServiceManager, Serving, SocketWatch, WatchOptions,
    WatchedOutbox, WatchedPaths, serve_journaled, serve_submitting, serve_watched,
};
use std::alloc::Global;
use std::io::{BufWriter, ErrorKind};
use std::os::unix::net::UnixListener;
use std::sync::{Arc, Wait};
use std::thread::{JoinHandle, Scope, Threads};
use std::time::{Clock, Instant};
use std::{io, thread};

/// The exit status of a run that didn't begin.
const FAULT: u8 = 1;

/// The bytes of a MiB.
const MIB: u64 = 1_048_576;

/// The notes of a run.
type Notes<'a> = Plain<NoteWriter<'a>>;

/// Runs `serve` over a socket that it makes or inherits, and returns its status. Only in `main` may
/// the runtime start threads and wait, so `waiting` passes it again with these rights.
pub(crate) fn run_serve<R: Threads + Wait + Clock + Copy + Send + Sync + Drop + 'static>(
    rt: &HostRuntime,
    waiting: &R,
    arguments: ServeArguments,
) -> Result<u8, StartError> {
    let options = arguments.options.watch;
    // First of all: a file that is opened here could get the descriptor of one that isn't inherited.
    // And nothing is made for, or beside, a file that is no socket.
    let inherited = match inherited_at(rt, &arguments.socket, options.inherits) {
        Ok(inherited) => inherited,
        Err(error) => return no_socket(rt, options.logs, &arguments.socket, &error),
    };
    let Ok(events) = event_log(rt, waiting, options.logs) else {
        print_fault_line(rt, fault_code::CREW_REFUSED);
        return Ok(FAULT);
    };
    let log = match &events {
        Some(events) => Some(&**events),
        None => None,
    };
    let status = run_at(rt, waiting, inherited, log, arguments);
    if let Some(events) = log {
        events.settle(rt);
    }
    status
}

/// The event log, if one is wanted. Returns an error if its thread or its memory is refused.
fn event_log<R: Threads + Wait + Copy + Send + Drop + 'static>(
    rt: &HostRuntime,
    waiting: &R,
    wanted: bool,
) -> io::Result<Option<Arc<EventLog, Global>>> {
    if !wanted {
        return Ok(None);
    }
    Ok(Some(EventLog::start(rt, waiting)?))
}

/// Runs `serve` over the socket that it inherited, or over one that it makes.
fn run_at<R: Threads + Wait + Clock + Sync>(
    rt: &HostRuntime,
    waiting: &R,
    inherited: Option<UnixListener>,
    events: Option<&EventLog>,
    arguments: ServeArguments,
) -> Result<u8, StartError> {
    let ServeArguments {
        socket,
        host,
        serving,
        options,
    } = arguments;
    let ServeOptions {
        destination,
        max_journal,
        watch: options,
    } = options;
    let journal = journal_at(rt, &destination)?;
    let files = match RunFiles::open(rt, destination) {
        Ok(files) => files,
        Err(status) => return Ok(status),
    };
    // The journal is locked before the socket is made: so a second daemon on the same folder takes
    // no client from the first.
    let run_file = match RunFile::take(rt, &socket) {
        Ok(file) => file,
        Err(error) => return no_socket(rt, options.logs, &socket, &error),
    };
    let paths = WatchedPaths {
        socket: &socket,
        run_file: run_file.path(),
    };
    let manager = service_manager(rt)?;
    let (listener, watch) = match listen(rt, inherited, paths, options, events, manager) {
        Ok(listening) => listening,
        Err(error) => return no_socket(rt, options.logs, &socket, &error),
    };
    if let Some(events) = events {
        say_start(events, &socket, &host, &serving);
    }
    let end = run_watched(
        rt, waiting, &listener, &watch, events, &socket, serving, files,
    )?;
    if watch.lacks_room() {
        make_room(rt, &watch, journal.as_ref(), max_journal);
    }
    Ok(end)
}

/// Serves the clients of a socket, and answers for the status beside it. Returns the status.
fn run_watched<'a, R: Threads + Wait + Clock + Sync>(
    rt: &'a HostRuntime,
    waiting: &R,
    listener: &UnixListener,
    watch: &SocketWatch<'_, HostRuntime>,
    events: Option<&'a EventLog>,
    socket: &str,
    serving: Serving,
    files: RunFiles<'_>,
) -> Result<u8, StartError> {
    let mut notes = Plain::new(NoteWriter::new(rt, events));
    let path = status_path(rt.alloc(), socket)?;
    let status = status_at(rt, events, socket, &path);
    let end = thread::scope(thread::scope_env(), waiting, |scope| {
        let answering = start_answering(rt, scope, status.as_ref(), watch, events);
        let end = serve_clients(rt, waiting, listener, watch, serving, files, &mut notes);
        end_answering(rt, waiting, status.as_ref(), answering);
        end
    });
    Ok(end)
}

/// The path of the journal's file, if there is to be a journal.
fn journal_at(rt: &HostRuntime, destination: &Destination) -> Result<Option<String>, StartError> {
    let folder = match destination {
        Destination::Outbox {
            path: _,
            journal: None,
        } => return Ok(None),
        Destination::Outbox {
            path: _,
            journal: Some(folder),
        } => folder,
        Destination::Server { terms: _, journal } => journal,
    };
    match path_in(rt, folder, "journal") {
        Ok(path) => Ok(Some(path)),
        Err(_) => Err(StartError::NoMemory),
    }
}

/// Lengthens the file of a journal in which a request found no room, up to this number of MiB. So the
/// next run has room.
// Not within the run, which holds the file as it was opened.
fn make_room(
    rt: &HostRuntime,
    watch: &SocketWatch<'_, HostRuntime>,
    journal: Option<&String>,
    most: u32,
) {
    if let Some(path) = journal {
        let grown = lengthen_journal(rt, path, u64::from(most).saturating_mul(MIB));
        watch.log_growth(&grown);
    }
}

/// Serves the clients of a socket. Returns the status.
fn serve_clients<R: Threads + Wait + Clock + Sync>(
    rt: &HostRuntime,
    waiting: &R,
    listener: &UnixListener,
    watch: &SocketWatch<'_, HostRuntime>,
    serving: Serving,
    files: RunFiles<'_>,
    notes: &mut Notes<'_>,
) -> u8 {
    match files {
        RunFiles::Outbox(outbox, folder) => {
            serve_to_outbox(rt, waiting, listener, watch, serving, outbox, folder, notes)
        }
        RunFiles::Server(terms, refused, folder) => serve_to_server(
            rt, waiting, listener, watch, serving, &terms, refused, folder, notes,
        ),
    }
}

/// Serves clients, over the disks of a journal if there are some, and writes the notices to an outbox.
/// Returns the status.
fn serve_to_outbox<R: Threads + Wait + Clock + Sync>(
    rt: &HostRuntime,
    waiting: &R,
    listener: &UnixListener,
    watch: &SocketWatch<'_, HostRuntime>,
    serving: Serving,
    writer: BufWriter<OutboxWriter>,
    folder: Option<Folder<'_>>,
    notes: &mut Notes<'_>,
) -> u8 {
    let alloc = rt.alloc();
    let outbox = Plain::new(WatchedOutbox::new(writer, watch));
    let ServeEnd { outbox, status } = match folder {
        None => serve_watched(waiting, alloc, listener, watch, serving, outbox, notes),
        Some(folder) => {
            serve_journaled(
                waiting, alloc, listener, watch, serving, outbox, folder, notes,
            )
            .end
        }
    };
    let_go(outbox.into_inner().into_inner());
    status
}

/// Serves clients over the disks of a journal, and submits the notices to a mail server. Returns the
/// status.
fn serve_to_server<R: Threads + Wait + Clock + Sync>(
    rt: &HostRuntime,
    waiting: &R,
    listener: &UnixListener,
    watch: &SocketWatch<'_, HostRuntime>,
    serving: Serving,
    terms: &HandInTerms,
    refused: RefusedPlace<'_>,
    folder: Folder<'_>,
    notes: &mut Notes<'_>,
) -> u8 {
    let (Ok(name), Ok(began)) = (
        MtaName::new(rt.alloc(), serving.site.host()),
        Instant::now(rt),
    ) else {
        print_fault_line(rt, fault_code::NO_MEMORY);
        return FAULT;
    };
    let terms = MailTerms {
        server: WatchedServer {
            server: MailServer::new(rt, &terms.server),
            watch,
        },
        refused,
        name,
        give_up: terms.milliseconds(),
        began,
    };
    let submitted = serve_submitting(
        waiting,
        rt.alloc(),
        listener,
        watch,
        &serving,
        terms,
        folder,
        notes,
    );
    watch.log_waiting();
    match submitted {
        Ok(submitted) => submitted.status,
        Err(not) => not.end.status,
    }
}

/// Prints why a socket isn't available, and returns the status; an error if memory was refused.
fn no_socket(
    rt: &HostRuntime,
    logs: bool,
    socket: &str,
    error: &io::Error,
) -> Result<u8, StartError> {
    if error.kind() == ErrorKind::OutOfMemory {
        return Err(StartError::NoMemory);
    }
    Ok(note_socket_fault(rt, logs, socket, error))
}

/// The inherited socket, which has to be at this path, if one is inherited. Otherwise the path has to
/// be one for a socket.
fn inherited_at(rt: &HostRuntime, path: &str, inherits: bool) -> io::Result<Option<UnixListener>> {
    if !inherits {
        check_place(rt, path)?;
        return Ok(None);
    }
    // Nothing else has the descriptor: no file that the process opened so far is still open, and
    // only this thread runs.
    Ok(Some(unsafe { inherit_socket(path) }?))
}

/// The disks of a journal.
type Folder<'a> = JournalFolder<FileDisk<'a>, FileDisk<'a>>;

/// What a run keeps its requests in, and where its notices go.
#[derive(Drop)]
enum RunFiles<'a> {
    /// An outbox, and the disks of a journal if there is to be one.
    Outbox(BufWriter<OutboxWriter>, Option<Folder<'a>>),
    /// A mail server, the place of notices that it refuses for good, and the disks of a journal.
    Server(HandInTerms, RefusedPlace<'a>, Folder<'a>),
}

impl<'a> RunFiles<'a> {
    /// Opens all files of a run. If one can't be opened, prints why and returns the status.
    fn open(rt: &'a HostRuntime, destination: Destination) -> Result<RunFiles<'a>, u8> {
        match destination {
            Destination::Outbox { path, journal } => {
                let outbox = outbox_at(rt, path)?;
                match journal {
                    None => Ok(RunFiles::Outbox(outbox, None)),
                    Some(journal) => Ok(RunFiles::Outbox(outbox, Some(folder_at(rt, &journal)?))),
                }
            }
            Destination::Server { terms, journal } => {
                let folder = folder_at(rt, &journal)?;
                Ok(RunFiles::Server(terms, refused_in(rt, &journal)?, folder))
            }
        }
    }
}

/// The outbox at this path, or standard output without a path. If it can't be opened, prints why
/// and returns the status.
fn outbox_at(rt: &HostRuntime, path: Option<String>) -> Result<BufWriter<OutboxWriter>, u8> {
    let writer = match path {
        None => OutboxWriter::Standard(rt.stdout()),
        Some(path) => match open_outbox(rt, &path) {
            Ok(file) => OutboxWriter::Synced(file),
            Err(error) => return Err(print_outbox_fault(rt, &path, &error)),
        },
    };
    match BufWriter::with_capacity(rt.alloc(), ROOM, writer) {
        Ok(writer) => Ok(writer),
        Err(_) => {
            print_fault_line(rt, fault_code::NO_MEMORY);
            Err(FAULT)
        }
    }
}

/// The disks of the journal in this folder. If they can't be opened, prints why and returns the
/// status.
fn folder_at<'a>(rt: &'a HostRuntime, folder: &str) -> Result<Folder<'a>, u8> {
    match open_folder(rt, folder) {
        Ok(disks) => Ok(disks),
        Err(error) => Err(print_journal_fault(rt, folder, &error)),
    }
}

/// The place of refused notices in a journal's folder. If it can't be opened, prints why and returns
/// the status.
fn refused_in<'a>(rt: &'a HostRuntime, folder: &str) -> Result<RefusedPlace<'a>, u8> {
    let opened = match path_in(rt, folder, "refused") {
        Ok(path) => RefusedPlace::open(rt, path.as_str()),
        Err(error) => Err(error),
    };
    opened.map_err(|error| print_journal_fault(rt, folder, &error))
}

/// The inherited socket, or one that is made at its path, and the watch over it.
fn listen<'a>(
    rt: &'a HostRuntime,
    inherited: Option<UnixListener>,
    paths: WatchedPaths<'a>,
    options: WatchOptions,
    events: Option<&'a EventLog>,
    manager: Option<ServiceManager>,
) -> io::Result<(UnixListener, SocketWatch<'a, HostRuntime>)> {
    let listener = match inherited {
        Some(listener) => listener,
        None => make_socket(rt, paths.socket)?,
    };
    let watch = SocketWatch::new(rt, rt.alloc(), &listener, paths, options, events, manager)?;
    Ok((listener, watch))
}

/// The socket at which the daemon answers for its status. Without it the daemon serves all the same:
/// then the event log says why.
fn status_at<'a>(
    rt: &HostRuntime,
    events: Option<&EventLog>,
    socket: &'a str,
    path: &'a str,
) -> Option<StatusSocket<'a>> {
    match StatusSocket::make(rt, socket, path) {
        Ok(status) => Some(status),
        Err(error) => {
            log_no_status(events, &error);
            None
        }
    }
}

/// Logs why the daemon doesn't answer for its status.
fn log_no_status(events: Option<&EventLog>, error: &io::Error) {
    if let Some(events) = events {
        events.say(format_args!("no status: {error}"));
    }
}

/// Starts the thread that answers for the status, if there is a socket for it. The socket goes if the
/// thread is refused.
fn start_answering<'s, E: 's, S: StatusSource + Sync>(
    rt: &'s HostRuntime,
    scope: &Scope<'s, E>,
    status: Option<&'s StatusSocket<'s>>,
    watch: &'s S,
    events: Option<&EventLog>,
) -> Option<JoinHandle<()>> {
    let status = status?;
    match scope.spawn(move || status.answer_all(rt, watch)) {
        Ok(answering) => Some(answering),
        Err(_) => {
            log_no_status(events, &io::Error::from(ErrorKind::WouldBlock));
            status.end(rt);
            None
        }
    }
}

/// Ends that thread, and waits for its end.
fn end_answering<R: Threads>(
    rt: &HostRuntime,
    waiting: &R,
    status: Option<&StatusSocket<'_>>,
    answering: Option<JoinHandle<()>>,
) {
    if let Some(status) = status {
        status.end(rt);
    }
    if let Some(answering) = answering {
        answering.join(waiting);
    }
}

/// Logs that the daemon listens. If the host's name is one for examples, logs that too.
fn say_start(events: &EventLog, socket: &str, host: &str, serving: &Serving) {
    let Serving {
        agents,
        max_use,
        ..
    } = serving;
    events.say(format_args!(
        "listening on {socket} for {host}: {agents} agents, {max_use} connections each"
    ));
    if is_example(host) {
        events.say(format_args!("the host's name {host} is one for examples"));
    }
}

/// Whether a host's name is one for examples and tests (RFC 2606 sections 2 and 3).
fn is_example(host: &str) -> bool {
    [
        ".example.com",
        ".example.net",
        ".example.org",
        ".example",
        ".invalid",
        ".localhost",
        ".test",
    ]
    .iter()
    .any(|domain| host.ends_with(*domain))
}
