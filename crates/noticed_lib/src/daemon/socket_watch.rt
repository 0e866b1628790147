//! The watch of the program: over the run's files, a limit of idle time, a log, and counters.
//! The kit handles no signal, and a request that stops a daemon could be asked by whoever may log
//! an outcome. Who may remove a file owns its folder.
use crate::daemon::board::Board;
use crate::daemon::journal_use::JournalUse;
use crate::daemon::request_counts::RequestKind;
use crate::daemon::service_manager::ServiceManager;
use crate::daemon::severity::{Severity, is_journal_stream};
use crate::daemon::status_text::{RunCounts, status_text};
use crate::daemon::watch::{TICK, Watch};
use dsn_book::NotKept;
use dsn_event_log::EventLog;
use dsn_outcome::{Key, Reply};
use dsn_submission::Verdict;
use dsn_text::{fault_code, fault_words};
use libc::net::{POLLIN, poll};
use libc::types::pollfd;
use std::alloc::{AllocError, AllocGlobal, Global};
use std::fmt::Display;
use std::fs::Files;
use std::io::ErrorKind;
use std::net::Shutdown;
use std::os::fd::{AsRawFd, OwnedFd};
use std::os::unix::fs::MetadataExt;
use std::os::unix::net::{UnixListener, UnixStream};
use std::rt::Env;
use std::sync::atomic::{AtomicBool, AtomicI32, AtomicU32, AtomicU64, Ordering};
use std::time::{Clock, Duration, Instant};
use std::{fs, io};

/// After how many seconds in which all agents have connections that is logged.
const LONG_BUSY: u64 = 30;

/// After how many frames a run on an inherited socket ends. An agent that has had 1,000,000 requests
/// refuses the next; the next run's agents don't. The rest is for the run's last ten seconds.
const MOST_FRAMES: u64 = 900_000;

/// After how many milliseconds the run's files are looked at again. A busy client asks before each
/// frame, and each look is two calls of the system.
const BETWEEN_LOOKS: u64 = 100;

/// The moment at which all agents got busy, if some aren't.
const NEVER: u64 = u64::MAX;

/// The system's number of the error of a connection that took too long.
const TIMED_OUT: i32 = 110;

/// The device and the inode that no file has.
const NO_FILE: (u64, u64) = (0, 0);

/// What the watch of a run is asked to do.
#[derive(Clone, Copy)]
pub struct WatchOptions {
    /// How many seconds a client may be silent, and may take for one frame, if there is a limit.
    pub idle_limit: Option<u32>,
    /// Whether the run is to end once its outbox could not be written.
    pub ends_on_fault: bool,
    /// Whether the event log has a line for what happens, when it happens.
    pub logs: bool,
    /// How many agents the run has.
    pub agents: u32,
    /// Whether the run inherits the listening socket, which then outlives it.
    pub inherits: bool,
}

/// The paths of the files by which a run is ended.
#[derive(Clone, Copy)]
pub struct WatchedPaths<'a> {
    /// The path of the socket.
    pub socket: &'a str,
    /// The path of the file that the run keeps locked.
    pub run_file: &'a str,
}

/// A watch over the run's own file: once it is gone, or another has its path, the run is to end.
/// So whoever may remove the file may end the run, and `noticed stop` does so. A socket that the
/// run made is watched in the same way; an inherited one is not.
#[derive(Drop)]
pub struct SocketWatch<'a, R> {
    rt: &'a R,
    paths: WatchedPaths<'a>,
    options: WatchOptions,
    /// The event log, if lines are wanted.
    events: Option<&'a EventLog>,
    /// Whether each line of the event log begins with its severity.
    has_severities: bool,
    /// The device and the inode of the socket's file.
    socket_file: (u64, u64),
    /// The device and the inode of the run's file.
    run_file: (u64, u64),
    /// The listening socket once more: shut down, it wakes the agents that accept.
    listening: UnixStream,
    /// The service manager, if one wants to be notified.
    manager: Option<ServiceManager>,
    /// When the watch was made.
    began: Instant,
    /// How many agents still take connections.
    serving: AtomicU32,
    /// How many agents have a connection.
    busy: AtomicU32,
    /// After how many seconds all of them got one; [`NEVER`] if some have none, or once it is logged.
    all_busy_since: AtomicU64,
    /// Whether a client waited to be accepted while all were busy, when that was looked at last, and
    /// no connection has made room for it since.
    has_waiting: AtomicBool,
    /// How many frames have begun.
    frames: AtomicU64,
    /// The second after the watch was made in which a refused request was logged last, counted from 1.
    refused_at: AtomicU64,
    /// How many refused requests were not logged since.
    refused_unlogged: AtomicU64,
    /// The system's number of the error of the last connection to the mail server, if that failed; 0
    /// for none.
    unreached: AtomicI32,
    /// How many milliseconds after the watch was made the run's files are looked at next.
    next_look: AtomicU64,
    ending: AtomicBool,
    /// Whether a request found no room in the journal.
    lacks_room: AtomicBool,
    board: Board,
}

impl<'a, R: Files + Clock + Env + AllocGlobal> SocketWatch<'a, R> {
    /// The watch over the socket and the run's file at these paths; it gives the socket's accepts a
    /// time limit. What happens is logged if there is an event log. If a file is gone already the run
    /// ends at once. Returns an error if the system doesn't answer for a file, has no descriptor left,
    /// or has no clock.
    pub fn new(
        rt: &'a R,
        alloc: Global,
        listener: &UnixListener,
        paths: WatchedPaths<'a>,
        options: WatchOptions,
        events: Option<&'a EventLog>,
        manager: Option<ServiceManager>,
    ) -> io::Result<SocketWatch<'a, R>> {
        let socket_file = identity_at(rt, paths.socket)?;
        let run_file = identity_at(rt, paths.run_file)?;
        let listening = UnixStream::from(OwnedFd::from(listener.try_clone()?));
        listening.set_read_timeout(Some(Duration::from_secs(TICK)))?;
        Ok(SocketWatch {
            rt,
            paths,
            options,
            events,
            has_severities: events.is_some() && is_journal_stream(rt),
            socket_file,
            run_file,
            listening,
            manager,
            began: Instant::now(rt)?,
            serving: AtomicU32::new(options.agents),
            busy: AtomicU32::new(0),
            all_busy_since: AtomicU64::new(NEVER),
            has_waiting: AtomicBool::new(false),
            frames: AtomicU64::new(0),
            refused_at: AtomicU64::new(0),
            refused_unlogged: AtomicU64::new(0),
            unreached: AtomicI32::new(0),
            next_look: AtomicU64::new(0),
            ending: AtomicBool::new(false),
            lacks_room: AtomicBool::new(false),
            board: Board::new(alloc),
        })
    }
}

impl<R: Files + Clock> SocketWatch<'_, R> {
    /// Whether a request found no room in the journal.
    pub fn lacks_room(&self) -> bool {
        self.lacks_room.load(Ordering::SeqCst)
    }

    /// The lines of the run's status, each a name, a space and a value (noticed-serve(8)). Returns
    /// an error if there is no memory for them.
    pub fn status(&self, alloc: Global) -> Result<String, AllocError> {
        let run = RunCounts {
            is_ending: self.is_ending(),
            agents: self.options.agents,
            busy: self.busy.load(Ordering::SeqCst),
            uptime: self.elapsed().as_secs(),
        };
        status_text(alloc, &self.board, run)
    }

    /// Logs how many notices wait for the mail server, if any do.
    pub fn log_waiting(&self) {
        let waiting = self.board.submissions.waiting();
        if waiting > 0 {
            self.note(
                Severity::Info,
                format_args!("notices waiting for the mail server: {waiting}"),
            );
        }
    }

    /// Logs by how much the journal's file has grown, or why it hasn't.
    pub fn log_growth(&self, grown: &io::Result<Option<u64>>) {
        match grown {
            Ok(Some(size)) => self.note(
                Severity::Info,
                format_args!("the journal has grown to {size} bytes"),
            ),
            Ok(None) => self.note(
                Severity::Warning,
                "the journal did not grow: it has max-journal",
            ),
            Err(error) => self.note(
                Severity::Warning,
                format_args!("the journal did not grow: {error}"),
            ),
        }
    }

    /// Logs how many keys are in use, if a line is due `now` seconds after the watch was made.
    fn look_at_keys(&self, now: u64) {
        let keys = self.board.key_counts();
        if self.board.keys.is_line_due(&keys, now) {
            let (used, limit, open) = (keys.in_use(), keys.limit, keys.open);
            self.note(
                Severity::Warning,
                format_args!("{used} of {limit} keys are in use, {open} of them with an open log"),
            );
        }
    }

    /// Logs how full the journal is, if a line is due.
    fn look_at_journal(&self, journal: JournalUse) {
        let waiting = self.board.submissions.waiting();
        if !self.board.journal_line.may_be_due(journal, waiting) {
            return;
        }
        let now = self.elapsed().as_secs();
        if self.board.journal_line.is_due(now) {
            let JournalUse { used, size } = journal;
            self.note(
                Severity::Warning,
                format_args!(
                    "the journal is nearly full: {used} of {size} bytes, notices waiting: {waiting}"
                ),
            );
        }
    }

    /// Whether a path is that of the file with this device and inode.
    fn has_file(&self, path: &str, file: (u64, u64)) -> bool {
        match identity_at(self.rt, path) {
            Ok(found) => found != NO_FILE && found == file,
            Err(_) => true,
        }
    }

    /// Whether the socket's path is that of its file.
    fn has_its_socket(&self) -> bool {
        self.has_file(self.paths.socket, self.socket_file)
    }

    /// Whether the run's files are to be looked at now. Of several agents one is told so.
    fn is_look_due(&self) -> bool {
        let now = u64::try_from(self.elapsed().as_millis()).unwrap_or(u64::MAX);
        let due = self.next_look.load(Ordering::SeqCst);
        let next = now.saturating_add(BETWEEN_LOOKS);
        now >= due
            && self
                .next_look
                .compare_exchange(due, next, Ordering::SeqCst, Ordering::SeqCst)
                .is_ok()
    }

    /// Ends the run if one of its files is gone.
    fn look_at_files(&self) {
        if !self.has_file(self.paths.run_file, self.run_file) {
            // A client that comes now is refused at once, and not at the end of the run.
            if !self.options.inherits && self.has_its_socket() {
                let _ = fs::remove_file(self.rt, self.paths.socket);
            }
            self.end("ending: the run was stopped");
        } else if !self.options.inherits && !self.has_its_socket() {
            self.end("ending: the socket's file is gone");
        }
    }

    /// Finds out whether a client waits to be accepted while all agents are busy. Without a limit of
    /// idle time none is looked for: a session goes on for as long as its client likes.
    fn look_at_clients(&self) {
        if self.options.idle_limit.is_some() {
            let waits = self.are_all_busy() && is_readable(&self.listening);
            self.has_waiting.store(waits, Ordering::SeqCst);
        }
    }

    /// Whether each agent that takes connections has one.
    fn are_all_busy(&self) -> bool {
        self.busy.load(Ordering::SeqCst) >= self.serving.load(Ordering::SeqCst)
    }

    /// One agent less takes connections.
    fn lose_agent(&self) {
        self.serving.fetch_sub(1, Ordering::SeqCst);
    }

    /// Logs, once, that all agents have been busy for long.
    fn look_at_agents(&self) {
        let since = self.all_busy_since.load(Ordering::SeqCst);
        if since == NEVER || self.elapsed().as_secs().saturating_sub(since) < LONG_BUSY {
            return;
        }
        let logged = self
            .all_busy_since
            .compare_exchange(since, NEVER, Ordering::SeqCst, Ordering::SeqCst);
        if logged.is_ok() {
            self.note(
                Severity::Warning,
                "all agents have been busy for 30 s: clients wait",
            );
        }
    }

    /// Adds a line to the event log, if there is one.
    fn note<D: Display + Drop>(&self, severity: Severity, line: D) {
        if let Some(events) = self.events {
            events.say(format_args!("{}{line}", self.prefix(severity)));
        }
    }

    /// What a line of this severity begins with.
    fn prefix(&self, severity: Severity) -> &'static str {
        if self.has_severities {
            severity.prefix()
        } else {
            ""
        }
    }

    /// Ends the run, once, and says why. Agents that accept are woken.
    fn end(&self, why: &str) {
        if self.ending.swap(true, Ordering::SeqCst) {
            return;
        }
        self.log(why);
        if let Some(manager) = &self.manager {
            manager.report_end();
        }
        // An inherited socket would stay shut down for the next run: its agents look up each second.
        if !self.options.inherits {
            let _ = self.listening.shutdown(Shutdown::Both);
        }
    }
}

/// The device and the inode of the file at this path; `NO_FILE` if there is no file.
fn identity_at<R: Files>(rt: &R, path: &str) -> io::Result<(u64, u64)> {
    match fs::symlink_metadata(rt, path) {
        Ok(file) => Ok((file.dev(), file.ino())),
        Err(error) if error.kind() == ErrorKind::NotFound => Ok(NO_FILE),
        Err(error) => Err(error),
    }
}

/// Why requests were not kept, in words.
fn reason_of(why: NotKept) -> &'static str {
    match why {
        NotKept::Memory => fault_words(fault_code::NO_MEMORY),
        NotKept::Full => fault_words(fault_code::JOURNAL_FULL),
        NotKept::Failed => fault_words(fault_code::JOURNAL_FAILED),
    }
}

/// Whether a client waits to be accepted at a socket.
fn is_readable(listening: &UnixStream) -> bool {
    let mut sockets = [pollfd {
        fd: listening.as_raw_fd(),
        events: POLLIN,
        revents: 0,
    }];
    poll(&mut sockets, 0) > 0
}

impl<R: Files + Clock> Watch for SocketWatch<'_, R> {
    ghost may_end = { λ _. Unit {0} };

    fn looks_up(&self) -> bool {
        true
    }

    fn is_inherited(&self) -> bool {
        self.options.inherits
    }

    fn idle_limit(&self) -> Option<u32> {
        self.options.idle_limit
    }

    fn elapsed(&self) -> Duration {
        // A clock that fails cuts nobody off.
        match Instant::now(self.rt) {
            Ok(now) => now.saturating_duration_since(self.began),
            Err(_) => Duration::ZERO,
        }
    }

    fn look(&self) {
        if !self.is_ending() && self.is_look_due() {
            self.look_at_files();
            self.look_at_clients();
        }
        if let Some(manager) = &self.manager {
            manager.report_work(self.elapsed());
        }
        self.look_at_agents();
    }

    fn is_ending(&self) -> bool {
        self.ending.load(Ordering::SeqCst)
    }

    fn has_waiting(&self) -> bool {
        self.has_waiting.load(Ordering::SeqCst)
    }

    fn makes_room(&self) -> bool {
        self.has_waiting.swap(false, Ordering::SeqCst)
    }

    fn logs(&self) -> bool {
        self.events.is_some()
    }

    fn log(&self, line: &str) {
        self.note(Severity::Info, line);
    }

    fn connected(&self) {
        self.board.connected();
        // The client that waited may be this one.
        self.has_waiting.store(false, Ordering::SeqCst);
        self.busy.fetch_add(1, Ordering::SeqCst);
        if self.are_all_busy() {
            let now = self.elapsed().as_secs();
            let _ = self
                .all_busy_since
                .compare_exchange(NEVER, now, Ordering::SeqCst, Ordering::SeqCst);
        }
    }

    fn disconnected(&self) {
        let were_all_busy = self.are_all_busy();
        self.busy.fetch_sub(1, Ordering::SeqCst);
        // A client that waits takes the agent at once.
        if !were_all_busy || !is_readable(&self.listening) {
            self.all_busy_since.store(NEVER, Ordering::SeqCst);
        }
    }

    fn frame_began(&self) {
        let before = self.frames.fetch_add(1, Ordering::SeqCst);
        if self.options.inherits && before.saturating_add(1) == MOST_FRAMES {
            self.end("ending: the run has had 900000 requests");
        }
    }

    fn start_refused(&self) {
        self.lose_agent();
        self.board.refused(fault_code::CREW_REFUSED);
        self.note(
            Severity::Warning,
            "a thread was refused: an agent does not serve",
        );
    }

    fn accept_failed(&self, error: &io::Error) {
        self.lose_agent();
        self.board.failed(fault_code::SOCKET, error);
        self.note(Severity::Error, format_args!("accept failed: {error}"));
    }

    fn uses_are_over(&self) {
        self.lose_agent();
    }

    fn start_failed(&self, code: u32) {
        self.board.refused(code);
        self.note(
            Severity::Error,
            format_args!("fault {code}: {}", fault_words(code)),
        );
    }

    fn connection_refused(&self) {
        self.log("connection refused: the run is ending");
    }

    fn client_cut_off(&self, seconds: u32, in_frame: bool) {
        self.board.cut_off();
        let why = if in_frame { "no whole frame" } else { "silent" };
        self.note(
            Severity::Warning,
            format_args!("client cut off: {why} for {seconds} s"),
        );
    }

    fn request_refused(&self, code: u32) {
        self.board.answers.refuse();
        // One line a second: else who may connect fills the event log.
        let second = self.elapsed().as_secs().saturating_add(1);
        if self.refused_at.swap(second, Ordering::SeqCst) == second {
            self.refused_unlogged.fetch_add(1, Ordering::SeqCst);
            return;
        }
        let words = fault_words(code);
        let line = format_args!("request refused: {code}: {words}");
        match self.refused_unlogged.swap(0, Ordering::SeqCst) {
            0 => self.note(Severity::Warning, line),
            more => self.note(
                Severity::Warning,
                format_args!("{line}; {more} more before it"),
            ),
        }
    }

    fn may_hold(&self, keys: u32) {
        self.board.keys.may_hold(keys);
    }

    fn holds(&self, key: Key, outcomes: Option<u32>) {
        let now = self.elapsed().as_secs();
        self.board.holds(key, outcomes, now);
    }

    fn uses(&self, journal: JournalUse) {
        self.board.uses(journal);
        self.look_at_journal(journal);
    }

    fn unkept(&self, why: NotKept) {
        let code = why.code();
        self.board.refused(code);
        let (words, reason) = (fault_words(code), reason_of(why));
        self.note(
            Severity::Error,
            format_args!("fault {code}: {words}: {reason}"),
        );
        if why == NotKept::Full {
            self.lacks_room.store(true, Ordering::SeqCst);
        }
        // Each agent would otherwise stay with an idle client, or accept one more, before it ends.
        self.end("ending: the next start goes on with what was kept");
    }

    fn carried_out(&self, asked: Option<(RequestKind, Key)>, reply: Reply) {
        let change = self.board.answered(reply);
        let Some((kind, key)) = asked else {
            return;
        };
        self.board.requests.count(kind);
        let now = if change.takes_a_key() {
            self.elapsed().as_secs()
        } else {
            0
        };
        self.board.changed(key, change, now);
        if change.takes_a_key() {
            self.look_at_keys(now);
        }
    }

    fn notice_written(&self, line: &str) {
        self.board.written();
        if !line.is_empty() {
            self.log(line);
        }
    }

    fn notices_wait(&self, notices: usize) {
        self.board.submissions.wait(notices);
    }

    fn notice_submitted(&self, line: &str, verdict: Verdict, reply: &str) {
        self.board.submissions.count(verdict);
        let (severity, became) = match verdict {
            Verdict::Accepted => (Severity::Info, "accepted"),
            Verdict::RefusedForGood => (Severity::Warning, "refused"),
            Verdict::PutOff => (Severity::Info, "put off"),
            Verdict::ServerAway => (Severity::Warning, "not taken now"),
        };
        let unreached = self.unreached.swap(0, Ordering::SeqCst);
        if !reply.is_empty() {
            self.note(severity, format_args!("{line} {became}: {reply}"));
        } else if unreached != 0 {
            let error = io::Error::from_raw_os_error(unreached);
            self.note(severity, format_args!("{line} {became}: {error}"));
        } else {
            self.note(severity, format_args!("{line} {became}: no reply"));
        }
    }

    fn server_unreached(&self, error: &io::Error) {
        let number = match error.kind() {
            ErrorKind::TimedOut => TIMED_OUT,
            _ => error.raw_os_error().unwrap_or(0),
        };
        self.unreached.store(number, Ordering::SeqCst);
    }

    fn submission_stopped(&self, why: &str) {
        self.board.refused(fault_code::JOURNAL_FAILED);
        self.note(Severity::Error, why);
        if self.options.ends_on_fault {
            self.end("ending: notices wait that are submitted after the next start");
        }
    }

    fn outbox_failed(&self, error: &io::Error) {
        self.board.failed(fault_code::OUTBOX_WRITE, error);
        let code = fault_code::OUTBOX_WRITE;
        let words = fault_words(code);
        self.note(
            Severity::Error,
            format_args!("fault {code}: {words}: {error}"),
        );
        if self.options.ends_on_fault {
            self.end("ending: the outbox could not be written");
        }
    }
}
