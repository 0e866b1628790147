//! The socket at which a daemon answers for its status.
//! It has a thread and a socket of its own: so it answers also while all agents are held, and no
//! request waits for it. Its text is noticed-serve(8).
use crate::command_line::VERSION;
use crate::status_metrics::value_in;
use noticed_lib::{SocketWatch, Watch};
use std::alloc::{AllocError, Global};
use std::fmt::Write as _;
use std::fs::{Files, Metadata, Permissions};
use std::io::{Error, ErrorKind, Write};
use std::net::Shutdown;
use std::os::fd::OwnedFd;
use std::os::unix::fs::{FileTypeExt, MetadataExt, PermissionsExt};
use std::os::unix::net::{UnixListener, UnixStream};
use std::sync::atomic::{AtomicBool, Ordering};
use std::time::{Clock, Duration, SystemTime};
use std::{fs, io, thread};

/// How long a client may take for its text, and how often the thread looks up, in seconds.
const TICK: u64 = 1;

/// How many bytes are written at once, so that a slow client's time is looked at in between.
const PIECE: usize = 65_536;

/// The list of the system's Unix sockets (proc_pid_net(5)).
const SOCKETS: &str = "/proc/self/net/unix";

/// The mode of the status socket: its owner's.
const OWNER: u32 = 0o700;

/// Which of its fields has a socket's state, from 0.
const STATE_FIELD: usize = 5;

/// The state of a connection that is accepted.
const CONNECTED: &[u8] = b"03";

/// The state of a connection that is made and not yet accepted.
const CONNECTING: &[u8] = b"02";

/// The path of the status of the daemon at this socket.
pub(crate) fn status_path(alloc: Global, socket: &str) -> Result<String, AllocError> {
    format!(in alloc; "{socket}.status")
}

/// What knows the counts of a run.
pub(crate) trait StatusSource {
    /// The lines of the counts. Returns an error if there is no memory for them.
    fn lines(&self, alloc: Global) -> Result<String, AllocError>;

    /// For how long the run goes on.
    fn uptime(&self) -> Duration;
}

impl<R: Files + Clock> StatusSource for SocketWatch<'_, R> {
    fn lines(&self, alloc: Global) -> Result<String, AllocError> {
        self.status(alloc)
    }

    fn uptime(&self) -> Duration {
        self.elapsed()
    }
}

/// A socket at which a daemon answers for its status.
#[derive(Drop)]
pub(crate) struct StatusSocket<'a> {
    /// The path of the daemon's own socket.
    socket: &'a str,
    listener: UnixListener,
    /// The listening socket once more: shut down, it wakes the thread.
    waking: UnixStream,
    path: &'a str,
    /// The device and the inode of the socket's file.
    file: (u64, u64),
    /// When it was made, in seconds since 1970 began.
    started: u64,
    is_over: AtomicBool,
}

impl<'a> StatusSocket<'a> {
    /// Makes the socket at `path` for the daemon at `socket`, in place of one that an earlier daemon
    /// left. Returns an error if another file has the path, or if the system refuses it.
    pub(crate) fn make(
        rt: &HostRuntime,
        socket: &'a str,
        path: &'a str,
    ) -> io::Result<StatusSocket<'a>> {
        remove_socket(rt, path)?;
        let listener = UnixListener::bind(rt, path)?;
        // Whatever the process masks of a file's mode.
        let _ = fs::set_permissions(rt, path, Permissions::from_mode(OWNER));
        let made = StatusSocket::over(rt, socket, listener, path);
        if made.is_err() {
            let _ = remove_socket(rt, path);
        }
        made
    }

    /// The status over a socket that was just bound to this path.
    fn over(
        rt: &HostRuntime,
        socket: &'a str,
        listener: UnixListener,
        path: &'a str,
    ) -> io::Result<StatusSocket<'a>> {
        let file = identity(&fs::symlink_metadata(rt, path)?);
        let waking = waking(&listener)?;
        Ok(StatusSocket {
            socket,
            listener,
            waking,
            path,
            file,
            started: seconds_of_clock(rt),
            is_over: AtomicBool::new(false),
        })
    }

    /// Answers clients, one after another, until [`StatusSocket::end`].
    pub(crate) fn answer_all<S: StatusSource>(&self, rt: &HostRuntime, watch: &S) {
        for _ in 0..u64::MAX {
            if self.is_over.load(Ordering::SeqCst) {
                return;
            }
            match self.listener.accept() {
                Ok((stream, _)) => {
                    let _ = self.answer(rt, stream, watch);
                }
                Err(error) if is_tick(&error) => {}
                // The end of the run shuts the socket down.
                Err(_) if self.is_over.load(Ordering::SeqCst) => return,
                // As long as the system has no descriptor left, say.
                Err(_) => thread::sleep(rt, Duration::from_secs(TICK)),
            }
        }
    }

    /// Ends the thread, and removes the socket's file unless its path is another daemon's by now.
    pub(crate) fn end(&self, rt: &impl Files) {
        self.is_over.store(true, Ordering::SeqCst);
        let _ = self.waking.shutdown(Shutdown::Both);
        if let Ok(file) = fs::symlink_metadata(rt, self.path) {
            if identity(&file) == self.file {
                let _ = fs::remove_file(rt, self.path);
            }
        }
    }

    /// Writes the status to a client. A client that doesn't read is cut off.
    fn answer<S: StatusSource>(
        &self,
        rt: &HostRuntime,
        stream: UnixStream,
        watch: &S,
    ) -> io::Result<()> {
        let text = self.text(rt, watch)?;
        stream.set_write_timeout(Some(Duration::from_secs(TICK)))?;
        let until = watch.uptime().saturating_add(Duration::from_secs(TICK));
        for piece in text.as_bytes().chunks(PIECE) {
            (&stream).write_all(piece)?;
            if watch.uptime() > until {
                return Err(Error::from(ErrorKind::TimedOut));
            }
        }
        Ok(())
    }

    /// The text of the status.
    fn text<S: StatusSource>(&self, rt: &HostRuntime, watch: &S) -> Result<String, AllocError> {
        let mut text = String::new(rt.alloc());
        writeln!(text, "version {VERSION}")?;
        writeln!(text, "started_seconds {}", self.started)?;
        let counts = watch.lines(rt.alloc())?;
        let has_clients = value_in(counts.as_str(), "agents_busy") != Some("0");
        if let Some(waiting) = waiting_at(rt, self.socket, has_clients) {
            writeln!(text, "clients_waiting {waiting}")?;
        }
        text.push_str(counts.as_str())?;
        text.push_str("end\n")?;
        Ok(text)
    }
}

/// A listening socket once more, whose accepts it gives a time limit.
fn waking(listener: &UnixListener) -> io::Result<UnixStream> {
    let waking = UnixStream::from(OwnedFd::from(listener.try_clone()?));
    waking.set_read_timeout(Some(Duration::from_secs(TICK)))?;
    Ok(waking)
}

/// Whether an accept ended since its second was over, or since the process was stopped for a while.
fn is_tick(error: &io::Error) -> bool {
    matches!(error.kind(), ErrorKind::WouldBlock | ErrorKind::Interrupted)
}

/// Removes a socket at this path. Another file stays, and the path is then no socket's.
fn remove_socket(rt: &HostRuntime, path: &str) -> io::Result<()> {
    match fs::symlink_metadata(rt, path) {
        Ok(file) if file.file_type().is_socket() => fs::remove_file(rt, path),
        _ => Ok(()),
    }
}

/// The device and the inode of a file.
fn identity(file: &Metadata) -> (u64, u64) {
    (file.dev(), file.ino())
}

/// The seconds since 1970 began, by the system's clock; 0 if it has none.
pub(crate) fn seconds_of_clock(rt: &HostRuntime) -> u64 {
    let Ok(now) = SystemTime::now(rt) else {
        return 0;
    };
    match now.duration_since(SystemTime::UNIX_EPOCH) {
        Ok(since) => since.as_secs(),
        Err(_) => 0,
    }
}

/// How many clients wait to be accepted at the socket of this path. `None` if the system doesn't
/// say: in a network namespace of its own (`PrivateNetwork`) a daemon that has clients sees none.
fn waiting_at(rt: &HostRuntime, socket: &str, has_clients: bool) -> Option<usize> {
    let sockets = fs::read(rt, SOCKETS).ok()?;
    let waiting = count_at(sockets.as_slice(), socket, CONNECTING);
    if has_clients && waiting == 0 && count_at(sockets.as_slice(), socket, CONNECTED) == 0 {
        return None;
    }
    Some(waiting)
}

/// How many lines of that list are of a connection at this socket in this state.
fn count_at(sockets: &[u8], socket: &str, state: &[u8]) -> usize {
    sockets
        .split(|byte| *byte == b'\n')
        .filter(|line| is_at(line, socket, state))
        .count()
}

/// Whether a line of that list is of a connection at this socket in this state.
fn is_at(line: &[u8], socket: &str, state: &[u8]) -> bool {
    line.ends_with(socket.as_bytes())
        && line.split(|byte| *byte == b' ').nth(STATE_FIELD) == Some(state)
}
