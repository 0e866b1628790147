//! A connection to a client, under a watch.
//! A request of up to 512 bytes costs one read, and an answer one write.
ghost use Rattle.std.specs.Prelude.{◌≤◌, length, refl};
ghost use Rattle.std.specs.Io.{ReadsAtMost};

use crate::daemon::watch::Watch;
use arrayvec::ArrayVec;
use dsn_device::OpaqueStream;
use dsn_frame::{Spoken, decode_answer};
use std::io;
use std::io::{ErrorKind, Read, Write};
use std::net::Shutdown;
use std::os::unix::net::UnixStream;
use std::time::Duration;

/// How many seconds a client has in the middle of a frame, at most, once the run is ending.
const LAST_PATIENCE: u32 = 10;

/// How many seconds a client has for the rest of a frame, or to take an answer, while others wait.
const PATIENCE_OF_OTHERS: u32 = 2;

/// For how many milliseconds a connection is kept, at least, while clients wait to be accepted.
const TURN: u64 = 100;

/// How often a connection that waits for its client looks up, in milliseconds.
const TICK: u64 = 100;

/// For how many milliseconds the client of an inherited socket is silent before its connection ends.
const SILENCE: u64 = 1_000;

/// How many bytes a read takes ahead, at most. Most frames are shorter, and a refused growth would
/// cost the client its connection.
const AHEAD: usize = 512;

/// The bytes of a frame's length.
const LENGTH: usize = 4;

/// What a connection waits for. A client waits for each answer before its next frame.
#[derive(Clone, Copy, PartialEq, Eq)]
enum Stage {
    /// The first byte of a frame.
    BetweenFrames,
    /// The rest of a frame.
    InFrame,
    /// That the client takes an answer.
    Answering,
}

/// A connection to a client. If its watch looks up, it does so ten times a second. A client
/// that says nothing or reads nothing for too long, or that takes too long for one frame, is cut off
/// by an error. Once the run is ending, the input ends before the next frame, and a client in the
/// middle of one has little time left for it. On an inherited socket it ends once the client has
/// been silent for a second, or after ten; each frame that was sent before is answered.
///
/// While clients wait to be accepted, a connection that has had its turn ends between two frames, in
/// the same way. So no number of clients that hold their connections keeps others from being served.
#[derive(Drop)]
pub(crate) struct WatchedConnection<'a, H> {
    stream: UnixStream,
    /// What was read of the client's frames and is not used yet.
    ahead: ArrayVec<u8, AHEAD>,
    watch: &'a H,
    /// When the connection began, by the watch.
    began: Duration,
    /// When the client's time began, by the watch: with the connection, an answer, the first byte of
    /// a frame, a write, or when the run was found to be ending.
    since: Duration,
    stage: Stage,
    /// When the run was found to be ending, by the watch.
    ending_since: Option<Duration>,
}

impl<'a, H: Watch> WatchedConnection<'a, H> {
    /// The connection over a stream that was just accepted. Returns an error if the system refuses
    /// the time limits.
    pub(crate) fn new(stream: UnixStream, watch: &'a H) -> io::Result<WatchedConnection<'a, H>> {
        if watch.looks_up() {
            let tick = Duration::from_millis(TICK);
            stream.set_read_timeout(Some(tick))?;
            stream.set_write_timeout(Some(tick))?;
        }
        let began = watch.elapsed();
        Ok(WatchedConnection {
            stream,
            ahead: ArrayVec::new(),
            watch,
            began,
            since: began,
            stage: Stage::BetweenFrames,
            ending_since: None,
        })
    }

    /// Finds out whether the run is ending. The client's time begins anew then.
    fn look(&mut self) {
        self.watch.look();
        if !self.is_ending() && self.watch.is_ending() {
            self.ending_since = Some(self.watch.elapsed());
            self.restart();
        }
    }

    /// Whether the run was found to be ending.
    fn is_ending(&self) -> bool {
        self.ending_since.is_some()
    }

    /// Begins to wait for something else, and so the client's time anew.
    fn enter(&mut self, stage: Stage) {
        self.stage = stage;
        self.restart();
    }

    /// Begins the client's time anew, if it may be limited: it is also once others wait.
    fn restart(&mut self) {
        if self.watch.looks_up() {
            self.since = self.watch.elapsed();
        }
    }

    /// Whether the input ends here: before a frame, in a run that is ending. A client that never
    /// pauses isn't waited for, so it looks before each frame.
    fn ends_here(&mut self) -> bool {
        if self.stage != Stage::BetweenFrames {
            return false;
        }
        self.look();
        let Some(since) = self.ending_since else {
            return self.makes_room() && !self.takes_the_rest();
        };
        if !self.watch.is_inherited() {
            return true;
        }
        self.is_older(since, Duration::from_secs(u64::from(LAST_PATIENCE)))
            && !self.takes_the_rest()
    }

    /// Whether the connection has had its turn, and is to end for a client that waits.
    fn makes_room(&self) -> bool {
        self.watch.has_waiting()
            && self.is_older(self.began, Duration::from_millis(TURN))
            && self.watch.makes_room()
    }

    /// Whether this much time has passed since a moment of the watch.
    fn is_older(&self, since: Duration, time: Duration) -> bool {
        self.watch.elapsed().saturating_sub(since) >= time
    }

    /// Lets the client send no more: what it sent before is still read, and a later send fails. So
    /// the client knows of each frame whether it was taken. Returns whether the system does that.
    fn takes_the_rest(&self) -> bool {
        self.stream.shutdown(Shutdown::Read).is_ok()
    }

    /// How many seconds the client may take, if there is a limit.
    fn patience(&self) -> Option<u32> {
        let limit = self.watch.idle_limit();
        let most = if self.is_ending() {
            LAST_PATIENCE
        } else if self.stage != Stage::BetweenFrames && self.watch.has_waiting() {
            PATIENCE_OF_OTHERS
        } else {
            return limit;
        };
        Some(limit.unwrap_or(most).min(most))
    }

    /// Cuts the client off if its time is over. Returns whether it did.
    fn cuts_off(&self) -> bool {
        let Some(seconds) = self.patience() else {
            return false;
        };
        if !self.is_older(self.since, Duration::from_secs(u64::from(seconds))) {
            return false;
        }
        self.watch
            .client_cut_off(seconds, self.stage == Stage::InFrame);
        true
    }

    /// Whether a read or a write goes on after a call. It does if the call ended since its time
    /// was over, and the client has more of it, or the input ends here. It also does if the call
    /// ended since the process was stopped for a while, which ends each call that has a time limit.
    fn goes_on<T>(&mut self, called: &io::Result<T>) -> bool {
        let Err(error) = called else {
            return false;
        };
        match error.kind() {
            // A call with a time limit is also interrupted when a stopped process goes on
            // (signal(7)). As a fault it would cut off each waiting client, and so would the time
            // for which the process was stopped.
            ErrorKind::Interrupted => {
                self.restart();
                self.watch.looks_up()
            }
            ErrorKind::WouldBlock if self.watch.looks_up() => {
                self.look();
                self.waits_on()
            }
            _ => false,
        }
    }

    /// Whether a call goes on that its client gave nothing to for a moment.
    fn waits_on(&mut self) -> bool {
        if self.stage != Stage::BetweenFrames {
            return !self.cuts_off();
        }
        if !self.is_ending() {
            return !self.cuts_off() && (!self.makes_room() || self.takes_the_rest());
        }
        !self.watch.is_inherited()
            || !self.is_older(self.since, Duration::from_millis(SILENCE))
            || self.takes_the_rest()
    }

    /// Reads from the stream, as much ahead as the client has sent.
    fn read_stream(&mut self, buffer: &mut [u8]) -> io::Result<usize>
        ensures { ReadsAtMost result buffer.new }
    {
        if buffer.len() >= AHEAD {
            return self.stream.read(buffer);
        }
        let mut room = [0; AHEAD];
        let count = self.stream.read(&mut room)?;
        self.ahead = ArrayVec::from(room);
        self.ahead.truncate(count);
        Ok(self.take_ahead(buffer))
    }

    /// Takes what was read ahead, as much as there is room for. Returns how many bytes it took.
    fn take_ahead(&mut self, buffer: &mut [u8]) -> usize
        ensures { result ≤ length buffer.new }
    {
        let count = buffer.len().min(self.ahead.len());
        buffer[..count].copy_from_slice(&self.ahead[..count]);
        self.ahead.drain(..count);
        count
    }

    /// Begins a frame by what was read, which may be the end of the input instead.
    fn begin_frame(&mut self, read: &io::Result<usize>) {
        self.enter(Stage::InFrame);
        if matches!(read, Ok(count) if *count > 0) {
            self.watch.frame_began();
        }
    }

    /// Cuts off a client that gave a piece of a frame and has taken too long for that frame. Returns
    /// whether it did.
    fn cuts_off_slow(&mut self) -> bool {
        self.look();
        self.cuts_off()
    }
}

/// The number of the refusal, if this is the frame of an answer that is one.
fn refusal_in(frame: &[u8]) -> Option<u32> {
    let (_length, body) = frame.split_first_chunk::<LENGTH>()?;
    match decode_answer(body) {
        Ok((_, Spoken::Refused(code))) => Some(code),
        _ => None,
    }
}

/// Whether a read gave some bytes, and fewer than it could: the client has given no more yet.
fn is_short(read: &io::Result<usize>, asked: usize) -> bool {
    matches!(read, Ok(count) if *count > 0 && *count < asked)
}

impl<H: Watch> Read for WatchedConnection<'_, H> {
    fn read(&mut self, buffer: &mut [u8]) -> io::Result<usize> {
        for _ in 0..u64::MAX {
            if self.ends_here() {
                return Ok(0);
            }
            let is_ahead = !self.ahead.is_empty();
            let read = if is_ahead {
                Ok(self.take_ahead(buffer))
            } else {
                self.read_stream(buffer)
            };
            if self.goes_on(&read) {
                continue;
            }
            if self.stage == Stage::BetweenFrames {
                self.begin_frame(&read);
            }
            if !is_ahead && is_short(&read, buffer.len()) && self.cuts_off_slow() {
                return Err(io::Error::from(ErrorKind::TimedOut));
            }
            return read;
        }
        Err(io::Error::from(ErrorKind::TimedOut))
    }
}

impl<H: Watch> Write for WatchedConnection<'_, H> {
    fn write(&mut self, text: &[u8]) -> io::Result<usize> {
        if let Some(code) = refusal_in(text) {
            self.watch.request_refused(code);
        }
        self.enter(Stage::Answering);
        for _ in 0..u64::MAX {
            let written = self.stream.write(text);
            if !self.goes_on(&written) {
                self.enter(Stage::BetweenFrames);
                return written;
            }
        }
        Err(io::Error::from(ErrorKind::TimedOut))
    }

    fn flush(&mut self) -> io::Result<()> {
        Ok(())
    }
}

impl<H: Watch> OpaqueStream for WatchedConnection<'_, H> {
    ghost untold_input = { λ _. refl };

    ghost untold_output = { λ _. refl };
}
