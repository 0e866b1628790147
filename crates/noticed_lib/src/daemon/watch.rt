//! What looks after a run of the daemon over a socket.
ghost use Rattle.std.specs.Prelude.{◌≡◌, true};

use crate::daemon::journal_use::JournalUse;
use crate::daemon::request_counts::RequestKind;
use dsn_book::NotKept;
use dsn_outcome::{Key, Reply};
use dsn_submission::Verdict;
use std::io;
use std::time::Duration;

/// How often what waits under a watch looks up, in seconds.
pub(crate) const TICK: u64 = 1;

/// Looks after a run over a socket: it says when the run is to end before its last connection, and
/// hears of what happens in it. Contracts know of it whether it may end the run at all, and no more.
pub trait Watch {
    // Whether it may end the run before its last connection.
    ghost may_end: { Self → Type 0 };

    /// Whether what waits looks up each second: an agent that accepts for the run's end, and one
    /// that serves a connection also for a client that says nothing. Else each waits for as long
    /// as its client takes.
    fn looks_up(&self) -> bool;

    /// Whether the listening socket is the next run's too. Then it is never shut down, and a client
    /// that was accepted is served until it pauses, also in a run that is ending.
    fn is_inherited(&self) -> bool;

    /// How many seconds a client may be silent, and may take for one frame, if there is a limit.
    fn idle_limit(&self) -> Option<u32>;

    /// How long the watch exists, by a clock that is never set back.
    fn elapsed(&self) -> Duration;

    /// Finds out whether the run is to end.
    fn look(&self);

    /// Whether the run was found to be ending: its agents finish the request in hand, and take no
    /// further connection.
    fn is_ending(&self) -> bool
        ensures { result ≡ true → may_end self.now };

    /// Whether a client waited to be accepted, while each agent that takes connections had one, when
    /// the run was looked after last.
    fn has_waiting(&self) -> bool;

    /// Whether the connection that asks is to make room for a client that waits. Of several that ask
    /// one is told so.
    fn makes_room(&self) -> bool;

    /// Whether a line is wanted for what happens.
    fn logs(&self) -> bool;

    /// Writes a line, if lines are wanted.
    fn log(&self, line: &str);

    /// Reports that an agent has a connection.
    fn connected(&self);

    /// Reports that the connection of an agent has ended.
    fn disconnected(&self);

    /// Reports that a frame of a client has begun.
    fn frame_began(&self);

    /// Reports that the thread of an agent could not be started.
    fn start_refused(&self);

    /// Reports that a connection could not be accepted.
    fn accept_failed(&self, error: &io::Error);

    /// Reports that an agent has had all its connections.
    fn uses_are_over(&self);

    /// Reports that the run doesn't begin, with the number of the fault.
    fn start_failed(&self, code: u32);

    /// Reports that a connection was refused, since the run is ending.
    fn connection_refused(&self);

    /// Reports that a client was cut off after this number of seconds: of silence, or in the middle
    /// of a frame.
    fn client_cut_off(&self, seconds: u32, in_frame: bool);

    /// Reports that a request was answered with the number of its refusal.
    fn request_refused(&self, code: u32);

    /// Reports how many keys the run may hold.
    fn may_hold(&self, keys: u32);

    /// Reports a key that is held as the run begins, with its number of outcomes if its log is open.
    fn holds(&self, key: Key, outcomes: Option<u32>);

    /// Reports how much of the journal's file has records.
    fn uses(&self, journal: JournalUse);

    /// Reports that requests could not be kept, and why. The run ends by it.
    fn unkept(&self, why: NotKept);

    /// Reports that a request was carried out: what it asked of which log, unless it was a goodbye,
    /// and its reply.
    fn carried_out(&self, asked: Option<(RequestKind, Key)>, reply: Reply);

    /// Reports that a notice was written and flushed, with the line for it, if lines are wanted and
    /// it has one.
    fn notice_written(&self, line: &str);

    /// Reports that a notice was submitted to the mail server: the line for it, if lines are
    /// wanted, the verdict, and the server's reply, which is empty if there was none.
    fn notice_submitted(&self, line: &str, verdict: Verdict, reply: &str);

    /// Reports why no connection to the mail server was made.
    fn server_unreached(&self, error: &io::Error);

    /// Reports how many notices wait for the mail server now.
    fn notices_wait(&self, notices: usize);

    /// Reports that some notices aren't submitted before the next start, and why.
    fn submission_stopped(&self, why: &str);

    /// Reports, once, that the outbox could not be written or flushed.
    fn outbox_failed(&self, error: &io::Error);
}
