//! A run that nobody looks after.
use crate::daemon::journal_use::JournalUse;
use crate::daemon::request_counts::RequestKind;
use crate::daemon::watch::Watch;
use dsn_book::NotKept;
use dsn_outcome::{Key, Reply};
use dsn_submission::Verdict;
use std::io;
use std::time::Duration;

/// A watch under which a run goes on to its last connection, without time limits.
#[derive(Clone, Copy)]
pub(crate) struct NoWatch;

impl Watch for NoWatch {
    ghost may_end = { λ _. ⊥ };

    fn looks_up(&self) -> bool {
        false
    }

    fn is_inherited(&self) -> bool {
        false
    }

    fn idle_limit(&self) -> Option<u32> {
        None
    }

    fn elapsed(&self) -> Duration {
        Duration::ZERO
    }

    fn look(&self) {}

    fn is_ending(&self) -> bool {
        false
    }

    fn has_waiting(&self) -> bool {
        false
    }

    fn makes_room(&self) -> bool {
        false
    }

    fn logs(&self) -> bool {
        false
    }

    fn log(&self, _line: &str) {}

    fn connected(&self) {}

    fn disconnected(&self) {}

    fn frame_began(&self) {}

    fn start_refused(&self) {}

    fn accept_failed(&self, _error: &io::Error) {}

    fn uses_are_over(&self) {}

    fn start_failed(&self, _code: u32) {}

    fn connection_refused(&self) {}

    fn client_cut_off(&self, _seconds: u32, _in_frame: bool) {}

    fn request_refused(&self, _code: u32) {}

    fn may_hold(&self, _keys: u32) {}

    fn holds(&self, _key: Key, _outcomes: Option<u32>) {}

    fn uses(&self, _journal: JournalUse) {}

    fn unkept(&self, _why: NotKept) {}

    fn carried_out(&self, _asked: Option<(RequestKind, Key)>, _reply: Reply) {}

    fn notice_written(&self, _line: &str) {}

    fn notice_submitted(&self, _line: &str, _verdict: Verdict, _reply: &str) {}

    fn server_unreached(&self, _error: &io::Error) {}

    fn notices_wait(&self, _notices: usize) {}

    fn submission_stopped(&self, _why: &str) {}

    fn outbox_failed(&self, _error: &io::Error) {}
}
