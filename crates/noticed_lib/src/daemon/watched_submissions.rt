//! What a watch hears of the notices that are submitted to a mail server.
use crate::daemon::log_line::{LINE_ROOM, letter_line};
use crate::daemon::watch::Watch;
use arrayvec::ArrayString;
use dsn_hand_in::Submissions;
use dsn_outcome::Letter;
use dsn_smtp::HandInFault;
use dsn_submission::{Handled, reason_of};

/// How much of a reply is logged, in bytes.
const REPLY_ROOM: usize = 240;

/// Reports to its watch what becomes of each notice.
#[derive(Drop)]
pub(crate) struct WatchedSubmissions<'a, H> {
    watch: &'a H,
    /// The line of the notice that is being submitted, where lines are wanted.
    line: ArrayString<LINE_ROOM>,
}

impl<'a, H> WatchedSubmissions<'a, H> {
    /// Reports to this watch.
    pub(crate) fn new(watch: &'a H) -> WatchedSubmissions<'a, H> {
        WatchedSubmissions {
            watch,
            line: ArrayString::new(),
        }
    }
}

impl<H: Watch> Submissions for WatchedSubmissions<'_, H> {
    fn begins(&mut self, letter: &Letter) {
        if self.watch.logs() {
            self.line = letter_line(letter);
        }
    }

    fn handled(&self, handled: &Handled, reply: &[u8]) {
        // A reply of an earlier command says nothing of a server that didn't answer.
        let reply = match handled.fault {
            None | Some(HandInFault::Refused(_, _) | HandInFault::NotOffered) => {
                reason_of(&handled.fault, reply)
            }
            Some(_) => b"",
        };
        self.watch
            .notice_submitted(&self.line, handled.verdict, &reply_line(reply));
    }

    fn waits(&self, letters: usize) {
        self.watch.notices_wait(letters);
    }

    fn stopped(&self) {
        self.watch
            .submission_stopped("it could not be kept that a notice is settled");
    }

    fn dropped(&self, _letter: &Letter) {
        self.watch
            .submission_stopped("no memory for a notice that waits");
    }
}

/// The first line of a reply, with `?` in place of each byte that isn't printable.
fn reply_line(reply: &[u8]) -> ArrayString<REPLY_ROOM> {
    let mut line = ArrayString::new();
    for byte in reply.iter().take_while(|byte| **byte != b'\r') {
        let shown = if matches!(byte, b' '..=b'~') {
            *byte
        } else {
            b'?'
        };
        // What finds no room is left out.
        let _ = line.try_push(char::from(shown));
    }
    line
}
