//! The state of reading a reply, byte by byte.
//! Implements RFC 5321 section 4.2.
ghost use Rattle.std.specs.Prelude.{◌≡◌, ◌==◌, if◌then◌else◌};
ghost use Rattle.dsn_smtp.specs.ReplyCode.{is_reply_code};
ghost use Rattle.dsn_smtp.specs.inner.ReplyState.{reply_state_after, scan, step_if};

use crate::reply_code::ReplyCode;

/// The state before the next byte of a reply. Each state after the first line's code has that code.
#[derive(Clone, Copy)]
pub(crate) enum ReplyState {
    /// In front of the reply.
    Front,
    /// In front of the first code's second digit, after this one.
    Second(u8),
    /// In front of the first code's third digit, after these.
    Third(u8, u8),
    /// After a line's code.
    Mark(ReplyCode),
    /// Within the text of a line that isn't the last.
    Text(ReplyCode),
    /// Within the text of the last line.
    LastText(ReplyCode),
    /// In front of the LF of a line that isn't the last.
    LineFeed(ReplyCode),
    /// In front of the last LF.
    LastLineFeed(ReplyCode),
    /// In front of a further line.
    FrontAgain(ReplyCode),
    /// In front of a further line's second digit.
    SecondAgain(ReplyCode),
    /// In front of a further line's third digit.
    ThirdAgain(ReplyCode),
}

/// The result of one byte.
#[derive(Clone, Copy)]
pub(crate) enum ReplyStep {
    /// The reply goes on in this state.
    Within(ReplyState),
    /// The reply ends with the byte, and has this code.
    Ended(ReplyCode),
    /// No reply has the byte at this place.
    Misplaced,
}

/// The result of some bytes.
#[derive(Clone, Copy)]
pub(crate) enum ReplyScan {
    /// More bytes may complete them to a reply.
    Open,
    /// They are a reply with this code.
    Whole(ReplyCode),
    /// They begin with a reply, and more bytes follow it.
    Behind,
    /// No reply begins with them.
    Wrong,
}

impl ReplyState {
    /// The step for a byte in this state.
    fn after(&self, byte: u8) -> ReplyStep
        ensures { result ≡ reply_state_after self.now byte }
    {
        match *self {
            ReplyState::Front => step_if(
                matches!(byte, b'2'..=b'5'),
                ReplyStep::Within(ReplyState::Second(byte)),
            ),
            ReplyState::Second(first) => step_if(
                matches!(byte, b'0'..=b'5'),
                ReplyStep::Within(ReplyState::Third(first, byte)),
            ),
            ReplyState::Third(first, second) => after_digits([first, second, byte]),
            ReplyState::Mark(code) => after_code(code, byte),
            ReplyState::Text(code) => within_text(
                byte,
                ReplyState::Text(code),
                ReplyState::LineFeed(code),
            ),
            ReplyState::LastText(code) => within_text(
                byte,
                ReplyState::LastText(code),
                ReplyState::LastLineFeed(code),
            ),
            ReplyState::LineFeed(code) => step_if(
                byte == b'\n',
                ReplyStep::Within(ReplyState::FrontAgain(code)),
            ),
            ReplyState::LastLineFeed(code) => step_if(byte == b'\n', ReplyStep::Ended(code)),
            ReplyState::FrontAgain(code) => step_if(
                byte == code.digits()[0],
                ReplyStep::Within(ReplyState::SecondAgain(code)),
            ),
            ReplyState::SecondAgain(code) => step_if(
                byte == code.digits()[1],
                ReplyStep::Within(ReplyState::ThirdAgain(code)),
            ),
            ReplyState::ThirdAgain(code) => step_if(
                byte == code.digits()[2],
                ReplyStep::Within(ReplyState::Mark(code)),
            ),
        }
    }
}

/// The step if a test holds, or else `Misplaced`.
fn step_if(test: bool, step: ReplyStep) -> ReplyStep
    ensures { result ≡ step_if test step }
{
    if test { step } else { ReplyStep::Misplaced }
}

/// The step for the third digit of a code, after the two before it.
fn after_digits(digits: [u8; 3]) -> ReplyStep
    ensures { result ≡ step_if (is_reply_code digits) (ReplyStep.Within (ReplyState.Mark digits)) }
{
    match ReplyCode::new(digits) {
        Some(code) => ReplyStep::Within(ReplyState::Mark(code)),
        None => ReplyStep::Misplaced,
    }
}

/// The step for the byte after a line's code.
fn after_code(code: ReplyCode, byte: u8) -> ReplyStep
    ensures { result ≡ reply_state_after (ReplyState.Mark code) byte }
{
    match byte {
        b'-' => ReplyStep::Within(ReplyState::Text(code)),
        b' ' => ReplyStep::Within(ReplyState::LastText(code)),
        b'\r' => ReplyStep::Within(ReplyState::LastLineFeed(code)),
        _ => ReplyStep::Misplaced,
    }
}

/// The step for a byte within a text: stays in state `text`, or goes to `line_feed` after CR.
fn within_text(byte: u8, text: ReplyState, line_feed: ReplyState) -> ReplyStep
    ensures { result ≡ (if byte == 13 then ReplyStep.Within line_feed
        else (if byte == 10 then ReplyStep.Misplaced else ReplyStep.Within text)) }
{
    match byte {
        b'\r' => ReplyStep::Within(line_feed),
        b'\n' => ReplyStep::Misplaced,
        _ => ReplyStep::Within(text),
    }
}

/// Scans bytes from the front of a reply.
pub(crate) fn scan(bytes: &[u8]) -> ReplyScan
    ensures { result ≡ scan ReplyState.Front bytes.now }
{
    let mut state = ReplyState::Front;
    let mut rest = bytes;
    while let [byte, after @ ..] = rest {
        match state.after(*byte) {
            ReplyStep::Within(next) => state = next,
            ReplyStep::Ended(code) if after.is_empty() => return ReplyScan::Whole(code),
            ReplyStep::Ended(_) => return ReplyScan::Behind,
            ReplyStep::Misplaced => return ReplyScan::Wrong,
        }
        rest = after;
    }
    ReplyScan::Open
}
