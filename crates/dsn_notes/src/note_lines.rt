//! The texts of the lines of the notes.
//! Implements noticed-protocol(5).
#![tactic(auto, unfolding(crate::specs::Notes::answer_line, crate::specs::Notes::fault_line, crate::specs::Notes::unsent_line, crate::specs::Notes::key_words, crate::specs::Notes::open_line, crate::specs::Notes::reply_words, crate::specs::Notes::spoken_words))]

ghost use Rattle.std.specs.Prelude.{◌≡◌, ◌+◌, ◌≤◌, ◌++◌, length, decimal};
ghost use Rattle.dsn_notes.specs.inner.Lengths.{longest_counted, longest_place, longest_reply};
ghost use Rattle.dsn_notes.specs.Lengths.{longest_key, longest_key_start};
ghost use Rattle.dsn_notes.specs.Notes.{answer_line, fault_line, unsent_line, open_line, key_words, reply_words, spoken_words};

use dsn_book::OpenLine;
use dsn_frame::Spoken;
use dsn_outcome::{Key, Letter, Reply, ShortText};

/// Returns the line of an answer to the frame at a position of the input.
#[inline(always)]
pub fn answer_line(position: u32, answer: Spoken) -> ShortText
    ensures { result ≡ answer_line position answer }
{
    let mut line = ShortText::new();
    line.push_number(u64::from(position));
    line.push(b" ");
    push_spoken(&mut line, answer);
    line.push(b"\n");
    line
}

/// Returns the line of a fault, which has the number alone.
pub fn fault_line(code: u32) -> ShortText
    ensures { result ≡ fault_line code }
{
    let mut line = ShortText::new();
    line.push(b"fault ");
    line.push_number(u64::from(code));
    line.push(b"\n");
    line
}

/// Returns the line of a letter that was not written.
pub fn unsent_line(letter: &Letter) -> ShortText
    ensures { result ≡ unsent_line letter.now }
{
    let mut line = ShortText::new();
    line.push(b"unsent ");
    push_key(&mut line, &letter.key());
    line.push(b"\n");
    line
}

/// Returns the line of an open log.
pub(crate) fn open_line(log: &OpenLine) -> ShortText
    ensures { result ≡ open_line log.now }
{
    let mut line = ShortText::new();
    line.push(b"open ");
    push_key(&mut line, &log.key);
    line.push(b" ");
    line.push_number(u64::from(log.count));
    line.push(b"\n");
    line
}

/// Adds a key to a line: its service's letter, a space, and its queue id. Requires that the line
/// has at most ten bytes.
pub fn push_key(line: &mut ShortText, key: &Key)
    requires { length line.old ≤ longest_key_start }
    ensures pushed { line.new ≡ line.old ++ key_words key.now }
    ensures short { length line.new ≤ length line.old + longest_key }
{
    line.push(&[key.service.letter()]);
    line.push(b" ");
    line.push(key.id.bytes());
}

fn push_spoken(line: &mut ShortText, answer: Spoken)
    requires { length line.old ≤ longest_place }
    ensures pushed { line.new ≡ line.old ++ spoken_words answer }
    ensures short { length line.new ≤ length line.old + longest_reply }
{
    match answer {
        Spoken::Reply(replied) => push_reply(line, replied.reply),
        Spoken::Refused(code) => push_counted(line, b"refused ", code),
    }
}

fn push_reply(line: &mut ShortText, reply: Reply)
    requires { length line.old ≤ longest_place }
    ensures pushed { line.new ≡ line.old ++ reply_words reply }
    ensures short { length line.new ≤ length line.old + longest_reply }
{
    match reply {
        Reply::Logged(place) => push_counted(line, b"logged ", place),
        Reply::Closed => line.push(b"closed"),
        Reply::TableFull => line.push(b"table full"),
        Reply::LogFull => line.push(b"log full"),
        Reply::Nothing => line.push(b"nothing"),
        Reply::NoReturn(count) => push_counted(line, b"no return ", count),
        Reply::Sealed(count) => push_counted(line, b"sealed ", count),
        Reply::Discarded(count) => push_counted(line, b"discarded ", count),
        Reply::Gone => line.push(b"gone"),
        Reply::Forgotten => line.push(b"forgotten"),
        Reply::NotClosed => line.push(b"not closed"),
        Reply::Differs(count) => push_counted(line, b"differs ", count),
    }
}

/// Adds words and a number.
fn push_counted(line: &mut ShortText, words: &[u8], count: u32)
    requires before { length line.old ≤ longest_place }
    requires words { length words.now ≤ longest_counted }
    ensures pushed { line.new ≡ line.old ++ words.now ++ decimal count }
    ensures short { length line.new ≤ length line.old + longest_reply }
{
    line.push(words);
    line.push_number(u64::from(count));
}
