//! The lines of agents.
#![tactic(auto, unfolding(crate::specs::daemon::AgentLines::agent_line))]

ghost use Rattle.std.specs.Prelude.{◌≡◌, ◌+◌, ◌≤◌, ◌++◌, length, decimal};
ghost use Rattle.dsn_text.specs.Text.{most_digits};
ghost use Rattle.noticed_lib.specs.daemon.AgentLines.{agent_line};

use arrayvec::ArrayString;
use dsn_crew::AgentLine;
use itoa::Buffer;

/// Room for the line of an agent, in bytes: it has 118 at most.
const LINE_ROOM: usize = 128;

/// The line of what an agent did.
pub(crate) fn agent_line(agent: usize, line: &AgentLine) -> ArrayString<LINE_ROOM>
    ensures { result.bytes ≡ agent_line agent line.now }
{
    // One write a line, and a line is longer than a `ShortText`.
    let mut text = ArrayString::new();
    push_counted(&mut text, "agent ", agent as u64);
    push_counted(&mut text, " requests ", u64::from(line.requests));
    push_counted(&mut text, " connections ", u64::from(line.connections));
    push_counted(&mut text, " faults ", u64::from(line.faults));
    text.push_str("\n");
    text
}

/// Adds words and a number.
fn push_counted(text: &mut ArrayString<LINE_ROOM>, words: &str, number: u64)
    requires { length text.old.bytes + length words.now + most_digits ≤ LINE_ROOM }
    ensures pushed { text.new.bytes ≡ text.old.bytes ++ words.now ++ decimal number }
    ensures short { length text.new.bytes ≤ length text.old.bytes + length words.now + most_digits }
{
    text.push_str(words);
    text.push_str(Buffer::new().format(number));
}
