//! The command lines of a mail transaction.
//! Implements RFC 5321 section 4.1.1.
ghost use Rattle.std.specs.Prelude.{◌≡◌, ◌+◌, ◌≤◌, ◌++◌, [], length};
ghost use Rattle.dsn_smtp.specs.inner.CommandLine.{IsCommandLine, longest_command_line};
ghost use Rattle.dsn_smtp.specs.CommandLine.{hello_line, recipient_line};
ghost use Rattle.dsn_smtp.specs.Pipelining.{group_text};

use crate::body::Body;
use dsn_text::{Address, MtaName};
use std::marker::Model;

/// The longest command line, in bytes, with its CRLF (RFC 5321 section 4.5.3.1.4).
const LONGEST_COMMAND_LINE: usize = 512;

/// The lines of DATA and of QUIT (RFC 5321 section 4.1.1).
pub(crate) const DATA_LINE: &[u8] = b"DATA\r\n";

pub(crate) const QUIT_LINE: &[u8] = b"QUIT\r\n";

/// A command line, or a group of them, stored in place.
#[derive(Drop)]
pub(crate) struct CommandLine {
    buffer: [u8; LONGEST_COMMAND_LINE],
    size: usize,
}

impl Model for CommandLine {
    ghost use Rattle.std.specs.Prelude.{ℕ, List, ◌≤◌, take};
    ghost use Rattle.dsn_smtp.specs.inner.CommandLine.{longest_command_line};

    ghost Value = { List ℕ };

    ghost view = { λ l. take l.size l.buffer };

    ghost invariant = { λ l. l.size ≤ longest_command_line };
}

impl CommandLine {
    /// EHLO, with the client's own name.
    #[tactic(auto, using(crate::proofs::CommandLineLemmas::hello_is_line))]
    pub(crate) fn hello(host: &MtaName) -> CommandLine
        ensures same { result ≡ hello_line host.now }
        ensures line { IsCommandLine result }
    {
        let name = host.bytes();
        let mut line = CommandLine::empty();
        line.push(b"EHLO ");
        line.push(name);
        line.push(b"\r\n");
        line
    }

    /// RCPT, for one path.
    #[tactic(auto, using(crate::proofs::CommandLineLemmas::recipient_is_line))]
    pub(crate) fn recipient(path: &Address) -> CommandLine
        ensures same { result ≡ recipient_line path.now }
        ensures line { IsCommandLine result }
    {
        let address = path.bytes();
        let mut line = CommandLine::empty();
        line.push(b"RCPT TO:<");
        line.push(address);
        line.push(b">\r\n");
        line
    }

    /// MAIL for a message of this kind, RCPT for one path, and DATA: a group (RFC 2920).
    pub(crate) fn group(body: Body, path: &Address) -> CommandLine
        ensures { result ≡ group_text body path.now }
    {
        let address = path.bytes();
        let mut group = CommandLine::empty();
        group.push(body.sender_line());
        group.push(b"RCPT TO:<");
        group.push(address);
        group.push(b">\r\n");
        group.push(DATA_LINE);
        group
    }

    fn empty() -> CommandLine
        ensures { result ≡ [] }
    {
        CommandLine {
            buffer: [0; LONGEST_COMMAND_LINE],
            size: 0,
        }
    }

    /// Appends a text to the line. Requires that the line has room for it.
    fn push(&mut self, text: &[u8])
        requires { length self.old + length text.now ≤ longest_command_line }
        ensures { self.new ≡ self.old ++ text.now }
    {
        let size = self.size + text.len();
        self.buffer[self.size..size].copy_from_slice(text);
        self.size = size;
    }

    /// The bytes, with the CRLF at their end.
    pub(crate) fn bytes(&self) -> &[u8]
        ensures { result.now ≡ self.now }
    {
        &self.buffer[..self.size]
    }
}
