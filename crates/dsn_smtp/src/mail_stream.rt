//! A socket that is connected to a mail server, with its time limits (RFC 5321 section 4.5.3.2).
use std::io;
use std::io::{Read, Write};
use std::net::TcpStream;
use std::os::unix::net::UnixStream;
use std::time::Duration;

/// The time limit for sending a piece, and for receiving a piece of a reply, in seconds. It is a
/// fifth of what the RFC recommends: the server is the operator's own, nothing is lost if it is
/// tried again, and meanwhile a thread waits for it.
const SECONDS_FOR_PIECE: u64 = 60;

/// The time limit for a piece of the reply to a message, in seconds. The server may have accepted
/// the message, so whoever submits it again may notify a sender twice.
const SECONDS_FOR_MESSAGE: u64 = 600;

/// The end of a message: the line of one dot (RFC 5321 section 4.1.1.4).
const MESSAGE_END: &[u8] = b"\r\n.\r\n";

/// A socket that is connected to a mail server.
#[derive(Drop)]
pub(crate) enum MailSocket {
    /// Connected by TCP.
    Tcp(TcpStream),
    /// Connected to a Unix socket.
    Unix(UnixStream),
}

/// A connection to a mail server. It waits longer for the reply to a message than for any other.
#[derive(Drop)]
pub struct MailStream {
    socket: MailSocket,
    /// The limit for receiving a piece, in seconds.
    seconds: u64,
}

impl MailStream {
    /// The connection over this socket, with its time limits. Returns an error if the system
    /// doesn't take them.
    pub(crate) fn new(socket: MailSocket) -> io::Result<MailStream> {
        socket.limit_writes(SECONDS_FOR_PIECE)?;
        socket.limit_reads(SECONDS_FOR_PIECE)?;
        Ok(MailStream {
            socket,
            seconds: SECONDS_FOR_PIECE,
        })
    }

    /// Sets the limit for the reply to this text.
    fn await_reply_to(&mut self, text: &[u8]) -> io::Result<()> {
        let seconds = if ends_message(text) {
            SECONDS_FOR_MESSAGE
        } else {
            SECONDS_FOR_PIECE
        };
        if seconds != self.seconds {
            self.socket.limit_reads(seconds)?;
            self.seconds = seconds;
        }
        Ok(())
    }
}

/// Whether a text ends a message, or is the last bytes of one.
fn ends_message(text: &[u8]) -> bool {
    text.ends_with(MESSAGE_END) || MESSAGE_END.ends_with(text)
}

impl MailSocket {
    fn limit_reads(&self, seconds: u64) -> io::Result<()> {
        let limit = Some(Duration::from_secs(seconds));
        match self {
            MailSocket::Tcp(stream) => stream.set_read_timeout(limit),
            MailSocket::Unix(stream) => stream.set_read_timeout(limit),
        }
    }

    fn limit_writes(&self, seconds: u64) -> io::Result<()> {
        let limit = Some(Duration::from_secs(seconds));
        match self {
            MailSocket::Tcp(stream) => stream.set_write_timeout(limit),
            MailSocket::Unix(stream) => stream.set_write_timeout(limit),
        }
    }
}

impl Read for MailStream {
    fn read(&mut self, buffer: &mut [u8]) -> io::Result<usize> {
        match &mut self.socket {
            MailSocket::Tcp(stream) => stream.read(buffer),
            MailSocket::Unix(stream) => stream.read(buffer),
        }
    }
}

impl Write for MailStream {
    fn write(&mut self, text: &[u8]) -> io::Result<usize> {
        self.await_reply_to(text)?;
        match &mut self.socket {
            MailSocket::Tcp(stream) => stream.write(text),
            MailSocket::Unix(stream) => stream.write(text),
        }
    }

    fn flush(&mut self) -> io::Result<()> {
        match &mut self.socket {
            MailSocket::Tcp(stream) => stream.flush(),
            MailSocket::Unix(stream) => stream.flush(),
        }
    }
}
