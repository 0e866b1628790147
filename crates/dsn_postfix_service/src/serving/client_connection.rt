//! A client's connection, with a deadline for the client's list.
//! Implements docs/postfix-internals.md, "A connection".
use std::io;
use std::io::{Error, ErrorKind, Read, Write};
use std::os::unix::net::UnixStream;
use std::time::{Duration, Instant};

/// For how many seconds a client may take nothing of what is sent to it.
const SECONDS_TO_TAKE: u64 = 60;

/// A client's connection. Each read ends at the deadline for the client's list, however many pieces
/// came before: Postfix's programs send a list at once.
#[derive(Drop)]
pub(super) struct ClientConnection<'a> {
    rt: &'a HostRuntime,
    stream: UnixStream,
    until: Instant,
}

impl<'a> ClientConnection<'a> {
    /// The connection over this socket, with a deadline at this time from now.
    pub(super) fn new(
        rt: &'a HostRuntime,
        stream: UnixStream,
        within: Duration,
    ) -> io::Result<ClientConnection<'a>> {
        stream.set_write_timeout(Some(Duration::from_secs(SECONDS_TO_TAKE)))?;
        let until = Instant::now(rt)?.checked_add(within);
        Ok(ClientConnection {
            rt,
            stream,
            until: until.ok_or_else(|| Error::from(ErrorKind::InvalidInput))?,
        })
    }
}

impl Read for ClientConnection<'_> {
    fn read(&mut self, buffer: &mut [u8]) -> io::Result<usize> {
        let left = self.until.saturating_duration_since(Instant::now(self.rt)?);
        if left.is_zero() {
            return Err(Error::from(ErrorKind::TimedOut));
        }
        self.stream.set_read_timeout(Some(left))?;
        self.stream.read(buffer)
    }
}

impl Write for ClientConnection<'_> {
    fn write(&mut self, text: &[u8]) -> io::Result<usize> {
        self.stream.write(text)
    }

    fn flush(&mut self) -> io::Result<()> {
        self.stream.flush()
    }
}
