//! Connections to the mail server to which notices are submitted.
//! Implements RFC 5321 section 4.5.3.2 and docs/postfix-internals.md, "A connection".
use crate::connect::Connect;
use crate::hand_in_fault::HandInFault;
use crate::hand_in_step::HandInStep;
use crate::mail_stream::{MailSocket, MailStream};
use crate::reply_fault::ReplyFault;
use crate::server_address::ServerAddress;
use dsn_device::{Connection, Plain};
use std::io;
use std::net::{SocketAddr, TcpStream};
use std::os::unix::net::UnixStream;
use std::time::Duration;

/// The time limit for making a TCP connection, in seconds.
const SECONDS_TO_CONNECT: u64 = 30;

/// A connection to a mail server.
pub type MailConnection = Plain<Connection<MailStream>>;

/// A mail server to which connections are made.
#[derive(Drop)]
pub struct MailServer<'a> {
    rt: &'a HostRuntime,
    address: &'a ServerAddress,
    /// The error of the last connection that failed, if one failed.
    pub unconnected: Option<io::Error>,
}

impl<'a> MailServer<'a> {
    /// The server at this address.
    pub fn new(rt: &'a HostRuntime, address: &'a ServerAddress) -> MailServer<'a> {
        MailServer {
            rt,
            address,
            unconnected: None,
        }
    }
}

impl Connect<MailConnection> for MailServer<'_> {
    ghost gives = { λ _ _ _. Unit {0} };

    fn connect(&mut self) -> Result<MailConnection, HandInFault> {
        match connect_with_limits(self.rt, self.address) {
            Ok(stream) => Ok(Plain::new(Connection::new(stream))),
            Err(error) => {
                self.unconnected = Some(error);
                Err(HandInFault::Unheard(HandInStep::Greeting, ReplyFault::Read))
            }
        }
    }
}

/// Connects to an address. The connection has the time limits of [`MailStream`].
fn connect_with_limits(rt: &HostRuntime, address: &ServerAddress) -> io::Result<MailStream> {
    match address {
        ServerAddress::Tcp(address) => connect_by_tcp(rt, address),
        ServerAddress::Unix(path) => connect_to_path(rt, path.as_str()),
    }
}

fn connect_by_tcp(rt: &HostRuntime, address: &SocketAddr) -> io::Result<MailStream> {
    let to_connect = Duration::from_secs(SECONDS_TO_CONNECT);
    let stream = TcpStream::connect_timeout(rt, address, to_connect)?;
    stream.set_nodelay(true)?;
    MailStream::new(MailSocket::Tcp(stream))
}

/// Connects to a Unix socket. The kit has no time limit for that: it waits while as many
/// connections as the server's backlog takes wait to be accepted.
fn connect_to_path(rt: &HostRuntime, path: &str) -> io::Result<MailStream> {
    let stream = UnixStream::connect(rt, path)?;
    MailStream::new(MailSocket::Unix(stream))
}
