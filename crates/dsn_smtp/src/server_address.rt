//! The address of a mail server.
use std::fmt;
use std::fmt::{Display, Formatter};
use std::net::SocketAddr;

/// Where a mail server accepts connections.
#[derive(Drop)]
pub enum ServerAddress {
    /// A TCP address.
    Tcp(SocketAddr),
    /// The path of a Unix socket.
    Unix(String),
}

impl Display for ServerAddress {
    fn fmt<W: fmt::Write>(&self, f: &mut Formatter<W>) -> fmt::Result {
        match self {
            ServerAddress::Tcp(address) => Display::fmt(address, f),
            ServerAddress::Unix(path) => Display::fmt(path, f),
        }
    }
}
