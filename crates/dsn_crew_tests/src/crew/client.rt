//! Connections in memory for tests, of which no contract exposes the bytes, and what their clients hear.
ghost use Rattle.std.specs.Prelude.{None, refl};

use dsn_crew::{Next, Port};
use dsn_device::{OpaqueStream, Plain};
use std::alloc::Global;
use std::io;
use std::io::{Read, Write};
use std::sync::atomic::{AtomicU8, Ordering};
use std::test::Fail;

/// How many bytes the frame of an answer has.
pub(super) const ANSWER: usize = 14;

/// Room for what a client hears: the given number of answers and one more, so that an answer too
/// many shows.
/// shows.
pub(super) fn room_for(alloc: Global, answers: u32) -> Result<Vec<AtomicU8>, Fail> {
    let mut room = Vec::new(alloc);
    for _ in 0..(answers as usize).saturating_add(1).saturating_mul(ANSWER) {
        room.push(AtomicU8::new(0))?;
    }
    Ok(room)
}

/// What a client heard, with zeros after it.
pub(super) fn bytes_in(alloc: Global, room: &[AtomicU8]) -> Result<Vec<u8>, Fail> {
    let mut bytes = Vec::new(alloc);
    for byte in room {
        bytes.push(byte.load(Ordering::SeqCst))?;
    }
    Ok(bytes)
}

/// A connection in memory. What is written to it is kept as far as there is room.
#[derive(Drop)]
pub(super) struct Client<'a> {
    unread: &'a [u8],
    heard: &'a [AtomicU8],
}

impl Read for Client<'_> {
    fn read(&mut self, buffer: &mut [u8]) -> io::Result<usize> {
        self.unread.read(buffer)
    }
}

impl Write for Client<'_> {
    fn write(&mut self, text: &[u8]) -> io::Result<usize> {
        let (kept, rest) = self.heard.split_at(text.len().min(self.heard.len()));
        for (place, byte) in kept.iter().zip(text) {
            place.store(*byte, Ordering::SeqCst);
        }
        self.heard = rest;
        Ok(text.len())
    }

    fn flush(&mut self) -> io::Result<()> {
        Ok(())
    }
}

impl OpaqueStream for Client<'_> {
    ghost untold_input = { λ _. refl };

    ghost untold_output = { λ _. refl };
}

/// A port with one connection.
#[derive(Drop)]
pub(super) struct ClientPort<'a> {
    client: Option<Client<'a>>,
}

impl<'a> Port for ClientPort<'a> {
    type Stream = Plain<Client<'a>>;

    ghost conns = { λ _. None };

    ghost may_give = { λ _ _. Unit {0} };

    fn next(&mut self) -> Next<Plain<Client<'a>>> {
        match self.client.take() {
            Some(client) => Next::Conn(Plain::new(client)),
            None => Next::Done,
        }
    }
}

/// A port whose client sends these bytes, and has this room for what it hears.
pub(super) fn port_of<'a>(unread: &'a [u8], heard: &'a [AtomicU8]) -> ClientPort<'a> {
    ClientPort {
        client: Some(Client { unread, heard }),
    }
}

/// The port of a crew of one agent, whose client keeps nothing of what it hears.
pub(super) fn only_port(alloc: Global, unread: &[u8]) -> Result<Vec<ClientPort<'_>>, Fail> {
    let mut ports = Vec::new(alloc);
    ports.push(port_of(unread, &[]))?;
    Ok(ports)
}
