//! A connection in memory that asks, and drops what it is answered.
ghost use Rattle.std.specs.Prelude.{refl};

use dsn_device::OpaqueStream;
use std::io;
use std::io::{Read, Write};

/// The length of each frame, in bytes.
const SIZE: usize = 52;

/// An append of `bob@example.org`, failed with status 5.1.1, to the bounce log `A1B2C3`.
const APPEND: &[u8; SIZE] =
    b"\0\0\0\x30\x01\x01\0\0\0\0\x01\0\x06A1B2C3\0\0\0\x0fbob@example.org\x01\0\x055.1.1\0\0\0\0\0\0";

/// A flush of that log with moment 1700000000, arrival 1699996400 and the return path `ann@example`.
const FLUSH: &[u8; SIZE] =
    b"\0\0\0\x30\x01\x02\0\0\0\0\x01\0\x06A1B2C3\0\0\0\0\x65\x53\xf1\0\0\0\0\0\x65\x53\xe2\xf0\0\x0bann@example\0\0\0\0";

/// A connection in memory. It exposes no bytes to contracts.
#[derive(Drop)]
pub(crate) struct Peer {
    /// The first letter of the log's queue id.
    log: u8,
    /// How many appends come yet,
    appends: u32,
    /// and whether a flush comes after them.
    flushes: bool,
    /// The number of the next frame.
    number: u32,
    frame: [u8; SIZE],
    /// How many bytes of the frame were read.
    read: usize,
}

impl Peer {
    /// A connection that asks for `appends` appends to the log of this agent. That of agent 0 then
    /// asks for a flush.
    pub(crate) fn new(agent: u32, appends: u32) -> Peer {
        Peer {
            log: b'A'.wrapping_add((agent % 26) as u8),
            appends,
            flushes: agent == 0,
            number: 0,
            frame: *APPEND,
            read: SIZE,
        }
    }

    /// Begins the next frame, if one comes.
    fn begin_frame(&mut self) {
        if self.appends > 0 {
            self.appends -= 1;
            self.frame = *APPEND;
        } else if self.flushes {
            self.flushes = false;
            self.frame = *FLUSH;
        } else {
            return;
        }
        self.frame[6..10].copy_from_slice(&self.number.to_be_bytes());
        self.frame[13] = self.log;
        self.number = self.number.wrapping_add(1);
        self.read = 0;
    }
}

impl Read for Peer {
    fn read(&mut self, buffer: &mut [u8]) -> io::Result<usize> {
        if self.read >= SIZE {
            self.begin_frame();
        }
        let mut rest = self.frame.get(self.read..).unwrap_or(b"");
        let count = rest.read(buffer)?;
        self.read = self.read.wrapping_add(count);
        Ok(count)
    }
}

impl Write for Peer {
    fn write(&mut self, text: &[u8]) -> io::Result<usize> {
        Ok(text.len())
    }

    fn flush(&mut self) -> io::Result<()> {
        Ok(())
    }
}

impl OpaqueStream for Peer {
    ghost untold_input = { λ _. refl };

    ghost untold_output = { λ _. refl };
}
