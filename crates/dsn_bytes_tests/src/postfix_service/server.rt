//! A mail server in memory, which gives set replies in pieces, and fails at a set call.
ghost use Rattle.std.specs.Prelude.{refl};

use dsn_outcome::{OpaqueStream, Plain};
use dsn_smtp::{HandInFault, HandInStep, ReplyCode};
use dsn_text::{Address, MtaName};
use std::alloc::Global;
use std::cell::RefCell;
use std::io;
use std::io::{ErrorKind, Read, Write};
use std::test::Fail;

/// A mail server in memory. No contract knows its bytes.
#[derive(Drop)]
pub(crate) struct Server<'a> {
    /// The replies that are left, each after a `|`. No read gives bytes of two.
    pub(crate) script: &'a [u8],
    /// The most bytes that a call gives or takes; 0 counts as 1.
    pub(crate) most: usize,
    /// The number of calls that succeed before one is interrupted. All later calls succeed.
    pub(crate) calls: usize,
    /// The record of the bytes that were sent to it, with a `<` at the start of each reply.
    pub(crate) heard: &'a RefCell<Vec<u8>>,
}

impl<'a> Server<'a> {
    /// A connection to a server with these replies. No call of it fails.
    pub(crate) fn steady(script: &'a [u8], heard: &'a RefCell<Vec<u8>>) -> Plain<Server<'a>> {
        Plain::new(Server {
            script,
            most: 1_000,
            calls: usize::MAX,
            heard,
        })
    }

    /// Counts a call, and fails if it is the one to fail.
    fn count_call(&mut self) -> io::Result<()> {
        if self.calls == 0 {
            self.calls = usize::MAX;
            return Err(io::Error::from(ErrorKind::Interrupted));
        }
        self.calls -= 1;
        Ok(())
    }

    /// Records the bytes that were sent to it, or the start of a reply.
    fn note(&self, text: &[u8]) -> io::Result<()> {
        let Ok(mut heard) = self.heard.try_borrow_mut() else {
            return Err(io::Error::from(ErrorKind::Other));
        };
        heard.extend_from_slice(text)?;
        Ok(())
    }
}

impl Read for Server<'_> {
    fn read(&mut self, buffer: &mut [u8]) -> io::Result<usize> {
        self.count_call()?;
        if let [b'|', reply @ ..] = self.script {
            self.script = reply;
            self.note(b"<")?;
        }
        let end = self.script.iter().position(|&byte| byte == b'|');
        let size = end.unwrap_or(self.script.len()).min(self.most.max(1));
        let room = buffer.len().min(size);
        self.script.read(&mut buffer[..room])
    }
}

impl Write for Server<'_> {
    fn write(&mut self, text: &[u8]) -> io::Result<usize> {
        self.count_call()?;
        let taken = text.len().min(self.most.max(1));
        self.note(&text[..taken])?;
        Ok(taken)
    }

    fn flush(&mut self) -> io::Result<()> {
        self.count_call()
    }
}

impl OpaqueStream for Server<'_> {
    ghost untold_input = { λ _. refl };

    ghost untold_output = { λ _. refl };
}

/// The host that submits notices.
pub(crate) fn host(alloc: Global) -> Result<MtaName, Fail> {
    Ok(MtaName::new(alloc, b"mail.example.net")?)
}

/// The recipient of notices.
pub(crate) fn path(alloc: Global) -> Result<Address, Fail> {
    Ok(Address::new(alloc, b"ann@example.org")?)
}

/// The fault of a notice that is refused at a step with this code.
pub(crate) fn refused_at(step: HandInStep, digits: [u8; 3]) -> Option<HandInFault> {
    match ReplyCode::new(digits) {
        Some(code) => Some(HandInFault::Refused(step, code)),
        None => None,
    }
}
