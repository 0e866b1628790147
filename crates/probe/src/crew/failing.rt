//! Which call of which device fails, in a run.
ghost use Rattle.std.specs.Prelude.{◌≡◌, IfOk};

use std::io;
use std::io::ErrorKind;
use std::sync::atomic::{AtomicU64, Ordering};

/// What a run does to its devices.
#[derive(Clone, Copy, Debug, PartialEq, Eq)]
pub(crate) enum Call {
    /// A read of a connection.
    Read,
    /// A write to a connection.
    Write,
    /// A write to the outbox.
    Post,
    /// A flush of the outbox.
    Flush,
}

/// How a call fails.
#[derive(Clone, Copy, Debug, PartialEq, Eq)]
pub(crate) enum Failure {
    /// With an error.
    Error,
    /// With an interruption.
    Interruption,
    /// By taking or giving no byte; a flush goes well.
    Nothing,
}

impl Failure {
    /// What the call gives: no byte, if it gives something.
    pub(crate) fn given(self) -> io::Result<usize>
        ensures { IfOk result (λ count. count ≡ 0) }
    {
        match self {
            Failure::Error => Err(io::Error::from(ErrorKind::Other)),
            Failure::Interruption => Err(io::Error::from(ErrorKind::Interrupted)),
            Failure::Nothing => Ok(0),
        }
    }
}

/// The one call that fails in a run: the one of this kind with this number, from 1. With 0 none does.
#[derive(Drop)]
pub(crate) struct Failing {
    call: Call,
    number: u64,
    failure: Failure,
    made: AtomicU64,
}

impl Failing {
    /// The call of this kind and number fails so.
    pub(crate) fn new(call: Call, number: u64, failure: Failure) -> Failing {
        Failing {
            call,
            number,
            failure,
            made: AtomicU64::new(0),
        }
    }

    /// How this call fails, which is made now; none where it doesn't.
    pub(crate) fn at(&self, call: Call) -> Option<Failure> {
        if call != self.call {
            return None;
        }
        let before = self.made.fetch_add(1, Ordering::SeqCst);
        if before.wrapping_add(1) == self.number {
            Some(self.failure)
        } else {
            None
        }
    }
}
