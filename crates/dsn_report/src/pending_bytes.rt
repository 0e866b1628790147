//! A buffer of bytes to be written.
ghost use Rattle.std.specs.Prelude.{◌≡◌, [], ◌++◌, if◌then◌else◌};

use std::marker::Model;

/// The size of the buffer in bytes.
// A write through a device costs far more than a copy. The buffer is empty between two calls of a
// poster.
const HELD_ROOM: usize = 4_096;

/// A buffer that joins short texts into one write.
#[derive(Drop)]
pub(crate) struct PendingBytes {
    room: [u8; HELD_ROOM],
    len: usize,
}

impl Model for PendingBytes {
    ghost use Rattle.std.specs.Prelude.{ℕ, List, ◌≤◌, take};
    ghost use Rattle.dsn_report.specs.declared.pending_bytes.TheConstants.{HELD_ROOM};

    ghost Value = { List ℕ };

    ghost view = { λ h. take h.len h.room };

    ghost invariant = { λ h. h.len ≤ HELD_ROOM };
}

impl PendingBytes {
    /// An empty buffer.
    pub(crate) fn new() -> Self
        ensures { result ≡ [] }
    {
        PendingBytes {
            room: [0; HELD_ROOM],
            len: 0,
        }
    }

    /// Appends a text if there is room for it, and returns whether there was.
    #[inline(always)]
    pub(crate) fn push(&mut self, text: &[u8]) -> bool
        ensures { self.new ≡ (if result then self.old ++ text.now else self.old) }
    {
        if text.len() > HELD_ROOM - self.len {
            return false;
        }
        let past = self.len + text.len();
        self.room[self.len..past].copy_from_slice(text);
        self.len = past;
        true
    }

    /// The buffered bytes.
    pub(crate) fn bytes(&self) -> &[u8]
        ensures { result.now ≡ self.now }
    {
        &self.room[..self.len]
    }

    /// Empties the buffer.
    pub(crate) fn clear(&mut self)
        ensures { self.new ≡ [] }
    {
        self.len = 0;
    }
}
