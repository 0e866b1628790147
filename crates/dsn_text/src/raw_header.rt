//! The headers of messages, or whole messages, that a notice returns.
//! Implements RFC 3461 section 4.3 and noticed-protocol(5).
ghost use Rattle.std.specs.Prelude.{◌≡◌, ◌↔◌, ◌<◌, ◌≤◌, length, IsTrue, IfOk, IsOk, IsErrOf};

use crate::no_memory::NoMemory;
use crate::text::{TextFault, copied};
use std::alloc::Global;
use std::marker::Model;

/// The length limit of a header, in bytes (this project's profile).
pub const LONGEST_HEADER: usize = 32768;

/// A message's header, or the whole message, as a request carries it: at most 32,768 bytes of any
/// value.
#[derive(Debug, Drop)]
pub struct RawHeader {
    bytes: Vec<u8>,
}

impl Model for RawHeader {
    ghost use Rattle.std.specs.Prelude.{ℕ, List, ◌≤◌, length};
    ghost use Rattle.dsn_text.specs.Text.{longest_header};

    ghost Value = { List ℕ };

    ghost view = { λ a. a.bytes.items };

    ghost invariant = { λ a. length a.bytes.items ≤ longest_header };
}

impl RawHeader {
    /// Whether a text has at most 32,768 bytes. It takes no memory.
    pub fn is_valid(text: &[u8]) -> bool
        ensures { IsTrue result ↔ (length text.now ≤ LONGEST_HEADER) }
    {
        text.len() <= LONGEST_HEADER
    }

    /// Copies a text. Returns `Bad` if it has over 32,768 bytes, and `NoMemory` only if memory for
    /// it was refused.
    pub fn new(alloc: Global, text: &[u8]) -> Result<RawHeader, TextFault>
        ensures kept { IfOk result (λ kept. kept ≡ text.now) }
        ensures legal { IsOk result → length text.now ≤ LONGEST_HEADER }
        ensures bad { IsErrOf result TextFault.Bad ↔ (LONGEST_HEADER < length text.now) }
    {
        if !RawHeader::is_valid(text) {
            return Err(TextFault::Bad);
        }
        Ok(RawHeader::kept(alloc, text)?)
    }

    /// Copies a text. Requires that it has at most 32,768 bytes ([`RawHeader::is_valid`]); it isn't
    /// checked again. Returns `NoMemory` only if memory for it was refused.
    pub fn kept(alloc: Global, text: &[u8]) -> Result<RawHeader, NoMemory>
        requires { length text.now ≤ LONGEST_HEADER }
        ensures { IfOk result (λ kept. kept ≡ text.now) }
    {
        let bytes = copied(alloc, text)?;
        Ok(RawHeader { bytes })
    }

    /// The header.
    pub fn bytes(&self) -> &[u8]
        ensures same { result.now ≡ self.now }
        ensures legal { length self.now ≤ LONGEST_HEADER }
    {
        self.bytes.as_slice()
    }
}
