//! Diagnostics and reasons.
//! Implements noticed-protocol(5).
ghost use Rattle.std.specs.Prelude.{◌≡◌, ◌↔◌, ◌<◌, ◌≤◌, length, IsTrue, IfOk, IsOk, IsErr, IsErrOf};
ghost use Rattle.dsn_text.specs.Text.{IsClean, clean_byte, clean_text};

use crate::text::{Alphabet, TextFault, copied};
use std::alloc::Global;
use std::marker::Model;

/// The length limit of a diagnostic or a reason, in bytes (this project's profile).
pub const LONGEST_CLEAN: usize = 800;

/// A cleaned diagnostic or reason: at most 800 bytes of printable ASCII, including the space. It
/// may be empty.
#[derive(Debug, Drop)]
pub struct Clean {
    bytes: Vec<u8>,
}

impl Model for Clean {
    ghost use Rattle.std.specs.Prelude.{ℕ, List};
    ghost use Rattle.dsn_text.specs.Text.{IsClean};

    ghost Value = { List ℕ };

    ghost view = { λ a. a.bytes.items };

    ghost invariant = { λ a. IsClean a.bytes.items };
}

impl Clean {
    /// Whether a text has at most 800 bytes. It takes no memory.
    pub fn is_valid(text: &[u8]) -> bool
        ensures { IsTrue result ↔ (length text.now ≤ LONGEST_CLEAN) }
    {
        text.len() <= LONGEST_CLEAN
    }

    /// Copies a text with `?` in place of each byte that isn't printable, a tab included. Returns
    /// `Bad` if the text has over 800 bytes, and `NoMemory` only if memory for it was refused.
    pub fn new(alloc: Global, text: &[u8]) -> Result<Clean, TextFault>
        ensures kept { IfOk result (λ kept. kept ≡ clean_text text.now) }
        ensures legal { IsOk result → length text.now ≤ LONGEST_CLEAN }
        ensures bad { IsErrOf result TextFault.Bad ↔ (LONGEST_CLEAN < length text.now) }
    {
        if !Clean::is_valid(text) {
            return Err(TextFault::Bad);
        }
        let bytes = cleaned(alloc, text)?;
        Ok(Clean { bytes })
    }

    /// The cleaned text.
    pub fn bytes(&self) -> &[u8]
        ensures same { result.now ≡ self.now }
        ensures legal { IsClean self.now }
    {
        self.bytes.as_slice()
    }
}

/// The byte, or `?` if it isn't printable.
///
/// Remote systems send such bytes, and the outcome matters more than they do. So a byte is replaced
/// instead of the text refused.
fn printable(byte: u8) -> u8
    ensures { result ≡ clean_byte byte }
{
    if Alphabet::Printable.allows(byte) {
        byte
    } else {
        b'?'
    }
}

/// Writes `?` over each byte that isn't printable, a tab included. This is [`Clean::new`] in place.
/// It takes no memory.
pub fn replace_unprintable(text: &mut [u8])
    ensures { text.new ≡ clean_text text.old }
{
    for byte in text.iter_mut() {
        *byte = printable(*byte);
    }
}

/// A cleaned copy of the text. Returns `NoMemory` if memory for it was refused.
fn cleaned(alloc: Global, text: &[u8]) -> Result<Vec<u8>, TextFault>
    ensures kept { IfOk result (λ copy. copy.items ≡ clean_text text.now) }
    ensures fault { IsErr result → IsErrOf result TextFault.NoMemory }
{
    let mut bytes = copied(alloc, text)?;
    replace_unprintable(&mut bytes);
    Ok(bytes)
}
