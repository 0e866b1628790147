//! Envelope ids.
//! Implements RFC 3461 section 4.4 and noticed-protocol(5).
ghost use Rattle.std.specs.Prelude.{◌≡◌, ◌↔◌, IsTrue, IfOk, IsOk, IsErrOf};
ghost use Rattle.dsn_text.specs.Text.{IsEnvelopeId};

use crate::no_memory::NoMemory;
use crate::text::{Alphabet, TextFault, copied, has_form};
use std::alloc::Global;
use std::marker::Model;

/// The length limit of an envelope id, in bytes (RFC 3461 section 4.4).
pub const LONGEST_ENVELOPE_ID: usize = 100;

/// The sender's envelope id, decoded (RFC 3464 section 2.2.1): 1 to 100 bytes of printable ASCII,
/// including the space.
#[derive(Debug, Drop)]
pub struct EnvelopeId {
    bytes: Vec<u8>,
}

impl Model for EnvelopeId {
    ghost use Rattle.std.specs.Prelude.{ℕ, List};
    ghost use Rattle.dsn_text.specs.Text.{IsEnvelopeId};

    ghost Value = { List ℕ };

    ghost view = { λ a. a.bytes.items };

    ghost invariant = { λ a. IsEnvelopeId a.bytes.items };
}

impl EnvelopeId {
    /// Whether a text is a valid envelope id. It takes no memory.
    pub fn is_valid(text: &[u8]) -> bool
        ensures { IsTrue result ↔ IsEnvelopeId text.now }
    {
        has_form(text, 1, LONGEST_ENVELOPE_ID, Alphabet::Printable)
    }

    /// Copies a text. Returns `Bad` if it isn't a valid envelope id, and `NoMemory` only if memory
    /// for it was refused.
    pub fn new(alloc: Global, text: &[u8]) -> Result<EnvelopeId, TextFault>
        ensures kept { IfOk result (λ kept. kept ≡ text.now) }
        ensures legal { IsOk result → IsEnvelopeId text.now }
        ensures bad { IsErrOf result TextFault.Bad ↔ ¬ IsEnvelopeId text.now }
    {
        if !EnvelopeId::is_valid(text) {
            return Err(TextFault::Bad);
        }
        Ok(EnvelopeId::kept(alloc, text)?)
    }

    /// Copies a text. Requires that it is a valid envelope id ([`EnvelopeId::is_valid`]); it isn't
    /// checked again. Returns `NoMemory` only if memory for it was refused.
    pub fn kept(alloc: Global, text: &[u8]) -> Result<EnvelopeId, NoMemory>
        requires { IsEnvelopeId text.now }
        ensures { IfOk result (λ kept. kept ≡ text.now) }
    {
        let bytes = copied(alloc, text)?;
        Ok(EnvelopeId { bytes })
    }

    /// The envelope id.
    pub fn bytes(&self) -> &[u8]
        ensures same { result.now ≡ self.now }
        ensures legal { IsEnvelopeId self.now }
    {
        self.bytes.as_slice()
    }
}
