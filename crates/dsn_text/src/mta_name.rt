//! The names of remote mail systems.
//! Implements RFC 3464 section 2.3.5 and noticed-protocol(5).
ghost use Rattle.std.specs.Prelude.{◌≡◌, ◌↔◌, IsTrue, IfOk, IsOk, IsErrOf};
ghost use Rattle.dsn_text.specs.Text.{IsMtaName};

use crate::text::{Alphabet, TextFault, copied, has_form};
use std::alloc::Global;
use std::marker::Model;

/// The length limit of a mail system's name, in bytes (RFC 5321 section 4.5.3.1.2).
pub const LONGEST_MTA_NAME: usize = 255;

/// The name of a remote mail system (RFC 3464 section 2.3.5): 1 to 255 bytes of printable ASCII
/// without the space.
#[derive(Debug, Drop)]
pub struct MtaName {
    bytes: Vec<u8>,
}

impl Model for MtaName {
    ghost use Rattle.std.specs.Prelude.{ℕ, List};
    ghost use Rattle.dsn_text.specs.Text.{IsMtaName};

    ghost Value = { List ℕ };

    ghost view = { λ a. a.bytes.items };

    ghost invariant = { λ a. IsMtaName a.bytes.items };
}

impl MtaName {
    /// Whether a text is a valid name of a mail system. It takes no memory.
    pub fn is_valid(text: &[u8]) -> bool
        ensures { IsTrue result ↔ IsMtaName text.now }
    {
        has_form(text, 1, LONGEST_MTA_NAME, Alphabet::Visible)
    }

    /// Copies a text. Returns `Bad` if it isn't a valid name of a mail system, and `NoMemory` only
    /// if memory for it was refused.
    pub fn new(alloc: Global, text: &[u8]) -> Result<MtaName, TextFault>
        ensures kept { IfOk result (λ kept. kept ≡ text.now) }
        ensures legal { IsOk result → IsMtaName text.now }
        ensures bad { IsErrOf result TextFault.Bad ↔ ¬ IsMtaName text.now }
    {
        if !MtaName::is_valid(text) {
            return Err(TextFault::Bad);
        }
        let bytes = copied(alloc, text)?;
        Ok(MtaName { bytes })
    }

    /// The name.
    pub fn bytes(&self) -> &[u8]
        ensures same { result.now ≡ self.now }
        ensures legal { IsMtaName self.now }
    {
        self.bytes.as_slice()
    }
}
