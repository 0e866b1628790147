//! Envelope addresses.
//! Implements RFC 5321 section 4.1.2 and noticed-protocol(5).
ghost use Rattle.std.specs.Prelude.{◌≡◌, ◌↔◌, IsTrue, IfOk, IsOk, IsErrOf};
ghost use Rattle.dsn_text.specs.Text.{IsAddress};

use crate::no_memory::NoMemory;
use crate::text::{Alphabet, TextFault, copied, has_long_form};
use std::alloc::Global;
use std::marker::Model;

/// The length limit of an address, in bytes (this project's profile). RFC 5321 section 4.5.3.1.3
/// has 256 with the angle brackets.
pub const LONGEST_ADDRESS: usize = 256;

/// An envelope address without its angle brackets: 1 to 256 bytes of printable ASCII without the
/// space, `<` and `>`. It needs no `@`, since local recipients have none.
#[derive(Debug, Drop)]
pub struct Address {
    bytes: Vec<u8>,
}

impl Model for Address {
    ghost use Rattle.std.specs.Prelude.{ℕ, List};
    ghost use Rattle.dsn_text.specs.Text.{IsAddress};

    ghost Value = { List ℕ };

    ghost view = { λ a. a.bytes.items };

    ghost invariant = { λ a. IsAddress a.bytes.items };
}

impl Address {
    /// Whether a text is a valid address. It takes no memory.
    pub fn is_valid(text: &[u8]) -> bool
        ensures { IsTrue result ↔ IsAddress text.now }
    {
        has_long_form(text, 1, LONGEST_ADDRESS, Alphabet::AddressBytes)
    }

    /// Copies a text. Returns `Bad` if it isn't a valid address, and `NoMemory` only if memory for
    /// it was refused.
    pub fn new(alloc: Global, text: &[u8]) -> Result<Address, TextFault>
        ensures kept { IfOk result (λ kept. kept ≡ text.now) }
        ensures legal { IsOk result → IsAddress text.now }
        ensures bad { IsErrOf result TextFault.Bad ↔ ¬ IsAddress text.now }
    {
        if !Address::is_valid(text) {
            return Err(TextFault::Bad);
        }
        Ok(Address::kept(alloc, text)?)
    }

    /// Copies a text. Requires that it is a valid address ([`Address::is_valid`]); it isn't checked
    /// again. Returns `NoMemory` only if memory for it was refused.
    pub fn kept(alloc: Global, text: &[u8]) -> Result<Address, NoMemory>
        requires { IsAddress text.now }
        ensures { IfOk result (λ kept. kept ≡ text.now) }
    {
        let bytes = copied(alloc, text)?;
        Ok(Address { bytes })
    }

    /// The address.
    pub fn bytes(&self) -> &[u8]
        ensures same { result.now ≡ self.now }
        ensures legal { IsAddress self.now }
    {
        self.bytes.as_slice()
    }
}
