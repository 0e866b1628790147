//! The names of types: the kind of an address or of a diagnostic.
//! Implements RFC 3464 section 2.1.2 and noticed-protocol(5).
ghost use Rattle.std.specs.Prelude.{◌↔◌, IsTrue};
ghost use Rattle.dsn_text.specs.Text.{IsTypeName};

use crate::text::{Alphabet, has_form};

/// The length limit of a type name, in bytes (this project's profile).
pub const LONGEST_TYPE_NAME: usize = 32;

/// Whether a text is a valid type name (RFC 3464 sections 2.1.2 and 2.3.6): an atom (RFC 5322
/// section 3.2.3) of 1 to 32 bytes. It takes no memory.
///
/// Types are needed because a mail system has reasons that no SMTP server replied (`X-Postfix`). A
/// sender may also name a recipient by an address that isn't one of Internet mail.
#[inline(never)]
pub fn is_type_name(text: &[u8]) -> bool
    ensures { IsTrue result ↔ IsTypeName text.now }
{
    has_form(text, 1, LONGEST_TYPE_NAME, Alphabet::AtomBytes)
}
