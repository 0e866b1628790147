//! The extension fields of a message, as a draft holds them.
//! Implements RFC 3464 section 2.4.
ghost use Rattle.std.specs.Prelude.{◌≡◌, [], IsTrue, IfOk};
ghost use Rattle.dsn_text.specs.Extension.{is_extension_text};

use dsn_text::NoMemory;
use std::alloc::Global;
use std::marker::Model;

/// Extension fields (RFC 3464 section 2.4): at most 8 lines, each ended by LF alone. A line is a
/// name that begins with `X-`, a colon, a space and a value. An empty text means no field.
///
/// The fields of the message and those of its recipients are separate, since the same name may mean
/// different things in the two groups. Postfix writes `X-Postfix-Queue-ID` and `X-Postfix-Sender`
/// for the message.
#[derive(Drop)]
pub(crate) struct ExtensionFields {
    bytes: Vec<u8>,
}

impl Model for ExtensionFields {
    ghost use Rattle.std.specs.Prelude.{ℕ, List, IsTrue};
    ghost use Rattle.dsn_text.specs.Extension.{is_extension_text};

    ghost Value = { List ℕ };

    ghost view = { λ f. f.bytes.items };

    ghost invariant = { λ f. IsTrue (is_extension_text f.bytes.items) };
}

impl ExtensionFields {
    /// No extension fields. It takes no memory.
    #[tactic(auto, unfolding(dsn_text::specs::Extension::are_extension_lines))]
    pub(crate) fn none(alloc: Global) -> ExtensionFields
        ensures { result ≡ [] }
    {
        ExtensionFields {
            bytes: Vec::new(alloc),
        }
    }

    /// Copies the text. Requires that it is valid extension fields; it isn't checked again. Returns
    /// `NoMemory` only if memory for it was refused.
    pub(crate) fn kept(alloc: Global, text: &[u8]) -> Result<ExtensionFields, NoMemory>
        requires { IsTrue (is_extension_text text.now) }
        ensures { IfOk result (λ kept. kept ≡ text.now) }
    {
        let bytes = text.to_vec(alloc).map_err(|_| NoMemory)?;
        Ok(ExtensionFields { bytes })
    }

    /// The text.
    pub(crate) fn bytes(&self) -> &[u8]
        ensures same { result.now ≡ self.now }
        ensures legal { IsTrue (is_extension_text self.now) }
    {
        self.bytes.as_slice()
    }
}
