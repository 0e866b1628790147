//! The fields of an outcome as a delivery agent passes them.
//! Implements noticed-protocol(5).
ghost use Rattle.std.specs.Prelude.{◌≡◌, []};

use dsn_text::Stamp;

/// The fields that a delivery agent passes for one recipient. An empty original, remote system,
/// diagnostic or reason means that it is missing.
#[derive(Clone, Copy)]
pub struct Parts<'a> {
    /// The final recipient (RFC 3464 section 2.3.2).
    pub recipient: &'a [u8],
    /// The recipient as the sender gave it (RFC 3464 section 2.3.1).
    pub original: &'a [u8],
    /// The action's byte, 1 to 5.
    pub action: u8,
    /// The status code (RFC 3464 section 2.3.4).
    pub status: &'a [u8],
    /// The remote system's name (RFC 3464 section 2.3.5).
    pub mta: &'a [u8],
    /// The response of the remote system (RFC 3464 section 2.3.6), at most 800 bytes.
    pub diagnostic: &'a [u8],
    /// The agent's own explanation for people, at most 800 bytes.
    pub reason: &'a [u8],
    /// When delivery was last tried (RFC 3464 section 2.3.7), if the agent says it.
    pub last_attempt: Option<Stamp>,
    /// Until when delivery is retried (RFC 3464 section 2.3.9), for a delayed recipient only.
    pub retry_until: Option<Stamp>,
    /// The types of the recipients and of the diagnostic.
    pub types: Types<'a>,
    /// The extension fields (RFC 3464 section 2.4): at most 8 lines, each ended by LF alone. A line
    /// is a name that begins with `X-`, a colon, a space and a value. Empty for none.
    pub extensions: &'a [u8],
}

/// The types of an outcome's typed texts, each a type name of 1 to 32 bytes. An empty one means the
/// usual type: `rfc822` for a recipient, `smtp` for a diagnostic.
#[derive(Clone, Copy)]
pub struct Types<'a> {
    /// The type of the final recipient (RFC 3464 section 2.3.2).
    pub recipient: &'a [u8],
    /// The type of the original recipient (RFC 3464 section 2.3.1, RFC 3461 section 4.2).
    pub original: &'a [u8],
    /// The type of the diagnostic (RFC 3464 section 2.3.6).
    pub diagnostic: &'a [u8],
}

impl Types<'_> {
    /// The usual types.
    pub fn usual() -> Types<'static>
        ensures recipient { result.recipient.now ≡ [] }
        ensures original { result.original.now ≡ [] }
        ensures diagnostic { result.diagnostic.now ≡ [] }
    {
        Types {
            recipient: b"",
            original: b"",
            diagnostic: b"",
        }
    }
}
