//! The kind of a message's bytes.
//! Implements RFC 6152 section 2.
ghost use Rattle.std.specs.Prelude.{◌≡◌, ◌≤◌, length};
ghost use Rattle.dsn_smtp.specs.Body.{body_kind, has_eight_bit};
ghost use Rattle.dsn_smtp.specs.CommandLine.{sender_line};

/// The kind of a message's bytes, as the parameter BODY of MAIL names it (RFC 6152 section 2).
#[derive(Clone, Copy, Debug, PartialEq, Eq)]
pub enum Body {
    /// No byte is above 127, which needs no parameter.
    SevenBit,
    /// A byte is above 127: `BODY=8BITMIME`.
    EightBit,
}

/// The lines of MAIL from the null sender (RFC 5321 section 4.1.1.2).
const SENDER_LINE: &[u8] = b"MAIL FROM:<>\r\n";

const EIGHT_BIT_SENDER_LINE: &[u8] = b"MAIL FROM:<> BODY=8BITMIME\r\n";

impl Body {
    /// The kind of a message's bytes.
    pub fn of(message: &[u8]) -> Body
        ensures { result ≡ body_kind message.now }
    {
        if has_eight_bit(message) {
            Body::EightBit
        } else {
            Body::SevenBit
        }
    }

    /// The line of MAIL from the null sender for a message of this kind, with its CRLF.
    pub fn sender_line(self) -> &'static [u8]
        ensures same { result.now ≡ sender_line self }
        ensures short { length result.now ≤ 28 }
    {
        match self {
            Body::SevenBit => SENDER_LINE,
            Body::EightBit => EIGHT_BIT_SENDER_LINE,
        }
    }
}

/// Whether a message has a byte above 127.
fn has_eight_bit(message: &[u8]) -> bool
    ensures { result ≡ has_eight_bit message.now }
{
    // It doesn't stop at the first such byte, so that several bytes are checked at once.
    let mut all = true;
    for byte in message {
        all &= byte.is_ascii();
    }
    !all
}
