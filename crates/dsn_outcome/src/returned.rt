//! Which part of the message a notice returns.
//! Implements RFC 3461 section 4.3, RFC 6152 and noticed-protocol(5).
ghost use Rattle.std.specs.Prelude.{◌≡◌};
ghost use Rattle.dsn_outcome.specs.Returned.{returned_byte, returned_of_byte};

/// What a flush's header field holds, which is what its notice returns (RFC 3461 section 4.3).
#[derive(Clone, Copy, Debug, PartialEq, Eq)]
pub enum Returned {
    /// The message's header.
    Header,
    /// The whole message. If it can't be in a 7bit mail unchanged, the notice returns its header.
    Message,
    /// The whole message, if the notice may be submitted with 8BITMIME (RFC 6152). If it can't be
    /// in an 8bit mail unchanged, the notice returns its header.
    EightBitMessage,
}

impl Returned {
    /// The meaning of a flush's byte: 0 is the header, 1 is the message, 2 is the message in an 8bit
    /// mail. Returns `None` for any other byte.
    pub fn from_byte(byte: u8) -> Option<Returned>
        ensures { result ≡ returned_of_byte byte }
    {
        match byte {
            0 => Some(Returned::Header),
            1 => Some(Returned::Message),
            2 => Some(Returned::EightBitMessage),
            _ => None,
        }
    }

    /// The byte that encodes it in a flush.
    pub fn byte(self) -> u8
        ensures { result ≡ returned_byte self }
    {
        match self {
            Returned::Header => 0,
            Returned::Message => 1,
            Returned::EightBitMessage => 2,
        }
    }
}
