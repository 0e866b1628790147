//! Short texts that take no memory.
ghost use Rattle.std.specs.Prelude.{◌≡◌, ◌+◌, ◌≤◌, [], ◌++◌, length, decimal};
ghost use Rattle.dsn_text.specs.Text.{most_digits};

use itoa::Buffer;
use std::marker::Model;

/// The length limit of a short text, in bytes.
pub const SHORT_ROOM: usize = 64;

/// A text of at most 64 bytes, stored in place: a name, a boundary or a line of notes.
#[derive(Drop)]
pub struct ShortText {
    buffer: [u8; SHORT_ROOM],
    len: usize,
}

impl Model for ShortText {
    ghost use Rattle.std.specs.Prelude.{ℕ, List, ◌≤◌, take};
    ghost use Rattle.dsn_text.specs.declared.short_text.TheConstants.{SHORT_ROOM};

    ghost Value = { List ℕ };

    ghost view = { λ t. take t.len t.buffer };

    ghost invariant = { λ t. t.len ≤ SHORT_ROOM };
}

impl ShortText {
    /// The empty text.
    pub fn new() -> Self
        ensures { result ≡ [] }
    {
        ShortText {
            buffer: [0; SHORT_ROOM],
            len: 0,
        }
    }

    /// Appends a text. Requires that the result has at most 64 bytes.
    pub fn push(&mut self, text: &[u8])
        requires { length self.old + length text.now ≤ SHORT_ROOM }
        ensures { self.new ≡ self.old ++ text.now }
    {
        let past = self.len + text.len();
        self.buffer[self.len..past].copy_from_slice(text);
        self.len = past;
    }

    /// Appends a number in decimal, which takes at most 20 bytes. Requires that there is room for
    /// 20 bytes. Most counts have one digit, which is written directly.
    #[tactic(auto, using(std::proofs::lemmas::Fmt::decimal_digit))]
    pub fn push_number(&mut self, number: u64)
        requires { length self.old + most_digits ≤ SHORT_ROOM }
        ensures added { self.new ≡ self.old ++ decimal number }
        ensures short { length self.new ≤ length self.old + most_digits }
    {
        if number < 10 {
            self.push(&[b'0' + number as u8]);
        } else {
            // `itoa` writes in place, and its contract has the text. So a line of notes takes no
            // memory.
            self.push(Buffer::new().format(number).as_bytes());
        }
    }

    /// The text.
    pub fn bytes(&self) -> &[u8]
        ensures same { result.now ≡ self.now }
        ensures short { length self.now ≤ SHORT_ROOM }
    {
        &self.buffer[..self.len]
    }
}

impl Default for ShortText {
    ghost is_default = { λ text. text ≡ [] };

    fn default() -> Self {
        ShortText::new()
    }
}
