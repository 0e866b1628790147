//! What a mail server is given: letters, as one transaction each (RFC 5321 section 3.3).
ghost use Rattle.std.specs.Prelude.{◌≡◌, ◌++◌, OnOk};

use dsn_text::{Address, NoMemory};

/// A letter that can be submitted.
pub trait Mail {
    ghost use Rattle.std.specs.Prelude.{ℕ, List};

    // The path of its only recipient.
    ghost path_of: { Self → List ℕ };

    // The message, with leading dots doubled and with the line of one dot that ends it.
    ghost message_of: { Self → List ℕ };

    /// Its only recipient.
    fn path(&self) -> &Address
        ensures { result.now ≡ path_of self.now };

    /// Appends the message, with leading dots doubled and with the line of one dot that ends it (RFC
    /// 5321 section 4.5.2). Returns `NoMemory` only if memory was refused.
    fn write_message(&self, text: &mut Vec<u8>) -> Result<(), NoMemory>
        ensures { OnOk result (text.new.items ≡ text.old.items ++ message_of self.now) };
}

/// A letter whose message is in memory.
#[derive(Drop)]
pub struct Transaction {
    /// Its only recipient.
    pub path: Address,
    /// The message, with leading dots doubled and with the line of one dot that ends it.
    pub message: Vec<u8>,
}

impl Mail for Transaction {
    ghost path_of = { λ t. t.path };

    ghost message_of = { λ t. t.message.items };

    fn path(&self) -> &Address {
        &self.path
    }

    fn write_message(&self, text: &mut Vec<u8>) -> Result<(), NoMemory> {
        match text.extend_from_slice(&self.message) {
            Ok(()) => Ok(()),
            Err(_) => Err(NoMemory),
        }
    }
}
