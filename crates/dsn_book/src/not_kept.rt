//! Why requests were not kept.
ghost use Rattle.std.specs.Prelude.{◌≡◌};
ghost use Rattle.dsn_book.specs.NotKept.{unkept_code};

use dsn_text::fault_code;

/// Why requests were not kept.
#[derive(Clone, Copy, Debug, Drop, PartialEq, Eq)]
pub enum NotKept {
    /// There was no memory for them, and nothing was written.
    Memory,
    /// There is no room for them, and nothing was written.
    Full,
    /// Keeping them failed, so it is unknown which of them are kept.
    Failed,
}

impl NotKept {
    /// The number of the fault: 45.
    pub fn code(&self) -> u32
        ensures { result ≡ unkept_code self.now }
    {
        match self {
            NotKept::Memory | NotKept::Full | NotKept::Failed => fault_code::NOT_KEPT,
        }
    }
}
