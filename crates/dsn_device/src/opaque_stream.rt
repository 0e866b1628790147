//! Readers and writers whose bytes no contract exposes.
ghost use Rattle.std.specs.Prelude.{◌≡◌, None, refl};

use std::io::{Read, Write};
use std::os::unix::net::UnixStream;

/// A std reader and writer whose bytes no contract exposes, such as a socket.
pub trait OpaqueStream: Read + Write {
    ghost untold_input: { (s : Self) → Self.remaining s ≡ None };

    ghost untold_output: { (s : Self) → Self.contents s ≡ None };
}

impl OpaqueStream for UnixStream {
    ghost untold_input = { λ _. refl };

    ghost untold_output = { λ _. refl };
}
