//! A frame in a buffer.
ghost use Rattle.std.specs.Prelude.{◌≡◌};
ghost use Rattle.dsn_frame.specs.bodies.FrameBody.{IsFrameBody, frame};

use crate::frame::LENGTH;
use std::marker::Model;

/// A frame in a buffer, which stays there until the next one is read.
#[derive(Debug, Drop)]
pub struct FrameRef<'a> {
    /// The length, and then the body.
    pub(crate) bytes: &'a [u8],
}

impl<'a> Model for FrameRef<'a> {
    ghost use Rattle.std.specs.Prelude.{ℕ, List, drop};
    ghost use Rattle.dsn_frame.specs.inner.FrameBuffer.{IsHeld};
    ghost use Rattle.dsn_frame.specs.Frame.{length_prefix};

    ghost Value = { List ℕ };

    ghost view = { λ f. drop length_prefix f.bytes.now };

    ghost invariant = { λ f. IsHeld f.bytes.now };
}

impl<'a> FrameRef<'a> {
    /// The body, 1 to 65,536 bytes.
    pub fn body(&self) -> &'a [u8]
        ensures same { result.now ≡ self.now }
        ensures whole { IsFrameBody self.now }
    {
        &self.bytes[LENGTH..]
    }

    /// The whole frame: its length in four bytes, and the body.
    pub fn bytes(&self) -> &'a [u8]
        ensures { result.now ≡ frame self.now }
    {
        self.bytes
    }
}
