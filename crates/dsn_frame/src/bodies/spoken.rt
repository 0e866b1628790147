//! The answer to a frame.
//! Implements noticed-protocol(5).
ghost use Rattle.std.specs.Prelude.{◌≡◌};
ghost use Rattle.dsn_frame.specs.bodies.Spoken.{says_serial, told_to};

use crate::bodies::THIRD_VERSION;
use dsn_outcome::Replied;

/// The answer to a frame.
#[derive(Clone, Copy, Debug, PartialEq, Eq)]
pub enum Spoken {
    /// The reply to the request.
    Reply(Replied),
    /// The number of the refusal: the body isn't a request, memory was refused, its number is out
    /// of turn, or no further request is accepted.
    Refused(u32),
}

impl Spoken {
    /// The answer as a frame with this body gets it: with a serial only if the frame is of version
    /// 3.
    pub fn told_to(self, bytes: &[u8]) -> Spoken
        ensures { result ≡ told_to bytes.now self }
    {
        match self {
            // A request doesn't keep its version, so the frame's first byte decides. Clients of
            // versions 1 and 2 read 14 bytes.
            Spoken::Reply(Replied { reply, .. }) if !says_serial(bytes) => {
                Spoken::Reply(Replied {
                    reply,
                    serial: None,
                })
            }
            said => said,
        }
    }
}

/// Whether the answer to a frame with this body includes a serial.
fn says_serial(bytes: &[u8]) -> bool
    ensures { result ≡ says_serial bytes.now }
{
    bytes
        .first()
        .is_some_and(|version| *version == THIRD_VERSION)
}
