//! The three services of the daemon, which are those of Postfix's bounce(8).
//! Implements noticed-protocol(5).
ghost use Rattle.std.specs.Prelude.{◌≡◌};
ghost use Rattle.dsn_text.specs.Service.{takes};
ghost use Rattle.dsn_text.specs.Service.{service_byte, service_letter, service_of_byte};

use crate::action::Action;

/// The service that an outcome is logged for.
#[derive(Clone, Copy, Debug, PartialEq, Eq, PartialOrd, Ord, Hash)]
pub enum Service {
    /// Mail that could not be delivered.
    Bounce,
    /// Mail that is still being retried.
    Defer,
    /// Delivery reports that the sender requested.
    Trace,
}

impl Service {
    /// The service of a request's byte: 1 bounce, 2 defer, 3 trace. Returns `None` for any other
    /// byte.
    pub fn from_byte(byte: u8) -> Option<Service>
        ensures { result ≡ service_of_byte byte }
    {
        match byte {
            1 => Some(Service::Bounce),
            2 => Some(Service::Defer),
            3 => Some(Service::Trace),
            _ => None,
        }
    }

    /// The service's byte in a request.
    pub fn byte(self) -> u8
        ensures { result ≡ service_byte self }
    {
        match self {
            Service::Bounce => 1,
            Service::Defer => 2,
            Service::Trace => 3,
        }
    }

    /// The service's letter in boundaries, message identifiers and notes.
    pub fn letter(self) -> u8
        ensures { result ≡ service_letter self }
    {
        match self {
            Service::Bounce => b'B',
            Service::Defer => b'D',
            Service::Trace => b'T',
        }
    }

    /// Whether the service's log takes outcomes of this action (this project's profile).
    pub fn takes(self, action: Action) -> bool
        ensures { result ≡ takes self action }
    {
        match self {
            Service::Bounce => action == Action::Failed,
            Service::Defer => action == Action::Delayed,
            Service::Trace => true,
        }
    }
}
