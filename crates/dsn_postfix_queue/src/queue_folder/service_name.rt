//! The names of services and of their sockets.
ghost use Rattle.std.specs.Prelude.{◌≡◌};
ghost use Rattle.dsn_postfix_queue.specs.inner.ServicePaths.{service_name};

use dsn_text::Service;

/// The name of a service, of its folder of logs and of Postfix's own socket.
pub(super) fn service_name(service: Service) -> &'static str
    ensures { result.now ≡ service_name service }
{
    match service {
        Service::Bounce => "bounce",
        Service::Defer => "defer",
        Service::Trace => "trace",
    }
}

/// The name of the socket beside Postfix's own one.
pub fn socket_name(service: Service) -> &'static str {
    match service {
        Service::Bounce => "noticed-bounce",
        Service::Defer => "noticed-defer",
        Service::Trace => "noticed-trace",
    }
}
