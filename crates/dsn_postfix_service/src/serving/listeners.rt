//! The sockets at which Postfix's programs connect.
//! Implements docs/postfix-internals.md, "Files".
use crate::serving::account::{check_owner, own_account, owner_of_sockets};
use crate::serving::folder_lock::FolderLock;
use crate::serving::start_fault::StartFault;
use dsn_postfix_queue::{PostfixSetup, check_queues, socket_name};
use dsn_text::Service;
use os::FromRawFd;
use std::fs::Permissions;
use std::io::{Error, ErrorKind};
use std::os::unix::fs::PermissionsExt;
use std::os::unix::net::{UnixListener, UnixStream};
use std::path::Path;
use std::{fs, io};

/// The mode of a socket: the folder `private` decides who can connect.
const FOR_ALL: u32 = 0o666;

/// The sockets at which Postfix's programs connect, one for each service, in the folder of
/// Postfix's own sockets. That folder is locked as long as they exist.
#[derive(Drop)]
pub struct Listeners {
    bounce: UnixListener,
    defer: UnixListener,
    trace: UnixListener,
    _lock: FolderLock,
}

impl Listeners {
    /// Locks the folder and makes its sockets, in place of those that an earlier run left. Makes
    /// nothing and returns an error if the folder belongs to another account, or if the queues
    /// aren't hashed as `place` says. Returns an error of the kind `WouldBlock` if another process
    /// has the lock.
    pub fn make(rt: &HostRuntime, place: &PostfixSetup<'_>) -> Result<Listeners, StartFault> {
        check_place(rt, place)?;
        let folder = place.queues.root;
        let lock = FolderLock::take(rt, folder)?;
        Ok(Listeners {
            bounce: made(rt, folder, Service::Bounce)?,
            defer: made(rt, folder, Service::Defer)?,
            trace: made(rt, folder, Service::Trace)?,
            _lock: lock,
        })
    }

    /// Takes the sockets at which the starter of the process listens, and which it keeps after the
    /// process ends: descriptors 3 to 5, as in sd_listen_fds(3). Then locks the folder. Errors are
    /// those of [`Listeners::make`], and `InvalidInput` if a socket is not at its path.
    ///
    /// # Safety
    ///
    /// Nothing else in the process may have these descriptors.
    pub unsafe fn inherit(
        rt: &HostRuntime,
        place: &PostfixSetup<'_>,
    ) -> Result<Listeners, StartFault> {
        check_place(rt, place)?;
        let folder = place.queues.root;
        // An option, and not the environment: another service's `LISTEN_FDS` would be taken for
        // this one's.
        let bounce = UnixListener::from_raw_fd(3);
        let defer = UnixListener::from_raw_fd(4);
        let trace = UnixListener::from_raw_fd(5);
        Ok(Listeners {
            bounce: at_its_path(rt, folder, bounce, Service::Bounce)?,
            defer: at_its_path(rt, folder, defer, Service::Defer)?,
            trace: at_its_path(rt, folder, trace, Service::Trace)?,
            _lock: FolderLock::take(rt, folder)?,
        })
    }

    /// The socket of a service.
    pub(super) fn of(&self, service: Service) -> &UnixListener {
        match service {
            Service::Bounce => &self.bounce,
            Service::Defer => &self.defer,
            Service::Trace => &self.trace,
        }
    }
}

/// Checks the account of the process, and that the queues are hashed as `place` says.
fn check_place(rt: &HostRuntime, place: &PostfixSetup<'_>) -> Result<(), StartFault> {
    check_owner(owner_of_sockets(rt, place.queues.root)?, own_account())?;
    check_queues(rt, &place.queues)?;
    Ok(())
}

/// Listens at the socket of a service, in place of one that an earlier run left.
fn made(rt: &HostRuntime, folder: &str, service: Service) -> io::Result<UnixListener> {
    let path = socket_path(rt, folder, service)?;
    match fs::remove_file(rt, path.as_str()) {
        Err(error) if error.kind() != ErrorKind::NotFound => return Err(error),
        _ => {}
    }
    let listener = UnixListener::bind(rt, path.as_str())?;
    fs::set_permissions(rt, path.as_str(), Permissions::from_mode(FOR_ALL))?;
    Ok(listener)
}

/// A socket, which must be at the path of this service in this folder. So no socket of another
/// service or of another Postfix is taken for it. Returns `InvalidInput` otherwise.
fn at_its_path(
    rt: &HostRuntime,
    folder: &str,
    listener: UnixListener,
    service: Service,
) -> io::Result<UnixListener> {
    let wanted = socket_path(rt, folder, service)?;
    let address = listener.local_addr()?;
    match address.as_pathname() {
        Some(path) if path == Path::new(wanted.as_str()) => Ok(listener),
        _ => Err(Error::from(ErrorKind::InvalidInput)),
    }
}

/// The path of a service's socket.
fn socket_path(rt: &HostRuntime, folder: &str, service: Service) -> io::Result<String> {
    let name = socket_name(service);
    Ok(format!(in rt.alloc(); "{folder}/private/{name}")?)
}

/// Connects to each of the sockets, so that a thread that waits for a client there wakes up.
pub(super) fn wake(rt: &HostRuntime, folder: &str) {
    for service in [Service::Bounce, Service::Defer, Service::Trace] {
        if let Ok(path) = socket_path(rt, folder, service) {
            let _ = UnixStream::connect(rt, path.as_str());
        }
    }
}
