//! The service manager that started the process, which is notified of the run's states.
//! Implements sd_notify(3): a state is one datagram.
use std::io;
use std::io::Write;
use std::os::unix::net::UnixStream;
use std::sync::atomic::{AtomicBool, AtomicU64, Ordering};
use std::time::Duration;

/// The socket of a service manager, and what it was sent.
#[derive(Drop)]
pub struct ServiceManager {
    socket: UnixStream,
    /// How often it is to hear that the run goes on, if it wants that.
    interval: Option<Duration>,
    is_ready: AtomicBool,
    /// When it is to hear it next, in milliseconds of the run.
    due: AtomicU64,
}

impl ServiceManager {
    /// The service manager at the other end of this datagram socket. It is notified at each interval
    /// that the run goes on. Returns an error if the system refuses that a send doesn't wait.
    pub fn new(socket: UnixStream, interval: Option<Duration>) -> io::Result<ServiceManager> {
        // An agent must not wait for it.
        socket.set_nonblocking(true)?;
        Ok(ServiceManager {
            socket,
            interval,
            is_ready: AtomicBool::new(false),
            due: AtomicU64::new(0),
        })
    }

    /// Reports that an agent is at work at this time of the run. The first report says that the run
    /// is ready, and later ones are sent once an interval is over.
    pub(crate) fn report_work(&self, elapsed: Duration) {
        if !self.is_ready.load(Ordering::SeqCst) && !self.is_ready.swap(true, Ordering::SeqCst) {
            self.send("READY=1");
        }
        let Some(interval) = self.interval else {
            return;
        };
        let (now, due) = (milliseconds(elapsed), self.due.load(Ordering::SeqCst));
        if now < due {
            return;
        }
        let next = now.saturating_add(milliseconds(interval));
        let won = self
            .due
            .compare_exchange(due, next, Ordering::SeqCst, Ordering::SeqCst);
        if won.is_ok() {
            self.send("WATCHDOG=1");
        }
    }

    /// Reports that the run is ending.
    pub(crate) fn report_end(&self) {
        self.send("STOPPING=1");
    }

    /// Sends a state. One that can't be sent is lost: the run doesn't depend on it.
    fn send(&self, state: &str) {
        let _ = (&self.socket).write(state.as_bytes());
    }
}

/// The milliseconds of a duration, at most 2^64-1.
fn milliseconds(duration: Duration) -> u64 {
    duration
        .as_secs()
        .saturating_mul(1_000)
        .saturating_add(u64::from(duration.subsec_millis()))
}
