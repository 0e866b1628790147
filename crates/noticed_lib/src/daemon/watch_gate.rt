//! The gate of a run under a watch.
use crate::daemon::watch::Watch;
use dsn_crew::Gate;

/// A gate that holds no request, and whose watch hears of each thread that was refused.
#[derive(Clone, Copy)]
pub(crate) struct WatchGate<'a, H> {
    pub(crate) watch: &'a H,
}

impl<H: Watch> Gate for WatchGate<'_, H> {
    fn start_refused(&self) {
        self.watch.start_refused();
    }

    fn before_ask(&self, _agent: u32, _number: u32) {}

    fn after_answer(&self, _agent: u32, _number: u32) {}
}
