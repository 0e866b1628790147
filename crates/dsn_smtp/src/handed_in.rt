//! What a submission leaves.
use crate::hand_in_fault::HandInFault;
use crate::session::Session;
use dsn_device::Stream;

/// What the submission of a notice leaves: the session, unless it ended, and why the notice wasn't
/// accepted, if it wasn't.
#[derive(Drop)]
pub struct HandedIn<S: Stream> {
    pub session: Option<Session<S>>,
    pub fault: Option<HandInFault>,
}
