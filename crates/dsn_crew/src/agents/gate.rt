//! What a crew calls if an agent has no thread, and a session round each of its requests.

/// What a session calls before it asks each request, and after the answer has come: a place where
/// the order of several agents' requests can be seen or held. Nothing is proved of it.
pub trait Gate {
    /// Called at once if the thread of an agent can't be started: the others serve without it.
    fn start_refused(&self) {}

    /// Called before a request is asked, with its agent, and with the number that it has if it is
    /// sent; also if the agent's requests are used up.
    fn before_ask(&self, agent: u32, number: u32);

    /// Called once a request is answered, before the answer is written. It isn't called if the
    /// request was refused or lost.
    fn after_answer(&self, agent: u32, number: u32);
}

/// A gate that does nothing.
#[derive(Clone, Copy, Debug)]
pub struct NoGate;

impl Gate for NoGate {
    fn before_ask(&self, _agent: u32, _number: u32) {}

    fn after_answer(&self, _agent: u32, _number: u32) {}
}
