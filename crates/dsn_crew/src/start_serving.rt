//! The starts and the ends of the agents' threads.
ghost use Rattle.std.specs.Prelude.{◌≡◌, ◌≤◌, [], All, length, IfSome, vec_capacity};
ghost use Rattle.std.specs.List.{AllZip};
ghost use Rattle.dsn_crew.specs.inner.StartServing.{AreStarted, IsStarted, IsJoined, missing_threads};

use crate::agents::{Agent, Gate, Port, PortEnd, serve_port};
use std::alloc::Global;
use std::snapshot::Snapshot;
use std::sync::Wait;
use std::thread::{Promise, PromisedHandle, Scope, Threads};

/// What an agent's thread was started with, and so what it promises to give back.
#[derive(Drop)]
pub(crate) struct Serves<P> {
    pub(crate) agent: Snapshot<Agent>,
    pub(crate) port: Snapshot<P>,
}

impl<P: Port> Promise<PortEnd> for Serves<P> {
    ghost use Rattle.dsn_crew.specs.inner.Agent.{IsPortServed};

    ghost kept_by = { λ p r. IsPortServed (P.conns p.port.value) (P.may_give p.port.value) p.agent.value r };
}

/// Starts the thread of one agent, as [`start_thread`] does. If none can be made the gate is
/// notified.
pub(crate) fn start_one<'s, E: 's, R: Wait + Sync, P: Port + Drop + Send + 's, G: Gate + Sync>(
    scope: &Scope<'s, E>,
    rt: &'s R,
    alloc: Global,
    agent: Agent,
    port: P,
    gate: &'s G,
) -> Option<PromisedHandle<PortEnd, Serves<P>>>
    requires asked { P.may_be_asked port }
    ensures { IfSome result (λ handle. IsStarted agent port handle.promise) }
{
    let handle = start_thread(scope, rt, alloc, agent, port, gate);
    if handle.is_none() {
        gate.start_refused();
    }
    handle
}

/// Starts the thread of one agent, which serves this port to its end. Returns `None` if no thread
/// can be made; the agent and its port are dropped.
fn start_thread<'s, E: 's, R: Wait + Sync, P: Port + Drop + Send + 's, G: Gate + Sync>(
    scope: &Scope<'s, E>,
    rt: &'s R,
    alloc: Global,
    agent: Agent,
    port: P,
    gate: &'s G,
) -> Option<PromisedHandle<PortEnd, Serves<P>>>
    requires asked { P.may_be_asked port }
    ensures { IfSome result (λ handle. IsStarted agent port handle.promise) }
{
    let promise = Serves {
        agent: Snapshot::of(&agent),
        port: Snapshot::of(&port),
    };
    scope
        .spawn_with(
            promise,
            move || -> PortEnd
                requires { P.may_be_asked port }
            { serve_port(rt, alloc, agent, port, gate) },
        )
        // The closure that comes back isn't run: an agent on the collector's own thread would wait
        // for ever.
        .ok()
}

/// Starts a thread for each agent, which serves the port in its place to its end; `None` if no thread
/// can be made.
pub(crate) fn start_all<'s, E: 's, R: Wait + Sync, P: Port + Drop + Send + 's, G: Gate + Sync>(
    scope: &Scope<'s, E>,
    rt: &'s R,
    alloc: Global,
    agents: Vec<Agent>,
    ports: Vec<P>,
    room: Vec<Option<PromisedHandle<PortEnd, Serves<P>>>>,
    gate: &'s G,
) -> Vec<Option<PromisedHandle<PortEnd, Serves<P>>>>
    requires pairs { length ports.items ≡ length agents.items }
    requires room { (room.items ≡ []) × (length agents.items ≤ vec_capacity room) }
    requires asked { All P.may_be_asked ports.items }
    ensures { AreStarted agents.items ports.items result.items }
{
    let mut handles = room;
    let mut ports = ports.into_iter();
    for agent in agents {
        let Some(port) = ports.next() else {
            unreachable!()
        };
        handles.push_reserved(start_one(scope, rt, alloc, agent, port, gate));
    }
    handles
}

/// How many of these agents' threads were not started.
pub(crate) fn count_missing<P: Port>(
    handles: &Vec<Option<PromisedHandle<PortEnd, Serves<P>>>>,
) -> usize
    ensures { result ≡ missing_threads handles.now.items }
{
    let mut missing = 0;
    for handle in handles {
        missing += usize::from(handle.is_none());
    }
    missing
}

/// Waits for an agent's thread to end, if it was started.
pub(crate) fn join_one<P: Port + Drop>(
    rt: &impl Threads,
    handle: Option<PromisedHandle<PortEnd, Serves<P>>>,
) -> Option<PortEnd>
    ensures { IsJoined P.Port handle result }
{
    match handle {
        Some(handle) => Some(handle.join(rt)),
        None => None,
    }
}

/// Waits for each of these threads to end.
pub(crate) fn join_all<P: Port + Drop>(
    rt: &impl Threads,
    handles: Vec<Option<PromisedHandle<PortEnd, Serves<P>>>>,
    room: Vec<Option<PortEnd>>,
) -> Vec<Option<PortEnd>>
    requires room { (room.items ≡ []) × (length handles.items ≤ vec_capacity room) }
    ensures { AllZip (IsJoined P.Port) handles.items result.items }
{
    let mut ends = room;
    for handle in handles {
        ends.push_reserved(join_one(rt, handle));
    }
    ends
}
