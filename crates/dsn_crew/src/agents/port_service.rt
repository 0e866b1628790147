//! An agent's service of its port, from the first connection to the goodbye.
ghost use Rattle.std.specs.Prelude.{◌≡◌, length};
ghost use Rattle.dsn_crew.specs.agents.Agent.{IsAgent};
ghost use Rattle.dsn_crew.specs.inner.Agent.{HasServedOnly, IsPortServed};
ghost use Rattle.dsn_frame.specs.ServeFault.{is_lost};
ghost use Rattle.std.specs.Result.{result_err};

use crate::agents::agent::Agent;
use crate::agents::agent_line::AgentLine;
use crate::agents::gate::Gate;
use crate::agents::next_connection::Next;
use crate::agents::port::Port;
use crate::agents::port_end::PortEnd;
use dsn_frame::{ServeFault, Served};
use std::alloc::Global;
use std::sync::Wait;

/// How many connections an agent serves at most.
const MOST_CONNECTIONS: u32 = 1_000_000;

/// Serves the connections of a port, one after another, and then says goodbye. Each stream is
/// dropped once it is served. Memory is taken only as a session takes it. Requires that the port may
/// be asked. It isn't asked again once it answered that it is done, or that it failed.
pub(crate) fn serve_port<P: Port + Drop, G: Gate>(
    rt: &impl Wait,
    alloc: Global,
    agent: Agent,
    port: P,
    gate: &G,
) -> PortEnd
    requires asked { P.may_be_asked port }
    ensures { IsPortServed (P.conns port) (P.may_give port) agent result }
{
    let mut agent = agent;
    let mut port = port;
    let line = serve_connections(rt, alloc, &mut agent, &mut port, gate);
    match agent.leave(rt) {
        Ok(finished) => PortEnd::heard(line, finished),
        Err(unheard) => PortEnd::unheard(line, unheard),
    }
}

/// Serves the connections of a port until it is done or has failed, the collector is found gone, or
/// as many connections were served as an agent serves.
#[tactic(auto, using(crate::proofs::agents::PortLemmas::serves_nothing))]
fn serve_connections<P: Port, G: Gate>(
    rt: &impl Wait,
    alloc: Global,
    agent: &mut Agent,
    port: &mut P,
    gate: &G,
) -> AgentLine
    requires asked { P.may_be_asked port.old }
    ensures served { HasServedOnly (P.conns port.old) (P.may_give port.old) (P.may_give port.new)
        agent.old agent.new result }
    ensures kept { IsAgent agent.new }
{
    let mut line = AgentLine {
        requests: agent.requests(),
        connections: 0,
        faults: 0,
        port_failed: false,
    };
    for _ in 0..MOST_CONNECTIONS {
        let mut stream = match port.next() {
            Next::Conn(stream) => stream,
            Next::Done => return line,
            Next::Failed => {
                return AgentLine {
                    port_failed: true,
                    ..line
                };
            }
        };
        let served = agent.serve(rt, alloc, &mut stream, gate);
        line = AgentLine {
            requests: agent.requests(),
            connections: line.connections + 1,
            faults: line.faults + u32::from(served.is_err()),
            port_failed: false,
        };
        if is_lost(&served) {
            return line;
        }
    }
    line
}

/// Whether a session found the collector gone.
fn is_lost(served: &Result<Served, ServeFault>) -> bool
    ensures { result ≡ is_lost (result_err served.now) }
{
    matches!(served, Err(ServeFault::Lost))
}

impl Agent {
    /// How many requests the agent has made.
    fn requests(&self) -> u32
        ensures count { result ≡ length self.now.halves.requests.sent }
        ensures kept { IsAgent self.now }
    {
        self.halves.requests.count()
    }
}
