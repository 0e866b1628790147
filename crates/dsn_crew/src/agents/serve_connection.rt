//! An agent's session over one connection.
ghost use Rattle.std.specs.Prelude.{◌≡◌, ◌≢◌, ℕ, List};
ghost use Rattle.dsn_outcome.specs.Body.{body_of};
ghost use Rattle.dsn_outcome.specs.Request.{Bye};
ghost use Rattle.dsn_frame.specs.bodies.Request.{Encodes};
ghost use Rattle.dsn_frame.specs.bodies.Spoken.{answer_bytes, told_to};
ghost use Rattle.dsn_crew.specs.agents.Agent.{IsAgent};
ghost use Rattle.dsn_crew.specs.agents.Serve.{IsServed};
ghost use Rattle.dsn_crew.specs.inner.Agent.{IsTurn, asked_turn};

use crate::agents::agent::Agent;
use crate::agents::ask_fault::AskFault;
use crate::agents::gate::Gate;
use dsn_device::{Stream, send};
use dsn_frame::{
    FrameBuffer, FrameFault, Responder, ServeFault, Served, Spoken, Turn, encode_answer,
    next_request, run_session,
};
use dsn_outcome::{Answer, Body, ShortText};
use dsn_text::fault_code;
use std::alloc::Global;
use std::sync::Wait;

impl Agent {
    /// Serves one connection. Reads its frames, asks the collector what each valid body asks, and
    /// answers each frame before it reads the next one. The answer to a frame of version 3 has the
    /// serial of the notice that the request made, if it made one. Never flushes the stream.
    ///
    /// Takes memory for what a frame asks, and for one buffer that is kept until the connection's
    /// end. The buffer grows only for a frame that is longer than any before it on the connection.
    ///
    /// A refused body is answered with the number of its fault, and a body beyond the agent's
    /// requests with 44. The session goes on after both. It ends with the first of these faults:
    ///
    /// - `Frame` (9, 11 to 14) if no frame can be read;
    /// - `Frames` (47) if there are more frames than the agent may make requests;
    /// - `Number` (46) once a body whose number is out of turn is answered;
    /// - `Lost` (41) if the collector is gone, with no answer to that frame;
    /// - `WriteBack` (35) if an answer could not be written.
    ///
    /// After any of them except `Lost` the agent can serve the next connection, unless it had lost
    /// a lane before.
    pub fn serve<S: Stream, G: Gate>(
        &mut self,
        rt: &impl Wait,
        alloc: Global,
        stream: &mut S,
        gate: &G,
    ) -> Result<Served, ServeFault>
        ensures served { IsServed S.Source S.Drain self.old self.new stream.old stream.new result }
        ensures kept { IsAgent self.new }
    {
        let limit = self.limit;
        run_session(
            alloc,
            limit,
            &mut AgentSession {
                alloc,
                rt,
                agent: self,
                stream,
                gate,
            },
        )
    }

    /// The answer to the frame at this place of the connection; `None` if the collector is gone.
    fn answer<G: Gate>(
        &mut self,
        rt: &impl Wait,
        alloc: Global,
        gate: &G,
        place: u32,
        bytes: &[u8],
    ) -> Option<Turn>
        ensures turn { IsTurn self.old self.new place bytes.now result }
        ensures kept { IsAgent self.new }
    {
        // Opens the agent's model: the proof needs what it keeps.
        let _ = &self.halves;
        match next_request(alloc, place, bytes) {
            Ok(body) => self.ask_at(rt, gate, body),
            Err(refusal) => Some(Turn {
                answer: Spoken::Refused(refusal.code()),
                over: refusal.ends(),
            }),
        }
    }

    /// Asks a body, between the calls of the gate.
    fn ask_at<G: Gate>(&mut self, rt: &impl Wait, gate: &G, body: Body) -> Option<Turn>
        requires stays { body_of body ≢ Bye }
        ensures turn { (place : ℕ) (bytes : List ℕ) → Encodes bytes place (body_of body)
            → IsTurn self.old self.new place bytes result }
        ensures kept { IsAgent self.new }
    {
        gate.before_ask(self.halves.agent(), self.halves.requests.count());
        let asked = self.ask(rt, body);
        if let Ok(answer) = &asked {
            gate.after_answer(answer.agent, answer.number);
        }
        turn_of(asked)
    }
}

/// An agent that serves a connection.
#[derive(Drop)]
struct AgentSession<'a, 'b, 'c, S, G, E> {
    alloc: Global,
    rt: &'a E,
    agent: &'b mut Agent,
    stream: &'c mut S,
    gate: &'a G,
}

impl<'a, 'b, 'c, S: Stream, G: Gate, E: Wait> Responder for AgentSession<'a, 'b, 'c, S, G, E> {
    ghost use Rattle.std.specs.Prelude.{◌≡◌, length};
    ghost use Rattle.dsn_frame.specs.ServeFault.{is_lost, is_stream_failed, is_unwritten};
    ghost use Rattle.dsn_frame.specs.Session.{Connection};
    ghost use Rattle.dsn_crew.specs.agents.Agent.{IsAgent};
    ghost use Rattle.dsn_crew.specs.inner.Agent.{HasAnswered};

    ghost medium = { Connection };

    ghost remaining = { λ s. S.remaining s.stream.now };

    ghost limit = { λ s. s.agent.now.limit };

    ghost accepted = { λ s. length s.agent.now.halves.requests.sent };

    ghost ready = { λ s _. IsAgent s.agent.now };

    ghost after = { λ start now frames bodies answers fault.
        (now.agent.ghost_name ≡ start.agent.ghost_name)
        × (now.stream.ghost_name ≡ start.stream.ghost_name) × IsAgent now.agent.now
        × HasAnswered S.Source S.Drain start.agent.now now.agent.now start.stream.now
        now.stream.now frames bodies answers (is_lost fault) (is_unwritten fault)
        (is_stream_failed fault) };

    fn next(&mut self, buffer: &mut FrameBuffer) -> Result<(), FrameFault> {
        buffer.read_next(self.stream)
    }

    fn turn(&mut self, place: u32, bytes: &[u8]) -> Result<(), ServeFault> {
        let Some(turn) = self
            .agent
            .answer(self.rt, self.alloc, self.gate, place, bytes)
        else {
            return Err(ServeFault::Lost);
        };
        // One write and no flush: a socket passes a write on, and who owns a buffered stream flushes
        // it.
        let sent = send(self.stream, frame_told(place, bytes, turn.answer).bytes());
        turn.after(sent.is_ok())
    }

    ghost beyond = { λ _ _ _ _ _ left. left };
}

/// What a frame is answered whose body was asked; none where the collector is gone.
fn turn_of(asked: Result<Answer, AskFault>) -> Option<Turn>
    ensures { result ≡ asked_turn asked }
{
    let answer = match asked {
        Ok(answer) => Spoken::Reply(answer.replied()),
        Err(AskFault::Limit(_)) => Spoken::Refused(fault_code::USED_UP),
        Err(AskFault::Lost(_)) => return None,
    };
    Some(Turn {
        answer,
        over: false,
    })
}

/// The frame that answers the frame with this body at this place. It has no serial unless that
/// frame is of version 3.
fn frame_told(place: u32, bytes: &[u8], answer: Spoken) -> ShortText
    ensures { result ≡ answer_bytes place (told_to bytes.now answer) }
{
    encode_answer(place, &answer.told_to(bytes))
}
