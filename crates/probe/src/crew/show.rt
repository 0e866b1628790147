//! The result of a run, on standard output.
use crate::crew::outbox::Outbox;
use dsn_crew::{Account, AgentLine, CrewFault};
use dsn_device::Plain;
use std::io;
use std::io::Write;

/// Shows a run that ended well.
pub(crate) fn show_account(
    rt: &impl Print,
    account: Account<Plain<Outbox<'_>>>,
    answered: u64,
) -> Option<()> {
    println!(rt; "ok\nanswered {answered}").ok()?;
    show_agents(rt, &account.agents)?;
    let (letters, unsent, whole) = (account.letters, account.unsent.len(), account.whole);
    println!(rt; "letters {letters} unsent {unsent} whole {whole}").ok()?;
    show_outbox(rt, account.outbox)
}

/// Shows what each agent did.
fn show_agents(rt: &impl Print, agents: &[AgentLine]) -> Option<()> {
    for line in agents {
        let (requests, connections, faults) = (line.requests, line.connections, line.faults);
        println!(rt; "requests {requests} connections {connections} faults {faults}").ok()?;
    }
    Some(())
}

/// Shows a run that ended with a fault.
pub(crate) fn show_fault(
    rt: &impl Print,
    fault: CrewFault<Plain<Outbox<'_>>>,
    answered: u64,
) -> Option<()> {
    let (code, unsent) = (fault.cause.code(), fault.unsent.len());
    println!(rt; "fault {code}\nanswered {answered}\nunsent {unsent}").ok()?;
    show_outbox(rt, fault.outbox)
}

/// Shows the outbox, with its lines ended as on the wire.
fn show_outbox(rt: &impl Print, outbox: Plain<Outbox<'_>>) -> Option<()> {
    io::writer(rt).write_all(&outbox.into_inner().text).ok()
}
