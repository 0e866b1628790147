//! The run of the daemon over a listening socket.
ghost use Rattle.std.specs.Prelude.{◌≡◌, ◌≤◌, All, length, IfErr, IfOk};
ghost use Rattle.dsn_book.specs.Release.{releasing_none};
ghost use Rattle.dsn_crew.specs.Crew.{most_ports};
ghost use Rattle.noticed_lib.specs.daemon.Journaled.{IsSocketServeOver};
ghost use Rattle.noticed_lib.specs.daemon.Serve.{IsSocketServe};
ghost use Rattle.noticed_lib.specs.daemon.Submitting.{IsSocketServeToServer};
ghost use Rattle.noticed_lib.specs.inner.Daemon.{HasNoPorts};

use crate::daemon::journal_folder::JournalFolder;
use crate::daemon::journal_start::NotStarted;
use crate::daemon::journaled_end::JournaledEnd;
use crate::daemon::no_watch::NoWatch;
use crate::daemon::run_notes::{write_fault, write_not_started};
use crate::daemon::serve_end::ServeEnd;
use crate::daemon::serve_over_journal::serve_ports_over;
use crate::daemon::serve_over_ports::serve_ports;
use crate::daemon::serve_to_server::{MailTerms, Submitted, serve_ports_to_server};
use crate::daemon::serving::Serving;
use crate::daemon::socket_port::SocketPort;
use crate::daemon::watch::Watch;
use crate::daemon::watch_gate::WatchGate;
use dsn_book::Limits;
use dsn_crew::CrewCause;
use dsn_device::{Drain, Stream};
use dsn_hand_in::SitedLetter;
use dsn_journal::Replaceable;
use dsn_outcome::Letters;
use dsn_report::Site;
use dsn_smtp::Connect;
use dsn_submission::RefusedLetters;
use std::alloc::Global;
use std::os::unix::net::UnixListener;
use std::sync::Wait;
use std::thread::Threads;
use std::time::Clock;

/// How many agents a crew has at most.
const MOST_AGENTS: u32 = 16;

/// Serves what connects to `listener` by a crew of `agents` agents, as `serve_ports` does. All of
/// them accept on the one listener, and each is done once it has served `max_use` connections; its
/// port fails if an accept fails. No closed key makes room for a new one. If there are not 1 to 16
/// agents that is noted (43) before any memory is taken; refused memory for the ports is noted as the
/// crew's is (42).
pub fn serve<R: Threads + Wait + Clock + Sync, W: Drain + Drop + Send, N: Drain>(
    rt: &R,
    alloc: Global,
    listener: &UnixListener,
    site: Site,
    limits: Limits,
    agents: u32,
    max_use: u32,
    outbox: W,
    notes: &mut N,
) -> ServeEnd<W>
    ensures { IsSocketServe W.Drain N.Drain ⊥ site (releasing_none limits) agents max_use outbox
        notes.old notes.new result }
{
    let watch = NoWatch;
    let serving = Serving {
        site,
        agents,
        max_use,
        limits,
        releases: false,
    };
    serve_watched(rt, alloc, listener, &watch, serving, outbox, notes)
}

/// Serves under a watch: each agent is done also once the watch finds that the run is to end. Closed
/// keys make room for new ones if `serving` has it so. Else it is as [`serve`].
pub fn serve_watched<
    R: Threads + Wait + Clock + Sync,
    H: Watch + Sync,
    W: Drain + Drop + Send,
    N: Drain,
>(
    rt: &R,
    alloc: Global,
    listener: &UnixListener,
    watch: &H,
    serving: Serving,
    outbox: W,
    notes: &mut N,
) -> ServeEnd<W>
    ensures { IsSocketServe W.Drain N.Drain (H.may_end watch.now) serving.site
        (record { limits = serving.limits; releases = serving.releases }) serving.agents
        serving.max_use outbox notes.old notes.new result }
{
    let Serving {
        site,
        agents,
        max_use,
        limits,
        releases,
    } = serving;
    match socket_ports(alloc, listener, watch, agents, max_use) {
        Ok(ports) => {
            let gate = WatchGate { watch };
            serve_ports(
                rt, alloc, site, limits, releases, ports, outbox, &gate, watch, notes,
            )
        }
        Err(cause) => write_fault(alloc, cause.code(), outbox, Letters::new(), notes),
    }
}

/// Serves as [`serve_watched`] does, over the disks of a journal's folder, as `serve_ports_over` has
/// it. If there are not 1 to 16 agents that is noted (43) before a disk is touched.
pub fn serve_journaled<
    R: Threads + Wait + Clock + Sync,
    H: Watch + Sync,
    W: Drain + Drop + Send,
    D: Replaceable + Drop,
    M: Replaceable + Drop + Send,
    N: Drain,
>(
    rt: &R,
    alloc: Global,
    listener: &UnixListener,
    watch: &H,
    serving: Serving,
    outbox: W,
    folder: JournalFolder<D, M>,
    notes: &mut N,
) -> JournaledEnd<W, D, M>
    ensures { IsSocketServeOver D.Disk M.Disk W.Drain N.Drain (H.may_end watch.now) serving.site
        (record { limits = serving.limits; releases = serving.releases }) serving.agents
        serving.max_use folder.journal folder.marks outbox notes.old notes.new result.end result.journal
        result.marks }
{
    let Serving {
        site,
        agents,
        max_use,
        limits,
        releases,
    } = serving;
    match socket_ports(alloc, listener, watch, agents, max_use) {
        Ok(ports) => {
            let gate = WatchGate { watch };
            serve_ports_over(
                rt, alloc, site, limits, releases, ports, outbox, folder, &gate, watch, notes,
            )
        }
        Err(cause) => {
            let not = NotStarted {
                code: cause.code(),
                outbox,
                journal: folder.journal,
                marks: folder.marks,
            };
            write_not_started(alloc, not, notes)
        }
    }
}

/// Serves as [`serve_journaled`] does, but submits the letters to a mail server, as
/// `serve_ports_to_server` has it. Returns what is left of a run that began; otherwise the terms and
/// both disks, and nothing was submitted.
pub fn serve_submitting<
    's,
    R: Threads + Wait + Clock + Sync,
    H: Watch + Sync,
    S: Stream + Drop + Send,
    C: Connect<S> + Drop + Send,
    K: RefusedLetters + Drop + Send,
    D: Replaceable + Drop,
    M: Replaceable + Drop + Send,
    N: Drain,
>(
    rt: &R,
    alloc: Global,
    listener: &UnixListener,
    watch: &H,
    serving: &'s Serving,
    terms: MailTerms<C, K>,
    folder: JournalFolder<D, M>,
    notes: &mut N,
) -> Result<Submitted<'s, S, C, K, D, M>, JournaledEnd<MailTerms<C, K>, D, M>>
    ensures { IsSocketServeToServer D.Disk M.Disk S.Source S.Drain C.gives K.keeps N.Drain
        (H.may_end watch.now) serving.now folder.journal folder.marks terms notes.old notes.new
        result }
{
    match socket_ports(alloc, listener, watch, serving.agents, serving.max_use) {
        Ok(ports) => {
            let gate = WatchGate { watch };
            serve_ports_to_server(
                rt,
                alloc,
                &serving.site,
                serving.limits,
                serving.releases,
                ports,
                terms,
                folder,
                &gate,
                watch,
                notes,
            )
        }
        Err(cause) => {
            let not = NotStarted {
                code: cause.code(),
                outbox: terms,
                journal: folder.journal,
                marks: folder.marks,
            };
            Err(write_not_started(alloc, not, notes))
        }
    }
}

/// A port over one listener for each of these agents. Returns `PortCount` if they are not 1 to 16,
/// before any memory is taken, and `Refused` if memory is refused.
fn socket_ports<'a, H>(
    alloc: Global,
    listener: &'a UnixListener,
    watch: &'a H,
    agents: u32,
    max_use: u32,
) -> Result<Vec<SocketPort<'a, H>>, CrewCause>
    ensures crew { IfOk result (λ _. (1 ≤ agents) × (agents ≤ most_ports)) }
    ensures none { IfErr result (HasNoPorts agents) }
    ensures count { IfOk result (λ ports. length ports.items ≡ agents) }
    ensures uses { IfOk result (λ ports. All
        (λ port. (port.left ≡ max_use) × (port.watch.now ≡ watch.now)) ports.items) }
{
    if agents == 0 || agents > MOST_AGENTS {
        return Err(CrewCause::PortCount);
    }
    let Ok(mut ports) = Vec::with_capacity(alloc, agents as usize) else {
        return Err(CrewCause::Refused);
    };
    for _ in 0..agents {
        ports.push_reserved(SocketPort {
            listener,
            watch,
            left: max_use,
            is_busy: false,
        });
    }
    Ok(ports)
}
