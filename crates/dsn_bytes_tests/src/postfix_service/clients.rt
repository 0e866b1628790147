//! Postfix's programs as clients: the bytes sent to each, the operations done for it, and failures.
use crate::assert_same::same;
use crate::device::ALWAYS;
use crate::postfix_letter::{moment, site};
use crate::postfix_service::memory_system::{MemorySystem, UNHEARD};
use crate::postfix_service::requests::{APPEND, DELAYS, FILE, FLUSH, LOG, NO_COPIES, RECORD};
use crate::postfix_service::server::Server;
use dsn_outcome::{Plain, Stream};
use dsn_postfix::ListFault;
use dsn_postfix_notices::{DeedFault, ServiceSettings};
use dsn_postfix_service::{ClientFault, answer_client, hear_client, refuse_client};
use dsn_text::Service;
use std::alloc::AllocGlobal;
use std::cell::RefCell;
use std::process::Abort;
use std::test::Fail;
use std::time::Clock;

/// The announcement, which each client reads first.
const ANNOUNCED: &[u8] = b"protocol\0delivery_status_protocol\0\0";

/// A client, and the expected result of serving it.
struct Client {
    says: &'static [u8],
    /// The number of calls of its connection that succeed before one fails.
    calls: usize,
    /// The number of operations that succeed before one fails.
    well: usize,
    end: Result<u32, ClientFault>,
    heard: &'static [u8],
    /// The lines of the operations.
    lines: &'static [u8],
}

/// A client that appends one recipient.
const APPENDING: Client = Client {
    says: APPEND,
    calls: ALWAYS,
    well: ALWAYS,
    end: Ok(0),
    heard: b"protocol\0delivery_status_protocol\0\0status\00\0\0",
    lines: RECORD,
};

/// Clients that are answered, and clients that aren't.
const CLIENTS: [Client; 7] = [
    APPENDING,
    Client {
        well: 0,
        end: Ok(4_294_967_295),
        heard: b"protocol\0delivery_status_protocol\0\0status\04294967295\0\0",
        ..APPENDING
    },
    // a list that isn't a request is passed on
    Client {
        says: b"nrequest\077\0\0",
        end: Ok(7),
        heard: b"protocol\0delivery_status_protocol\0\0status\07\0\0",
        lines: b"pass-on B?\n",
        ..APPENDING
    },
    // nothing is done for a client that sends no list
    Client {
        says: b"",
        end: Err(ClientFault::NoList(ListFault::Nothing)),
        heard: ANNOUNCED,
        lines: b"",
        ..APPENDING
    },
    Client {
        says: b"nrequest\00\0flags\00\0queue_id\06BB87A7E6A1\0original_recipient\0\0recipient\0no@a.example\0offset\031\0dsn_or",
        end: Err(ClientFault::NoList(ListFault::CutShort)),
        heard: ANNOUNCED,
        lines: b"",
        ..APPENDING
    },
    // nothing is read if the protocol couldn't be announced
    Client {
        calls: 0,
        end: Err(ClientFault::Unannounced),
        heard: b"",
        lines: b"",
        ..APPENDING
    },
    // an operation isn't undone if its status couldn't be sent: the announcement takes a write and
    // a flush, and the append a read for each fifty bytes
    Client {
        calls: 2 + (APPEND.len() + 49) / 50,
        end: Err(ClientFault::Unsaid(0)),
        heard: ANNOUNCED,
        ..APPENDING
    },
];

/// Serves a client over a stream, with this serial for a request without a log. Returns its status,
/// or the fault.
fn served<R: AllocGlobal + Clock, S: Stream + Drop>(
    rt: &R,
    stream: S,
    first_serial: u64,
    system: &mut MemorySystem<'_>,
) -> Result<Result<u32, ClientFault>, Fail> {
    let site = site(rt.alloc())?;
    let settings = ServiceSettings {
        site: &site,
        double_bounce: b"double-bounce@mx.example.net",
        lifetime: 432_000,
        size_limit: 50_000,
        copies: NO_COPIES,
        threaded: false,
    };
    let mut client = match hear_client(rt.alloc(), stream) {
        Ok(client) => client,
        Err(fault) => return Ok(Err(fault)),
    };
    Ok(answer_client(
        rt,
        rt.alloc(),
        &settings,
        Service::Bounce,
        &mut client,
        first_serial,
        system,
    ))
}

/// The result of serving a client. The bytes sent to it are recorded.
fn end_of<R: AllocGlobal + Clock>(
    rt: &R,
    client: &Client,
    system: &mut MemorySystem<'_>,
    heard: &RefCell<Vec<u8>>,
) -> Result<Result<u32, ClientFault>, Fail> {
    let stream = Plain::new(Server {
        script: client.says,
        most: 50,
        calls: client.calls,
        heard,
    });
    served(rt, stream, 0, system)
}

/// Serving a client has the expected result.
fn expect_served(rt: &(impl AllocGlobal + Abort + Clock), client: &Client) -> Result<(), Fail> {
    let heard = RefCell::new(Vec::new(rt.alloc()));
    let mut system = MemorySystem {
        log: None,
        bounce_log: None,
        changed: None,
        file: b"",
        well: client.well,
        fault: DeedFault::Failed,
        refusal: UNHEARD,
        status: 7,
        asked: Vec::new(rt.alloc()),
        notices: Vec::new(rt.alloc()),
    };
    same(rt, end_of(rt, client, &mut system, &heard)?, client.end);
    same(rt, system.asked.as_slice(), client.lines);
    same(rt, heard.into_inner().as_slice(), client.heard);
    Ok(())
}

#[test]
fn clients_are_served(rt: HostRuntime) -> Result<(), Fail> {
    for client in &CLIENTS {
        expect_served(&rt, client)?;
    }
    Ok(())
}

/// Refuses a client. Returns the status that was sent to it.
fn refusal<R: AllocGlobal>(rt: &R, heard: &RefCell<Vec<u8>>) -> Result<u32, ClientFault> {
    let stream = Plain::new(Server {
        script: APPEND,
        most: 50,
        calls: ALWAYS,
        heard,
    });
    let mut client = hear_client(rt.alloc(), stream)?;
    refuse_client(rt.alloc(), &mut client)
}

#[test]
fn a_client_that_is_refused_hears_so(rt: HostRuntime) -> Result<(), Fail> {
    let heard = RefCell::new(Vec::new(rt.alloc()));
    same(&rt, refusal(&rt, &heard), Ok(4_294_967_295));
    same(
        &rt,
        heard.into_inner().as_slice(),
        b"protocol\0delivery_status_protocol\0\0status\04294967295\0\0",
    );
    Ok(())
}

/// The notice of a bounce log that was last changed at the moment of these tests. `serial` is that
/// of a request without a log.
fn notice_of<R: AllocGlobal + Clock>(rt: &R, log: &[u8], serial: u64) -> Result<Vec<u8>, Fail> {
    let mut system = MemorySystem {
        bounce_log: Some(log),
        log: None,
        changed: Some(moment()?),
        file: FILE,
        well: ALWAYS,
        fault: DeedFault::Failed,
        refusal: UNHEARD,
        status: 7,
        asked: Vec::new(rt.alloc()),
        notices: Vec::new(rt.alloc()),
    };
    let heard = RefCell::new(Vec::new(rt.alloc()));
    let stream = Plain::new(Server {
        script: FLUSH,
        most: 50,
        calls: ALWAYS,
        heard: &heard,
    });
    served(rt, stream, serial, &mut system)??;
    Ok(system.notices)
}

/// The Message-ID of a notice, with the CR behind it, if it has one.
fn message_id_of(notice: &[u8]) -> Option<&[u8]> {
    for line in notice.split(|byte| *byte == b'\n') {
        if let Some(id) = line.strip_prefix(b"Message-ID: ") {
            return Some(id);
        }
    }
    None
}

#[test]
fn a_notice_asked_for_again_has_the_same_bytes(rt: HostRuntime) -> Result<(), Fail> {
    let first = notice_of(&rt, LOG, 0)?;
    let again = notice_of(&rt, LOG, 7)?;
    same(&rt, again.as_slice(), first.as_slice());
    // the time and the length of each log, in bytes
    let of_log = b"<B.6BB87A7E6A1.1700000000.182000000@mx.example.net>\r";
    same(&rt, message_id_of(&first), Some(of_log.as_slice()));
    let other = notice_of(&rt, DELAYS, 0)?;
    let of_other = b"<B.6BB87A7E6A1.1700000000.98000000@mx.example.net>\r";
    same(&rt, message_id_of(&other), Some(of_other.as_slice()));
    Ok(())
}
