//! The command `hand-in`: submits the notices of an outbox to a mail server.
ghost use Rattle.std.specs.Prelude.{◌≡◌, ◌*◌};

use crate::arguments::{number_of, owned, text_of};
use crate::done_file::DoneFile;
use crate::outbox_text::{OutboxPart, OutboxTransaction, greeting_of, part_of};
use crate::postfix_values::server_of;
use crate::refused_file::RefusedPlace;
use crate::start_error::StartError;
use clap::ArgMatches;
use dsn_smtp::{HandInFault, MailConnection, MailServer, ServerAddress};
use dsn_submission::{Handled, Marks, Submitter, Transaction, Verdict, reason_of};
use dsn_text::{Address, Clean, MtaName};
use std::alloc::Global;
use std::io::Read;
use std::time::{Duration, Instant};
use std::{io, thread};

/// The exit status of a run that couldn't have its files, or whose outbox is cut short.
const FAULT: u8 = 1;

/// The exit status if some notices were put off (sysexits.h, EX_TEMPFAIL).
const PUT_OFF: u8 = 75;

/// For how long notices that were put off are tried again, in milliseconds.
const LONGEST_WAIT: u64 = 60_000;

/// A session that isn't used for so many milliseconds is ended.
const LONGEST_IDLE: u64 = 10_000;

/// The longest time after which a notice is given up, in seconds: a hundred days.
pub(crate) const MOST_GIVE_UP: u32 = 8_640_000;

/// The longest text of a reply that is printed, in bytes.
const LONGEST_REPLY_TEXT: usize = 500;

/// After how many seconds a notice is given up, unless it is said: five days (RFC 5321 section 4.5.4.1).
pub(crate) const GIVE_UP: u32 = 432_000;

/// To which mail server notices are submitted, and for how long.
#[derive(Drop)]
pub(crate) struct HandInTerms {
    /// The mail server.
    pub(crate) server: ServerAddress,
    /// After how many seconds a notice is given up.
    pub(crate) give_up: u32,
}

impl HandInTerms {
    /// After how many milliseconds a notice is given up.
    pub(crate) fn milliseconds(&self) -> u64
        ensures { result ≡ self.now.give_up * 1000 }
    {
        u64::from(self.give_up) * 1_000
    }
}

/// What `hand-in` is given.
#[derive(Drop)]
pub(crate) struct HandInArguments {
    terms: HandInTerms,
    /// The file that keeps which notices are settled, if there is one.
    done: Option<String>,
}

impl HandInArguments {
    /// What the arguments say.
    pub(crate) fn of(alloc: Global, given: &ArgMatches<'_>) -> Result<HandInArguments, StartError> {
        let done = match given.get_str("done") {
            Some(path) => Some(owned(alloc, path)?),
            None => None,
        };
        Ok(HandInArguments {
            terms: HandInTerms {
                server: server_of(alloc, text_of(given, "HAND-IN"))?,
                give_up: number_of(alloc, given, "give-up", MOST_GIVE_UP)?,
            },
            done,
        })
    }
}

/// A submitter over sockets.
type SocketSubmitter = Submitter<Transaction, MailConnection>;

/// A run of `hand-in`.
#[derive(Drop)]
struct HandIn<'a> {
    rt: &'a HostRuntime,
    began: Instant,
    submitter: SocketSubmitter,
    server: MailServer<'a>,
    refused: RefusedPlace<'a>,
    done: DoneFile<'a>,
    /// The serial of the first notice that is submitted.
    first: u64,
    /// The recipients of the notices from the first on.
    paths: Vec<&'a [u8]>,
}

/// Submits the notices of the outbox on standard input. Returns the status.
pub(crate) fn run_hand_in(rt: &HostRuntime, arguments: HandInArguments) -> Result<u8, StartError> {
    let mut text = Vec::new(rt.alloc());
    if let Err(error) = rt.stdin().read_to_end(&mut text) {
        return Ok(print_fault(rt, "standard input", &error));
    }
    let Some((host, rest)) = greeting_of(&text) else {
        let _ = eprintln!(rt; "standard input is no outbox: it doesn't begin with EHLO");
        return Ok(FAULT);
    };
    let Ok(host) = MtaName::new(rt.alloc(), host) else {
        let _ = eprintln!(rt; "standard input is no outbox: EHLO has no name of a host");
        return Ok(FAULT);
    };
    hand_in_outbox(rt, &arguments, host, rest)
}

/// Submits the notices behind a greeting with this host. Returns the status.
fn hand_in_outbox(
    rt: &HostRuntime,
    arguments: &HandInArguments,
    host: MtaName,
    text: &[u8],
) -> Result<u8, StartError> {
    let path = arguments.done.as_deref();
    let done = match DoneFile::open(rt, path) {
        Ok(done) => done,
        Err(error) => return Ok(print_fault(rt, "the file of --done", &error)),
    };
    match refused_place(rt, path) {
        Ok(refused) => submit_outbox(rt, &arguments.terms, host, done, refused, text),
        Err(error) => Ok(print_fault(rt, "the file of refused notices", &error)),
    }
}

/// Submits the notices of a text on these terms, as the host of this name, but for those that `done`
/// has as settled. Refused ones go to `refused`. Returns the status.
pub(crate) fn submit_outbox(
    rt: &HostRuntime,
    terms: &HandInTerms,
    host: MtaName,
    done: DoneFile<'_>,
    refused: RefusedPlace<'_>,
    text: &[u8],
) -> Result<u8, StartError> {
    let first = done.letters().mark();
    let Ok(began) = Instant::now(rt) else {
        return Err(StartError::NoMemory);
    };
    let mut run = HandIn {
        rt,
        began,
        submitter: Submitter::new(rt.alloc(), host, first, terms.milliseconds()),
        server: MailServer::new(rt, &terms.server),
        refused,
        done,
        first,
        paths: Vec::new(rt.alloc()),
    };
    let is_whole = run.take_outbox(text)?;
    let status = run.submit_all()?;
    Ok(if is_whole { status } else { FAULT })
}

/// Where refused notices go: beside the file of the mark, or to standard output.
fn refused_place<'a>(rt: &'a HostRuntime, done: Option<&str>) -> io::Result<RefusedPlace<'a>> {
    match done {
        Some(path) => {
            let path = format!(in rt.alloc(); "{path}.refused")?;
            RefusedPlace::open(rt, path.as_str())
        }
        None => Ok(RefusedPlace::standard(rt)),
    }
}

/// Prints an error of the system. Returns the status.
pub(crate) fn print_fault(rt: &HostRuntime, what: &str, error: &io::Error) -> u8 {
    let _ = eprintln!(rt; "{what}: {error}");
    FAULT
}

impl<'a> HandIn<'a> {
    /// Takes the notices of an outbox that aren't settled. Returns whether the outbox is whole.
    fn take_outbox(&mut self, text: &'a [u8]) -> Result<bool, StartError> {
        let mut rest = text;
        for serial in 0..u64::MAX {
            match part_of(rest) {
                OutboxPart::Transaction(transaction) => {
                    rest = transaction.rest;
                    if serial >= self.first && !self.take_next(&transaction)? {
                        return Ok(false);
                    }
                }
                OutboxPart::End => return Ok(true),
                OutboxPart::CutShort => {
                    let _ = eprintln!(self.rt; "the outbox is cut short");
                    return Ok(false);
                }
            }
        }
        Ok(false)
    }

    /// Takes the next notice, which may be settled. Returns whether its path is an address.
    fn take_next(&mut self, transaction: &OutboxTransaction<'a>) -> Result<bool, StartError> {
        if !self
            .done
            .has_settled(self.submitter.waiting().next_serial())
        {
            return self.take_notice(transaction.path, transaction.message);
        }
        self.paths
            .push(transaction.path)
            .map_err(|_| StartError::NoMemory)?;
        match self.submitter.push_settled() {
            Ok(()) => Ok(true),
            Err(_) => Err(StartError::NoMemory),
        }
    }

    /// Takes a notice. Returns whether its path is an address.
    fn take_notice(&mut self, path: &'a [u8], message: &[u8]) -> Result<bool, StartError> {
        let alloc = self.rt.alloc();
        let Ok(address) = Address::new(alloc, path) else {
            let _ = eprintln!(self.rt; "a path in the outbox is no address");
            return Ok(false);
        };
        let mut copy = Vec::new(alloc);
        copy.extend_from_slice(message)?;
        self.paths.push(path).map_err(|_| StartError::NoMemory)?;
        let letter = Transaction {
            path: address,
            message: copy,
        };
        let now = self.now();
        match self.submitter.push(letter, now) {
            Ok(()) => Ok(true),
            Err(_) => Err(StartError::NoMemory),
        }
    }

    /// Milliseconds since the run began.
    fn now(&self) -> u64 {
        match Instant::now(self.rt) {
            Ok(now) => u64::try_from(
                now.saturating_duration_since(self.began).as_millis(),
            ).unwrap_or(u64::MAX),
            Err(_) => 0,
        }
    }

    /// Submits all notices, and those that are put off again, for at most a minute. Returns the
    /// status.
    fn submit_all(&mut self) -> Result<u8, StartError> {
        let mut until = None;
        for _ in 0..u64::MAX {
            let now = self.now();
            match self
                .submitter
                .step(&mut self.server, &mut self.refused, &mut self.done, now)
            {
                Ok(Some(handled)) => self.print_handled(&handled),
                Ok(None) => {
                    let last = *until.get_or_insert(now.saturating_add(LONGEST_WAIT));
                    if !self.wait(now, last) {
                        break;
                    }
                }
                Err(_) => return Err(StartError::NoMemory),
            }
        }
        self.submitter.end_session();
        Ok(self.status())
    }

    /// Waits until a notice is due. Returns false if none is due until `last`, or none waits.
    fn wait(&mut self, now: u64, last: u64) -> bool {
        if self.submitter.is_stopped() {
            return false;
        }
        let Some(moment) = self.submitter.waiting().next_moment() else {
            return false;
        };
        if moment > last {
            return false;
        }
        let wait = moment.saturating_sub(now);
        if wait > LONGEST_IDLE {
            self.submitter.end_session();
        }
        thread::sleep(self.rt, Duration::from_millis(wait));
        true
    }

    /// The status at the end.
    fn status(&self) -> u8 {
        if self.submitter.is_stopped() {
            let _ = eprintln!(self.rt;
                "it can't be kept that a notice is settled, so nothing more is submitted"
            );
            return FAULT;
        }
        let settled = self.submitter.waiting().mark().saturating_sub(self.first);
        if settled < self.paths.len() as u64 {
            PUT_OFF
        } else {
            0
        }
    }

    /// Prints what became of a notice.
    fn print_handled(&mut self, handled: &Handled) {
        let words = match handled.verdict {
            Verdict::Accepted => "accepted",
            Verdict::RefusedForGood => "refused",
            Verdict::PutOff => "put off",
            Verdict::ServerAway => "not taken now",
        };
        let place = handled.serial.saturating_sub(self.first) as usize;
        let path = match self.paths.get(place) {
            Some(path) => *path,
            None => b"",
        };
        let path = self.cleaned(path);
        let number = handled.serial.saturating_add(1);
        // A reply of an earlier command says nothing of a server that didn't answer.
        let reply = match handled.fault {
            None | Some(HandInFault::Refused(_, _) | HandInFault::NotOffered) => {
                reason_of(&handled.fault, self.submitter.reply())
            }
            Some(_) => b"",
        };
        let reply = self.cleaned(reply_text(reply));
        match self.server.unconnected.take() {
            Some(error) => {
                let _ = eprintln!(self.rt; "{words} {number} {path}: {error}");
            }
            None => {
                let _ = eprintln!(self.rt; "{words} {number} {path}: {reply}");
            }
        }
    }

    /// A text with `?` in place of each byte that isn't printable.
    fn cleaned(&self, text: &[u8]) -> String {
        let clean = match Clean::new(self.rt.alloc(), text) {
            Ok(clean) => clean,
            Err(_) => return String::new(self.rt.alloc()),
        };
        match std::str::from_utf8(clean.bytes()) {
            Ok(text) => owned(self.rt.alloc(), text).unwrap_or(String::new(self.rt.alloc())),
            Err(_) => String::new(self.rt.alloc()),
        }
    }
}

/// The first line of a reply, without its CRLF, or words if there is none.
fn reply_text(reply: &[u8]) -> &[u8] {
    let line = match reply.split(|&byte| byte == b'\r').next() {
        Some(line) => line,
        None => reply,
    };
    if line.is_empty() {
        return b"no reply";
    }
    &line[..line.len().min(LONGEST_REPLY_TEXT)]
}
