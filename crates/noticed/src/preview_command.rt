//! The command `preview`: prints the notices that `postfix` would make of a message's logs. It runs
//! the code that answers Postfix, over queues of which nothing is changed.
use crate::arguments::{owned, queue_id_of, text_of};
use crate::postfix_values::{PostfixValues, site_with_templates, values_of};
use crate::start_error::StartError;
use crate::status_socket::seconds_of_clock;
use clap::ArgMatches;
use dsn_postfix::{AttributeText, NoticeRequest, PostfixRequest, QueueName};
use dsn_postfix_files::MessageFacts;
use dsn_postfix_notices::MailSystem;
use dsn_postfix_queue::{PreviewSystem, QueueFolder};
use dsn_report::Site;
use dsn_text::{QueueId, Service, Stamp};
use std::alloc::Global;
use std::fmt::Display;
use std::io::{Eprint, Write};

/// The exit status if a message has no log, or a file can't be read.
const NOTHING: u8 = 1;

/// The queues in which a message may be that has a log.
const QUEUES: [&[u8]; 4] = [b"deferred", b"active", b"incoming", b"hold"];

/// What `preview` is given.
#[derive(Drop)]
pub(crate) struct PreviewArguments {
    folder: String,
    site: Site,
    values: PostfixValues,
    id: QueueId,
}

impl PreviewArguments {
    /// The queue folder, the host and the queue id that the arguments name, and the options' values.
    pub(crate) fn of(
        rt: &HostRuntime,
        given: &ArgMatches<'_>,
    ) -> Result<PreviewArguments, StartError> {
        let alloc = rt.alloc();
        let host = text_of(given, "HOST");
        Ok(PreviewArguments {
            folder: owned(alloc, text_of(given, "QUEUE-FOLDER"))?,
            site: site_with_templates(rt, given, host)?,
            values: values_of(alloc, given, host)?,
            id: queue_id_of(alloc, given)?,
        })
    }
}

/// Prints what `postfix` would do with the logs of a message: the notice of failure of its bounce
/// log, that of delay of its defer log, and that of delivery of its trace log. Changes nothing.
/// Returns the status.
pub(crate) fn run_preview(rt: &HostRuntime, arguments: PreviewArguments) -> Result<u8, StartError> {
    let alloc = rt.alloc();
    let hashed = arguments.values.hashed_queues(alloc)?;
    let queues = arguments
        .values
        .queue_folder(&arguments.folder, hashed.as_slice());
    let mut system = PreviewSystem::new(rt, &queues);
    let names = queue_names(alloc)?;
    match system.queue_of(names.as_slice(), arguments.id) {
        Ok(Some(queue)) => {
            preview_logs(rt, &arguments, queue, &mut system);
            print_lines(rt, system)
        }
        Ok(None) => Ok(print_nothing(rt, "no such message in the queues")),
        Err(error) => Ok(print_nothing(rt, error)),
    }
}

/// The names of the queues.
fn queue_names<'a>(alloc: Global) -> Result<Vec<QueueName<'a>>, StartError> {
    let mut names = Vec::new(alloc);
    for name in QUEUES {
        if let Some(name) = QueueName::new(name) {
            names.push(name).map_err(|_| StartError::NoMemory)?;
        }
    }
    Ok(names)
}

/// Writes down what would be done with each log of a message.
fn preview_logs(
    rt: &HostRuntime,
    arguments: &PreviewArguments,
    queue: &QueueName<'_>,
    system: &mut PreviewSystem<'_>,
) {
    let Some(now) = Stamp::new(seconds_of_clock(rt)) else {
        return;
    };
    let Ok(file) = system.read_message(rt.alloc(), queue, arguments.id) else {
        return;
    };
    let settings = arguments.values.settings(&arguments.site);
    for service in [Service::Bounce, Service::Defer, Service::Trace] {
        if !matches!(system.has_log(service, arguments.id), Ok(true)) {
            continue;
        }
        if let Some(request) = request_for(service, arguments.id, queue, &file) {
            system.preview(&settings, service, now, &request);
        }
    }
}

/// The request that Postfix makes for a log, by what the message's file says. Returns `None` if a text
/// of it has a zero byte, which no request has.
fn request_for<'a>(
    service: Service,
    id: QueueId,
    queue: &QueueName<'a>,
    file: &'a [u8],
) -> Option<PostfixRequest<'a>> {
    let facts = match MessageFacts::read(file) {
        Ok(facts) => facts,
        Err(broken) => broken.before,
    };
    let notice = NoticeRequest {
        flags: 0,
        queue_name: queue.lent(),
        queue_id: id,
        encoding: AttributeText::new(b"")?,
        names_sendopts: true,
        send_options: 0,
        sender: AttributeText::new(facts.sender.unwrap_or(b""))?,
        envelope_id: AttributeText::new(facts.envelope_id.unwrap_or(b""))?,
        returns: u32::from(facts.return_flags.unwrap_or(0)),
    };
    Some(match service {
        Service::Bounce => PostfixRequest::Flush(notice),
        Service::Defer => PostfixRequest::Warn(notice),
        Service::Trace => PostfixRequest::Trace(notice),
    })
}

/// Prints what was written down. Returns the status.
fn print_lines(rt: &HostRuntime, system: PreviewSystem<'_>) -> Result<u8, StartError> {
    let lines = system.into_lines()?;
    if lines.is_empty() {
        return Ok(print_nothing(rt, "the message has no log"));
    }
    match rt.stdout().write_all(&lines) {
        Ok(()) => Ok(0),
        Err(_) => Ok(NOTHING),
    }
}

/// Prints why there is nothing to show. Returns the status.
fn print_nothing<D: Display + Drop>(rt: &impl Eprint, why: D) -> u8 {
    let _ = eprintln!(rt; "{why}");
    NOTHING
}
