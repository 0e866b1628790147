//! The arguments of `postfix`.
//! main.cf isn't read: its values may name one another and come from tables, and only Postfix's own
//! library reads it as Postfix does. The few that count are options with Postfix's defaults.
use crate::arguments::{LONGEST_PATH, number_of, owned, site_of, text_of};
use crate::postfix_serving::PostfixServing;
use crate::start_error::StartError;
use crate::template_files::templates_in;
use clap::ArgMatches;
use dsn_postfix::QueueName;
use dsn_postfix_notices::{PostmasterCopies, ServiceSettings};
use dsn_postfix_queue::{FolderHashing, MOST_DEPTH, QueueFolder};
use dsn_report::Site;
use dsn_smtp::ServerAddress;
use dsn_text::{MtaName, TextFault};
use std::alloc::Global;
use std::net::SocketAddr;

/// The longest time for which a delivery is tried, in seconds: a hundred days, as Postfix has it.
const MOST_LIFETIME: u32 = 8_640_000;

/// The largest `bounce_size_limit` of Postfix, in bytes.
const MOST_SIZE_LIMIT: u32 = 2_147_483_647;

/// What HAND-IN may be.
const HAND_IN: &str = "an IP address or localhost with a port, or a path of at most 107 bytes";

/// The values of the options of `postfix`.
#[derive(Drop)]
pub(crate) struct PostfixValues {
    /// For how many seconds a delivery is tried.
    pub(crate) lifetime: u32,
    /// How many bytes a message has at most if it is returned whole.
    pub(crate) size_limit: u32,
    /// The notices of which the postmaster gets a copy.
    copies: PostmasterCopies,
    /// Whether a notice refers to the Message-ID of its message.
    threaded: bool,
    /// The sender of notices about notices.
    pub(crate) double_bounce: String,
    /// The names of the hashed queues, with commas, spaces or tabs between them.
    hashed: String,
    /// By how many levels of folders they are hashed.
    pub(crate) depth: u32,
}

impl PostfixValues {
    /// The names of the hashed queues.
    pub(crate) fn hashed_queues(&self, alloc: Global) -> Result<Vec<QueueName<'_>>, StartError> {
        let mut names = Vec::new(alloc);
        for word in self.hashed.as_str().split([',', ' ', '\t']) {
            if !word.is_empty() {
                let Some(name) = QueueName::new(word.as_bytes()) else {
                    let allowed = "names of queues";
                    return Err(StartError::wrong(alloc, "hash-queue-names", allowed, word));
                };
                names.push(name).map_err(|_| StartError::NoMemory)?;
            }
        }
        Ok(names)
    }

    /// The queue folder at this path, whose hashed queues have these names.
    pub(crate) fn queue_folder<'a>(
        &self,
        root: &'a str,
        hashed: &'a [QueueName<'a>],
    ) -> QueueFolder<'a> {
        QueueFolder {
            root,
            hashing: FolderHashing {
                queues: hashed,
                depth: self.depth,
            },
        }
    }

    /// The settings that notices depend on, which come from this site.
    pub(crate) fn settings<'a>(&'a self, site: &'a Site) -> ServiceSettings<'a> {
        ServiceSettings {
            site,
            double_bounce: self.double_bounce.as_bytes(),
            lifetime: self.lifetime,
            size_limit: self.size_limit,
            copies: self.copies,
            threaded: self.threaded,
        }
    }
}

/// What `postfix` is given.
pub(crate) fn postfix_serving(
    rt: &HostRuntime,
    given: &ArgMatches<'_>,
) -> Result<PostfixServing, StartError> {
    let alloc = rt.alloc();
    let host = text_of(given, "HOST");
    Ok(PostfixServing {
        site: site_with_templates(rt, given, host)?,
        client: client_of(alloc, host)?,
        hand_in: server_of(alloc, text_of(given, "HAND-IN"))?,
        values: values_of(alloc, given, host)?,
        folder: owned(alloc, text_of(given, "QUEUE-FOLDER"))?,
        inherits: given.get_flag("inherited"),
    })
}

/// The site that the host names, with the templates of the folder that is given, if one is.
pub(crate) fn site_with_templates(
    rt: &HostRuntime,
    given: &ArgMatches<'_>,
    host: &str,
) -> Result<Site, StartError> {
    let site = site_of(rt.alloc(), host)?;
    match given.get_str("templates") {
        Some(folder) => Ok(site.with_templates(templates_in(rt, folder)?)),
        None => Ok(site),
    }
}

/// The values of the options.
pub(crate) fn values_of(
    alloc: Global,
    given: &ArgMatches<'_>,
    host: &str,
) -> Result<PostfixValues, StartError> {
    Ok(PostfixValues {
        lifetime: number_of(alloc, given, "lifetime", MOST_LIFETIME)?,
        size_limit: number_of(alloc, given, "bounce-size-limit", MOST_SIZE_LIMIT)?,
        copies: copies_of(alloc, given)?,
        threaded: given.get_flag("threaded"),
        double_bounce: double_bounce_of(alloc, given, host)?,
        hashed: owned(alloc, text_of(given, "hash-queue-names"))?,
        depth: number_of(alloc, given, "hash-queue-depth", MOST_DEPTH)?,
    })
}

/// The notices of which the postmaster gets a copy: their requests are passed on.
fn copies_of(alloc: Global, given: &ArgMatches<'_>) -> Result<PostmasterCopies, StartError> {
    let mut copies = PostmasterCopies {
        bounce: false,
        double_bounce: false,
        delay: false,
    };
    for word in text_of(given, "pass-on").split([',', ' ', '\t']) {
        match word {
            "" => {}
            "bounce" => copies.bounce = true,
            "2bounce" => copies.double_bounce = true,
            "delay" => copies.delay = true,
            _ => {
                let allowed = "bounce, 2bounce and delay";
                return Err(StartError::wrong(alloc, "pass-on", allowed, word));
            }
        }
    }
    Ok(copies)
}

/// The sender of notices about notices.
fn double_bounce_of(
    alloc: Global,
    given: &ArgMatches<'_>,
    host: &str,
) -> Result<String, StartError> {
    match given.get_str("double-bounce") {
        Some(address) => owned(alloc, address),
        None => Ok(format!(in alloc; "double-bounce@{host}")?),
    }
}

/// The mail server that a word names: the path of a Unix socket, which begins with `/`, or an
/// address and a port. A server listens at none with the number 0. It is no name: a name would be
/// looked up for each notice, and a notice would wait for that.
pub(crate) fn server_of(alloc: Global, word: &str) -> Result<ServerAddress, StartError> {
    if word.starts_with('/') && word.len() <= LONGEST_PATH {
        return Ok(ServerAddress::Unix(owned(alloc, word)?));
    }
    // The name of this machine, which needs no resolver (RFC 6761 section 6.3).
    let loopback = match word.strip_prefix("localhost:") {
        Some(port) => format!(in alloc; "127.0.0.1:{port}")?,
        None => owned(alloc, word)?,
    };
    match loopback.parse::<SocketAddr>() {
        Ok(address) if address.port() > 0 => Ok(ServerAddress::Tcp(address)),
        _ => Err(StartError::wrong(alloc, "HAND-IN", HAND_IN, word)),
    }
}

/// The name that a host has for a mail server.
fn client_of(alloc: Global, host: &str) -> Result<MtaName, StartError> {
    match MtaName::new(alloc, host.as_bytes()) {
        Ok(name) => Ok(name),
        Err(TextFault::NoMemory) => Err(StartError::NoMemory),
        Err(_) => Err(StartError::wrong(alloc, "HOST", "the name of a host", host)),
    }
}
