//! The values of `serve`, of its command line and its configuration file. The command line wins.
use crate::arguments::{
    Destination, MOST_AGENTS, MOST_IDLE, MOST_USE, ServeArguments, ServeOptions, number_in, owned,
    site_of,
};
use crate::config_file::ConfigFile;
use crate::hand_in_command::{GIVE_UP, HandInTerms, MOST_GIVE_UP};
use crate::journal_files::{MAX_JOURNAL, MOST_MAX_JOURNAL};
use crate::postfix_values::server_of;
use crate::start_error::StartError;
use clap::ArgMatches;
use dsn_book::{Limits, MOST_ENTRIES, MOST_LOGS};
use noticed_lib::{Serving, WatchOptions};
use std::alloc::Global;

/// Where the values of `serve` come from.
#[derive(Drop)]
struct ServeValues<'g, 'w> {
    alloc: Global,
    given: &'g ArgMatches<'w>,
    file: Option<ConfigFile>,
}

/// A value, and the line of the configuration file that has it, if the command line doesn't.
#[derive(Clone, Copy)]
struct ServeValue<'a> {
    text: &'a str,
    line: Option<usize>,
}

/// What `serve` is given. A wrong value of the configuration file is named with its line.
pub(crate) fn serve_arguments(
    rt: &HostRuntime,
    given: &ArgMatches<'_>,
) -> Result<ServeArguments, StartError> {
    let file = match given.get_str("config") {
        Some(path) => Some(ConfigFile::read(rt, path)?),
        None => None,
    };
    let values = ServeValues {
        alloc: rt.alloc(),
        given,
        file,
    };
    values.arguments()
}

impl ServeValues<'_, '_> {
    /// All values.
    fn arguments(&self) -> Result<ServeArguments, StartError> {
        let (socket, host) = (self.required("SOCKET")?, self.required("HOST")?);
        let agents = self.number("AGENTS", MOST_AGENTS)?;
        Ok(ServeArguments {
            serving: Serving {
                agents,
                max_use: self.number("MAX-USE", MOST_USE)?,
                site: self.placed(host, site_of(self.alloc, host.text))?,
                limits: self.limits()?,
                releases: self.flag("release-closed")?,
            },
            socket: owned(self.alloc, socket.text)?,
            host: owned(self.alloc, host.text)?,
            options: self.options(agents)?,
        })
    }

    /// The values of the options.
    fn options(&self, agents: u32) -> Result<ServeOptions, StartError> {
        Ok(ServeOptions {
            destination: self.destination()?,
            max_journal: self
                .number_if("max-journal", MOST_MAX_JOURNAL)?
                .unwrap_or(MAX_JOURNAL),
            watch: WatchOptions {
                idle_limit: self.number_if("idle", MOST_IDLE)?,
                ends_on_fault: self.flag("end-on-fault")?,
                logs: self.flag("log")?,
                agents,
                inherits: self.flag("inherited")?,
            },
        })
    }

    /// Where the notices go, and the folder of the journal.
    fn destination(&self) -> Result<Destination, StartError> {
        let (journal, path) = (self.text("journal")?, self.text("outbox")?);
        let give_up = self.number_if("give-up", MOST_GIVE_UP)?;
        match (self.value("hand-in"), journal) {
            (None, _) if give_up.is_some() => {
                self.refused("--give-up requires a mail server: --hand-in HAND-IN")
            }
            // A mark in a journal says that a notice is on the disk, and standard output isn't synced.
            (None, Some(_)) if path.is_none() => self.refused(
                "a journal requires an outbox or a mail server: --outbox PATH or --hand-in HAND-IN",
            ),
            (None, journal) => Ok(Destination::Outbox { path, journal }),
            (Some(_), _) if path.is_some() => {
                self.refused("--hand-in takes the place of --outbox")
            }
            // What waits for the server is nowhere else.
            (Some(_), None) => self.refused("--hand-in requires a journal: --journal FOLDER"),
            (Some(hand_in), Some(journal)) => Ok(Destination::Server {
                terms: HandInTerms {
                    server: self.placed(hand_in, server_of(self.alloc, hand_in.text))?,
                    give_up: give_up.unwrap_or(GIVE_UP),
                },
                journal,
            }),
        }
    }

    /// The error for this reason.
    fn refused<T>(&self, reason: &str) -> Result<T, StartError> {
        Err(StartError::reason(self.alloc, reason))
    }

    /// The value of an option or an argument, if there is one.
    fn value(&self, name: &str) -> Option<ServeValue<'_>> {
        if let Some(text) = self.given.get_str(name) {
            return Some(ServeValue { text, line: None });
        }
        let setting = self.file.as_ref()?.setting(key_of(name))?;
        Some(ServeValue {
            text: setting.value.as_str(),
            line: Some(setting.line),
        })
    }

    /// The value of an argument, which has to be there.
    fn required(&self, name: &str) -> Result<ServeValue<'_>, StartError> {
        if let Some(value) = self.value(name) {
            return Ok(value);
        }
        let path = match &self.file {
            Some(file) => file.path(),
            // The parser of the command line requires it.
            None => "",
        };
        match format!(in self.alloc; "{path}: {} is not set", key_of(name)) {
            Ok(reason) => Err(StartError::Wrong(reason)),
            Err(_) => Err(StartError::NoMemory),
        }
    }

    /// The text of an option, if it is set.
    fn text(&self, name: &str) -> Result<Option<String>, StartError> {
        match self.value(name) {
            Some(value) => Ok(Some(owned(self.alloc, value.text)?)),
            None => Ok(None),
        }
    }

    /// The number that an argument says, from 1 to `most`.
    fn number(&self, name: &str, most: u32) -> Result<u32, StartError> {
        let value = self.required(name)?;
        self.placed(value, number_in(self.alloc, name, value.text, most))
    }

    /// The number that an option says, from 1 to `most`, if it is set.
    fn number_if(&self, name: &str, most: u32) -> Result<Option<u32>, StartError> {
        match self.value(name) {
            Some(_) => Ok(Some(self.number(name, most)?)),
            None => Ok(None),
        }
    }

    /// The limits of the daemon's book.
    fn limits(&self) -> Result<Limits, StartError> {
        let logs = self.number_if("logs", MOST_LOGS)?;
        let entries = self.number_if("entries", MOST_ENTRIES)?;
        let program = Limits::of_program();
        let limits = Limits::new(
            logs.unwrap_or(program.logs()),
            entries.unwrap_or(program.entries()),
            program.requests(),
        );
        // Each number is within its bound.
        Ok(limits.unwrap_or(program))
    }

    /// Whether an option without a value is given. The configuration file says `yes` or `no`.
    fn flag(&self, name: &str) -> Result<bool, StartError> {
        if self.given.get_flag(name) {
            return Ok(true);
        }
        let Some(file) = &self.file else {
            return Ok(false);
        };
        let Some(setting) = file.setting(name) else {
            return Ok(false);
        };
        match setting.value.as_str() {
            "yes" => Ok(true),
            "no" => Ok(false),
            word => {
                let value = ServeValue {
                    text: word,
                    line: Some(setting.line),
                };
                self.placed(
                    value,
                    Err(StartError::wrong(self.alloc, name, "yes or no", word)),
                )
            }
        }
    }

    /// What was read from a value. If it was wrong, the error begins with the value's line.
    fn placed<T>(
        &self,
        value: ServeValue<'_>,
        read: Result<T, StartError>,
    ) -> Result<T, StartError> {
        let (Some(file), Some(line)) = (&self.file, value.line) else {
            return read;
        };
        match read {
            Err(StartError::Wrong(reason)) => Err(StartError::at_line(
                self.alloc,
                file.path(),
                line,
                reason.as_str(),
            )),
            read => read,
        }
    }
}

/// The key of an option or an argument in a configuration file.
fn key_of<'a>(name: &'a str) -> &'a str {
    match name {
        "SOCKET" => "socket",
        "HOST" => "host",
        "AGENTS" => "agents",
        "MAX-USE" => "max-use",
        _ => name,
    }
}
