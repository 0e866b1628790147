//! The command `resubmit`: submits the refused notices of a journal's folder again, also while its
//! daemon runs. It takes their file away, so that the daemon begins a new one, and keeps beside it
//! how many are settled: so a later run goes on after one that was killed, or that some notices were
//! put off by. Implements noticed-journal(5), "REFUSED".
use crate::arguments::{owned, site_of, text_of};
use crate::done_file::DoneFile;
use crate::hand_in_command::{GIVE_UP, HandInTerms, print_fault, submit_outbox};
use crate::journal_files::path_in;
use crate::postfix_values::server_of;
use crate::refused_file::{RefusedPlace, lock_at};
use crate::start_error::StartError;
use clap::ArgMatches;
use dsn_journal::sync_folder;
use dsn_report::Site;
use dsn_text::MtaName;
use std::alloc::Global;
use std::fs::File;
use std::io::ErrorKind;
use std::{fs, io};

/// What `resubmit` is given.
#[derive(Drop)]
pub(crate) struct ResubmitArguments {
    /// The folder of the journal.
    folder: String,
    /// The site that the host names.
    site: Site,
    terms: HandInTerms,
}

impl ResubmitArguments {
    /// What the arguments say.
    pub(crate) fn of(
        alloc: Global,
        given: &ArgMatches<'_>,
    ) -> Result<ResubmitArguments, StartError> {
        Ok(ResubmitArguments {
            folder: owned(alloc, text_of(given, "FOLDER"))?,
            site: site_of(alloc, text_of(given, "HOST"))?,
            terms: HandInTerms {
                server: server_of(alloc, text_of(given, "HAND-IN"))?,
                give_up: GIVE_UP,
            },
        })
    }
}

/// The files of notices that are submitted again.
#[derive(Drop)]
struct ResubmitFiles {
    /// What was the file of refused notices.
    taken: String,
    /// How many of them are settled.
    done: String,
    /// The file of refused notices, now another one.
    refused: String,
}

/// Submits the refused notices of the folder again. Returns the status: 0 if all are settled, and if
/// there are none.
pub(crate) fn run_resubmit(
    rt: &HostRuntime,
    arguments: ResubmitArguments,
) -> Result<u8, StartError> {
    let ResubmitArguments {
        folder,
        site,
        terms,
    } = arguments;
    let Ok(host) = MtaName::new(rt.alloc(), site.host()) else {
        return Err(StartError::NoMemory);
    };
    match resubmit(rt, &folder, host, &terms) {
        Ok(submitted) => submitted,
        Err(error) if error.kind() == ErrorKind::OutOfMemory => Err(StartError::NoMemory),
        Err(error) => Ok(print_fault(rt, &folder, &error)),
    }
}

/// Submits the refused notices of a folder again. Returns the status, or an error of the files.
fn resubmit(
    rt: &HostRuntime,
    folder: &str,
    host: MtaName,
    terms: &HandInTerms,
) -> io::Result<Result<u8, StartError>> {
    let files = ResubmitFiles::in_folder(rt, folder)?;
    fs::metadata(rt, folder)?;
    let Some(_lock) = files.take(rt)? else {
        return Ok(Ok(0));
    };
    let mut text = fs::read(rt, &files.taken)?;
    text.extend_from_slice(b"QUIT\r\n")?;
    let done = DoneFile::open(rt, Some(files.done.as_str()))?;
    let refused = RefusedPlace::open(rt, &files.refused)?;
    let submitted = submit_outbox(rt, terms, host, done, refused, &text);
    if matches!(submitted, Ok(0)) {
        fs::remove_file(rt, &files.taken)?;
        remove_if_there(rt, &files.done)?;
        sync_folder(rt, &files.taken)?;
    }
    Ok(submitted)
}

impl ResubmitFiles {
    /// The files in this folder.
    fn in_folder(rt: &HostRuntime, folder: &str) -> io::Result<ResubmitFiles> {
        Ok(ResubmitFiles {
            taken: path_in(rt, folder, "resubmit")?,
            done: path_in(rt, folder, "resubmit.done")?,
            refused: path_in(rt, folder, "refused")?,
        })
    }

    /// Takes the notices that an earlier run left, or the file of refused ones, and locks them.
    /// Returns `None` if there are none, and an error of the kind `TimedOut` if another run has them.
    fn take(&self, rt: &HostRuntime) -> io::Result<Option<File>> {
        if let Some(lock) = lock_if_there(rt, &self.taken)? {
            return Ok(Some(lock));
        }
        let Some(lock) = lock_if_there(rt, &self.refused)? else {
            return Ok(None);
        };
        if lock.metadata()?.len() == 0 {
            return Ok(None);
        }
        if fs::exists(rt, &self.taken)? {
            return Err(io::Error::from(ErrorKind::TimedOut));
        }
        // The mark of other notices must not be found beside these, also after a crash.
        remove_if_there(rt, &self.done)?;
        sync_folder(rt, &self.done)?;
        fs::rename(rt, &self.refused, &self.taken)?;
        sync_folder(rt, &self.taken)?;
        Ok(Some(lock))
    }
}

/// Locks the file at a path, if there is one.
fn lock_if_there(rt: &HostRuntime, path: &str) -> io::Result<Option<File>> {
    match lock_at(rt, path, false) {
        Ok(lock) => Ok(Some(lock)),
        Err(error) if error.kind() == ErrorKind::NotFound => Ok(None),
        Err(error) => Err(error),
    }
}

/// Removes the file at a path, if there is one.
fn remove_if_there(rt: &HostRuntime, path: &str) -> io::Result<()> {
    match fs::remove_file(rt, path) {
        Err(error) if error.kind() != ErrorKind::NotFound => Err(error),
        _ => Ok(()),
    }
}
