//! The file of refused notices. The daemon and `hand-in` append to it, and `resubmit` takes it away
//! meanwhile: so whoever appends or takes has it locked, and opens it anew each time.
//! Implements noticed-journal(5), "REFUSED".
use crate::run_file::is_at;
use dsn_journal::sync_folder;
use dsn_outcome::Broken;
use dsn_smtp::Body;
use dsn_submission::{Mail, RefusedLetters};
use std::fs::{File, TryLockError};
use std::io::{ErrorKind, Write};
use std::os::unix::fs::{FileExt, MetadataExt, OpenOptionsExt, fchown};
use std::path::Path;
use std::rt::Stdout;
use std::time::Duration;
use std::{fs, io, thread};

/// How large the file gets, in bytes. A notice that finds no room begins a new one.
const MOST_BYTES: u64 = 67_108_864;

/// How often it is tried to lock a file, and the milliseconds between two tries. Who has the lock
/// appends one notice, or renames the file.
const TRIES: u32 = 500;

const BETWEEN_TRIES: u64 = 10;

/// The end of a notice (RFC 5321 section 4.1.1.4).
const NOTICE_END: [u8; 5] = *b"\r\n.\r\n";

/// The file of refused notices at a path.
#[derive(Drop)]
pub(crate) struct RefusedFile<'a> {
    rt: &'a HostRuntime,
    path: String,
}

impl<'a> RefusedFile<'a> {
    /// The file at this path. Makes it if it doesn't exist, for the owner of its folder alone.
    pub(crate) fn open(rt: &'a HostRuntime, path: &str) -> io::Result<RefusedFile<'a>> {
        let path = format!(in rt.alloc(); "{path}")?;
        let refused = RefusedFile { rt, path };
        refused.locked()?;
        Ok(refused)
    }

    /// Appends a notice, and syncs it. After an error the file is as long as before, if the system
    /// allows it. Another file is begun if this one has no room, or if a crash cut its last notice
    /// short: what is appended to that would be read as a part of it.
    fn append(&self, notice: &[u8]) -> io::Result<()> {
        let file = self.locked()?;
        if has_room(&file, notice.len() as u64)? {
            return append_to(&file, notice);
        }
        let aside = format!(in self.rt.alloc(); "{}.old", self.path)?;
        fs::rename(self.rt, &self.path, &aside)?;
        append_to(&self.locked()?, notice)
    }

    /// The file, locked. Makes it if it doesn't exist.
    fn locked(&self) -> io::Result<File> {
        let made = !fs::exists(self.rt, &self.path)?;
        let file = lock_at(self.rt, &self.path, true)?;
        if made {
            self.give_to_owner(&file)?;
            sync_folder(self.rt, &self.path)?;
        }
        Ok(file)
    }

    /// Gives the file to the owner of its folder. Root may resubmit, and the daemon has to append.
    fn give_to_owner(&self, file: &File) -> io::Result<()> {
        let folder = fs::metadata(self.rt, folder_of(&self.path))?;
        if file.metadata()?.uid() == folder.uid() {
            return Ok(());
        }
        fchown(file, Some(folder.uid()), Some(folder.gid()))
    }
}

/// Opens the file at a path and locks it, for the time for which it is open. If `makes` is true and
/// it doesn't exist, makes it, for its owner alone. Returns an error of the kind `NotFound` if it
/// doesn't exist otherwise, and `TimedOut` if another process has it locked for seconds.
pub(crate) fn lock_at(rt: &HostRuntime, path: &str, makes: bool) -> io::Result<File> {
    for _ in 0..TRIES {
        let file = File::options()
            .read(true)
            .append(true)
            .create(makes)
            .mode(0o600)
            .open(rt, path)?;
        match file.try_lock() {
            // Another may have renamed it just before it was locked.
            Ok(()) if is_at(rt, &file, path)? => return Ok(file),
            Ok(()) => {}
            Err(TryLockError::WouldBlock) => {
                thread::sleep(rt, Duration::from_millis(BETWEEN_TRIES));
            }
            Err(TryLockError::Error(error)) => return Err(error),
        }
    }
    Err(io::Error::from(ErrorKind::TimedOut))
}

/// The folder of the file at a path.
fn folder_of(path: &str) -> &str {
    match Path::new(path).parent() {
        Some(folder) if !folder.as_os_str().is_empty() => folder.as_os_str(),
        _ => ".",
    }
}

/// Whether so many bytes may be appended to a file.
fn has_room(file: &File, count: u64) -> io::Result<bool> {
    let size = file.metadata()?.len();
    let Some(place) = size.checked_sub(NOTICE_END.len() as u64) else {
        return Ok(size == 0);
    };
    let mut end = [0; NOTICE_END.len()];
    file.read_exact_at(&mut end, place)?;
    Ok(end == NOTICE_END && size.saturating_add(count) <= MOST_BYTES)
}

/// Appends a text to a file, and syncs it. After an error the file has its old size, if the system
/// allows it.
fn append_to(file: &File, text: &[u8]) -> io::Result<()> {
    let size = file.metadata()?.len();
    let appended = write_synced(file, text);
    if appended.is_err() {
        let _ = file.set_len(size);
    }
    appended
}

/// Writes a text to a file, and syncs it.
fn write_synced(file: &File, text: &[u8]) -> io::Result<()> {
    let mut writer = file;
    writer.write_all(text)?;
    file.sync_data()
}

/// Where refused notices are written.
#[derive(Drop)]
enum RefusedOutput<'a> {
    Standard(Stdout),
    File(RefusedFile<'a>),
}

/// Where refused notices go, with the memory for their texts.
#[derive(Drop)]
pub(crate) struct RefusedPlace<'a> {
    output: RefusedOutput<'a>,
    /// The message of the last one.
    message: Vec<u8>,
    /// All that is written of it.
    text: Vec<u8>,
}

impl<'a> RefusedPlace<'a> {
    /// Standard output.
    pub(crate) fn standard(rt: &HostRuntime) -> RefusedPlace<'a> {
        RefusedPlace {
            output: RefusedOutput::Standard(rt.stdout()),
            message: Vec::new(rt.alloc()),
            text: Vec::new(rt.alloc()),
        }
    }

    /// The file at this path. Makes it if it doesn't exist, for the owner of its folder alone.
    pub(crate) fn open(rt: &'a HostRuntime, path: &str) -> io::Result<RefusedPlace<'a>> {
        Ok(RefusedPlace {
            output: RefusedOutput::File(RefusedFile::open(rt, path)?),
            message: Vec::new(rt.alloc()),
            text: Vec::new(rt.alloc()),
        })
    }

    /// Writes the notice that is in `text`.
    fn write_notice(&mut self) -> io::Result<()> {
        match &mut self.output {
            RefusedOutput::Standard(stdout) => {
                stdout.write_all(&self.text)?;
                stdout.flush()
            }
            RefusedOutput::File(file) => file.append(&self.text),
        }
    }
}

impl RefusedLetters for RefusedPlace<'_> {
    ghost keeps = { λ _ _ _ _ _ _. Unit {0} };

    fn keep<T: Mail>(&mut self, letter: &T, reason: &[u8]) -> Result<(), Broken> {
        self.message.clear();
        self.text.clear();
        if letter.write_message(&mut self.message).is_err() {
            return Err(Broken);
        }
        let path = letter.path().bytes();
        write_refusal(&mut self.text, path, &self.message, reason).map_err(|_| Broken)?;
        self.write_notice().map_err(|_| Broken)
    }
}

/// Writes a notice as the outbox has it. The reason is before it, each line behind `NOOP`, which a
/// mail server passes over (RFC 5321 section 4.1.1.9).
fn write_refusal<W: Write>(
    out: &mut W,
    path: &[u8],
    message: &[u8],
    reason: &[u8],
) -> io::Result<()> {
    for line in reason.split(|&byte| byte == b'\n') {
        if !line.is_empty() {
            out.write_all(b"NOOP ")?;
            out.write_all(line)?;
            out.write_all(b"\n")?;
        }
    }
    out.write_all(Body::of(message).sender_line())?;
    out.write_all(b"RCPT TO:<")?;
    out.write_all(path)?;
    out.write_all(b">\r\nDATA\r\n")?;
    out.write_all(message)
}
