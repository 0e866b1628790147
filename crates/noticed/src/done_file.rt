//! The file of the settled notices of `hand-in` and `resubmit`.
ghost use Rattle.std.specs.Prelude.{◌≡◌, OnErr, OnOk};

use dsn_journal::{SettledLetters, sync_folder};
use dsn_outcome::Broken;
use dsn_submission::Marks;
use std::fs::File;
use std::io::Write;
use std::marker::Model;
use std::{fs, io};

/// The letters that are settled, and the file that keeps them, if there is one.
#[derive(Drop)]
pub(crate) struct DoneFile<'a> {
    rt: &'a HostRuntime,
    path: Option<&'a str>,
    letters: SettledLetters,
}

impl<'a> Model for DoneFile<'a> {
    ghost use Rattle.std.specs.Prelude.{ℕ, List};

    ghost Value = { List ℕ };

    ghost view = { λ d. d.letters };
}

impl<'a> DoneFile<'a> {
    /// Reads the file: none is settled if there is no file. Returns an error if it can't be read, or
    /// isn't edges, each behind a space but the first, and a line feed.
    pub(crate) fn open(rt: &'a HostRuntime, path: Option<&'a str>) -> io::Result<DoneFile<'a>> {
        let letters = match path {
            Some(file) => letters_in(rt, file)?,
            None => SettledLetters::below(rt.alloc(), 0)?,
        };
        Ok(DoneFile { rt, path, letters })
    }

    /// The letters that are settled.
    pub(crate) fn letters(&self) -> &SettledLetters
        ensures { result.now ≡ self.now }
    {
        &self.letters
    }

    /// Replaces the file, so that a crash leaves either what it had or these letters.
    fn replace(&self, path: &str, letters: &SettledLetters) -> io::Result<()> {
        let beside = format!(in self.rt.alloc(); "{path}.new")?;
        let mut text = String::new(self.rt.alloc());
        for edge in letters.edges() {
            let before = if text.is_empty() { "" } else { " " };
            let next = format!(in self.rt.alloc(); "{before}{edge}")?;
            text.push_str(next.as_str())?;
        }
        text.push_str("\n")?;
        let mut file = File::create(self.rt, beside.as_str())?;
        file.write_all(text.as_bytes())?;
        file.sync_all()?;
        fs::rename(self.rt, beside.as_str(), path)?;
        sync_folder(self.rt, path)
    }

    /// Has these letters as settled, once the file keeps them.
    fn keep(&mut self, letters: SettledLetters) -> Result<(), Broken>
        ensures ok { OnOk result (self.new ≡ letters) }
        ensures unchanged { OnErr result (self.new ≡ self.old) }
    {
        if let Some(path) = self.path {
            if self.replace(path, &letters).is_err() {
                return Err(Broken);
            }
        }
        self.letters = letters;
        Ok(())
    }
}

/// The letters that a file has as settled: none if there is no file.
fn letters_in(rt: &HostRuntime, path: &str) -> io::Result<SettledLetters> {
    let text = match fs::read_to_string(rt, path) {
        Ok(text) => text,
        Err(error) if error.kind() == io::ErrorKind::NotFound => {
            return Ok(SettledLetters::below(rt.alloc(), 0)?);
        }
        Err(error) => return Err(error),
    };
    let Some(numbers) = text.as_str().strip_suffix("\n") else {
        return Err(io::Error::from(io::ErrorKind::InvalidData));
    };
    let mut edges = Vec::new(rt.alloc());
    for number in numbers.split(' ') {
        match number.parse::<u64>() {
            Ok(edge) => {
                if edges.push(edge).is_err() {
                    return Err(io::Error::from(io::ErrorKind::OutOfMemory));
                }
            }
            Err(_) => return Err(io::Error::from(io::ErrorKind::InvalidData)),
        }
    }
    match SettledLetters::of_edges(edges) {
        Some(letters) => Ok(letters),
        None => Err(io::Error::from(io::ErrorKind::InvalidData)),
    }
}

impl Marks for DoneFile<'_> {
    ghost use Rattle.dsn_journal.specs.SettledLetters.{is_settled};
    ghost use Rattle.dsn_journal.specs.Settling.{KeepsAlso, keeps_others};

    ghost settles = { λ old serial ok new. KeepsAlso old serial ok new };

    ghost has_settled = { λ done serial. is_settled done serial };

    ghost keeps_others = { λ old serial ok new other keeps ne. keeps_others old serial ok new other keeps ne };

    fn settle(&mut self, serial: u64) -> Result<(), Broken> {
        if serial == u64::MAX {
            return Err(Broken);
        }
        match self.letters.with_letter(self.rt.alloc(), serial) {
            Ok(letters) => self.keep(letters),
            Err(_) => Err(Broken),
        }
    }

    fn has_settled(&self, serial: u64) -> bool {
        self.letters.is_settled(serial)
    }
}
