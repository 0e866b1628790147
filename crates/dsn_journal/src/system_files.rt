//! The system's calls behind [`FileCalls`]. No contract says what a file does, so this is read.
use crate::file_calls::FileCalls;
use std::fs::File;
use std::io::{Error, ErrorKind};
use std::os::unix::fs::{FileExt, MetadataExt, OpenOptionsExt};
use std::path::Path;
use std::{fs, io};

/// The files of the system.
#[derive(Drop)]
pub struct SystemFiles<'a> {
    rt: &'a HostRuntime,
    file: Option<File>,
    /// The file before, whose lock is kept until a rename.
    earlier: Option<File>,
}

impl<'a> SystemFiles<'a> {
    /// Returns the calls without a file.
    pub fn new(rt: &'a HostRuntime) -> SystemFiles<'a> {
        SystemFiles {
            rt,
            file: None,
            earlier: None,
        }
    }

    fn file(&self) -> io::Result<&File> {
        match &self.file {
            Some(file) => Ok(file),
            None => Err(Error::from(ErrorKind::NotFound)),
        }
    }
}

impl<'a> FileCalls for SystemFiles<'a> {
    ghost use Rattle.std.specs.Prelude.{None};

    ghost deeds = { λ _. None };

    fn open(&mut self, path: &str) -> io::Result<()> {
        self.file = Some(File::options().read(true).write(true).open(self.rt, path)?);
        Ok(())
    }

    fn make(&mut self, path: &str, mode: u32) -> io::Result<()> {
        let mut options = File::options();
        options.read(true).write(true).create_new(true).mode(mode);
        let file = options.open(self.rt, path)?;
        self.earlier = self.file.replace(file);
        Ok(())
    }

    fn lock(&mut self) -> io::Result<()> {
        Ok(self.file()?.try_lock()?)
    }

    fn check_name(&mut self, path: &str) -> io::Result<()> {
        let (one, other) = (self.file()?.metadata()?, fs::metadata(self.rt, path)?);
        if one.dev() == other.dev() && one.ino() == other.ino() {
            Ok(())
        } else {
            Err(Error::from(ErrorKind::WouldBlock))
        }
    }

    fn measure(&mut self) -> io::Result<u64> {
        Ok(self.file()?.metadata()?.len())
    }

    fn read(&mut self, buffer: &mut [u8]) -> io::Result<()> {
        self.file()?.read_exact_at(buffer, 0)
    }

    fn write(&mut self, at: u64, bytes: &[u8]) -> io::Result<()> {
        self.file()?.write_all_at(bytes, at)
    }

    fn sync_all(&mut self) -> io::Result<()> {
        self.file()?.sync_all()
    }

    fn sync_data(&mut self) -> io::Result<()> {
        self.file()?.sync_data()
    }

    fn rename(&mut self, from: &str, to: &str) -> io::Result<()> {
        fs::rename(self.rt, from, to)?;
        self.earlier = None;
        Ok(())
    }

    fn link(&mut self, from: &str, to: &str) -> io::Result<()> {
        fs::hard_link(self.rt, from, to)
    }

    fn remove(&mut self, path: &str) -> io::Result<()> {
        match fs::remove_file(self.rt, path) {
            Err(error) if error.kind() != ErrorKind::NotFound => Err(error),
            _ => Ok(()),
        }
    }

    fn sync_folder(&mut self, path: &str) -> io::Result<()> {
        sync_folder(self.rt, path)
    }
}

/// Syncs the folder of a file, so that the file's name survives a crash.
pub fn sync_folder(rt: &HostRuntime, path: &str) -> io::Result<()> {
    let folder = match Path::new(path).parent() {
        Some(folder) => folder.as_os_str(),
        None => "",
    };
    let folder = if folder.is_empty() { "." } else { folder };
    File::open(rt, folder)?.sync_all()
}
