//! Why a command wasn't started.
use clap::error::ErrorKind;
use dsn_report::TemplateFault;
use dsn_text::NoMemory;
use std::alloc::{AllocError, Global};
use std::io;

/// Why a command wasn't started.
#[derive(Drop)]
pub(crate) enum StartError {
    /// What the command line's parser has to say: what is wrong, the help, or the version.
    CommandLine(clap::Error),
    /// An argument is wrong: which one, and what is allowed.
    Wrong(String),
    /// An argument is not UTF-8.
    NotText,
    /// The memory to begin was refused.
    NoMemory,
    /// A standard stream is closed, and its descriptor could not be taken.
    NoStream(io::Error),
}

impl StartError {
    /// That an argument has to be something else than this word.
    pub(crate) fn wrong(alloc: Global, argument: &str, allowed: &str, word: &str) -> StartError {
        match format!(in alloc; "{argument} must be {allowed}, not '{word}'") {
            Ok(line) => StartError::Wrong(line),
            Err(_) => StartError::NoMemory,
        }
    }

    /// That something is wrong for this reason.
    pub(crate) fn reason(alloc: Global, reason: &str) -> StartError {
        match format!(in alloc; "{reason}") {
            Ok(line) => StartError::Wrong(line),
            Err(_) => StartError::NoMemory,
        }
    }

    /// That a file can't be read.
    pub(crate) fn at_file(alloc: Global, path: &str, error: &io::Error) -> StartError {
        match format!(in alloc; "{path}: {error}") {
            Ok(line) => StartError::Wrong(line),
            Err(_) => StartError::NoMemory,
        }
    }

    /// That a file isn't a template.
    pub(crate) fn at_template(alloc: Global, path: &str, fault: TemplateFault) -> StartError {
        match format!(in alloc; "{path}: {fault}") {
            Ok(line) => StartError::Wrong(line),
            Err(_) => StartError::NoMemory,
        }
    }

    /// That a line of a file is wrong for this reason.
    pub(crate) fn at_line(alloc: Global, path: &str, line: usize, reason: &str) -> StartError {
        match format!(in alloc; "{path}:{line}: {reason}") {
            Ok(line) => StartError::Wrong(line),
            Err(_) => StartError::NoMemory,
        }
    }
}

impl From<AllocError> for StartError {
    fn from(_error: AllocError) -> StartError {
        StartError::NoMemory
    }
}

impl From<NoMemory> for StartError {
    fn from(_error: NoMemory) -> StartError {
        StartError::NoMemory
    }
}

impl From<clap::Error> for StartError {
    fn from(error: clap::Error) -> StartError {
        if error.kind() == ErrorKind::OutOfMemory {
            return StartError::NoMemory;
        }
        StartError::CommandLine(error)
    }
}
