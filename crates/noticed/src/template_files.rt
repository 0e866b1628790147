//! The templates that `postfix` and `preview` are given: the files of a folder.
use crate::start_error::StartError;
use dsn_report::{Template, TemplateFault, Templates};
use std::io::ErrorKind;
use std::{fs, io};

/// The templates in a folder: those of its files `failure`, `delay`, `success` and `verify`. A file
/// that isn't there is no template. Returns an error that names the path if the folder or a file
/// can't be read, or a file isn't a template.
pub(crate) fn templates_in(rt: &HostRuntime, folder: &str) -> Result<Templates, StartError> {
    // A folder that isn't there is a mistake, and not a folder without files.
    if let Err(error) = fs::metadata(rt, folder) {
        return Err(at_file(rt, folder, &error));
    }
    Ok(Templates {
        failure: template_in(rt, folder, "failure")?,
        delay: template_in(rt, folder, "delay")?,
        success: template_in(rt, folder, "success")?,
        verify: template_in(rt, folder, "verify")?,
    })
}

/// The template in the file of this name, if the folder has it.
fn template_in(rt: &HostRuntime, folder: &str, name: &str) -> Result<Option<Template>, StartError> {
    let path = format!(in rt.alloc(); "{folder}/{name}")?;
    match fs::read(rt, path.as_str()) {
        Ok(file) => Ok(Some(template_of(rt, path.as_str(), file.as_slice())?)),
        Err(error) if error.kind() == ErrorKind::NotFound => Ok(None),
        Err(error) => Err(at_file(rt, path.as_str(), &error)),
    }
}

/// The template in a file with these bytes.
fn template_of(rt: &HostRuntime, path: &str, file: &[u8]) -> Result<Template, StartError> {
    match Template::read(rt.alloc(), file) {
        Ok(template) => Ok(template),
        Err(TemplateFault::NoMemory) => Err(StartError::NoMemory),
        Err(fault) => Err(StartError::at_template(rt.alloc(), path, fault)),
    }
}

/// That a file or a folder can't be read.
fn at_file(rt: &HostRuntime, path: &str, error: &io::Error) -> StartError {
    if error.kind() == ErrorKind::OutOfMemory {
        return StartError::NoMemory;
    }
    StartError::at_file(rt.alloc(), path, error)
}
