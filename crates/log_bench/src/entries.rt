//! The logs at the paths of a command line.

use std::alloc::{AllocError, Global};
use std::io::{self, Error, ErrorKind};
use vt_cli::List;

/// A log, or a folder in which none is found.
#[derive(Drop)]
pub(crate) struct Entry {
    /// The path.
    pub path: String,
    /// Why no log is found in the folder. `None` for a log.
    pub fault: Option<String>,
}

/// The logs at paths, in the order of the paths: the logs in the folder at the path, or the path itself if it is no folder.
pub(crate) fn entries_at<F: List>(
    alloc: Global,
    paths: &[&str],
    files: &mut F,
) -> io::Result<Vec<Entry>> {
    let mut entries = Vec::new(alloc);
    for path in paths {
        match files.logs_in(path) {
            Ok(Some(logs)) => put_logs(alloc, path, logs, &mut entries)?,
            Ok(None) => entries.push(entry_of(alloc, path, None)?)?,
            Err(error) if error.kind() == ErrorKind::OutOfMemory => return Err(error),
            Err(error) => {
                let fault = format!(in alloc; "{error}{}", cure_of(&error))?;
                entries.push(entry_of(alloc, path, Some(fault))?)?;
            }
        }
    }
    Ok(entries)
}

/// Appends the logs of a folder, or that there is none.
fn put_logs(
    alloc: Global,
    folder: &str,
    logs: Vec<String>,
    entries: &mut Vec<Entry>,
) -> Result<(), AllocError> {
    if logs.is_empty() {
        let fault = String::from_str(
            alloc,
            "no log is in the folder; expected files whose names end in .log",
        )?;
        entries.push(entry_of(alloc, folder, Some(fault))?)?;
    }
    for path in logs {
        entries.push(Entry { path, fault: None })?;
    }
    Ok(())
}

fn entry_of(alloc: Global, path: &str, fault: Option<String>) -> Result<Entry, AllocError> {
    let path = String::from_str(alloc, path)?;
    Ok(Entry { path, fault })
}

/// What may be done about an error of a folder.
fn cure_of(error: &Error) -> &'static str {
    match error.kind() {
        ErrorKind::InvalidFilename => {
            "; the name of a file in the folder is not UTF-8, and the file can be renamed"
        }
        _ => "",
    }
}
