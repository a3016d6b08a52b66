//! Files and folders that are written.

use crate::files::{Replaced, Save};
use std::io::{self, Error, ErrorKind, Write};

/// Writes a file by `Save::save`, and returns whether it is written. If it is not, `errors` receives the reason, and what was there is
/// unchanged. If it replaced a symbolic link, `errors` receives that.
pub fn save_file<F: Save, E: Write>(
    path: &str,
    bytes: &[u8],
    files: &mut F,
    errors: &mut E,
) -> io::Result<bool> {
    let saved = files.save(path, bytes);
    let program = files.name();
    if matches!(saved, Ok(Replaced::Link)) {
        let _ = writeln!(
            errors,
            "{program}: {path}: a symbolic link was replaced; what it names is unchanged"
        );
    }
    is_done(saved.map(|_| ()), program, path, errors)
}

/// Writes into a file by `Save::overwrite`, and returns whether it is written. If it is not, `errors` receives the reason.
pub fn overwrite_file<F: Save, E: Write>(
    path: &str,
    bytes: &[u8],
    files: &mut F,
    errors: &mut E,
) -> io::Result<bool> {
    let written = files.overwrite(path, bytes);
    is_done(written, files.name(), path, errors)
}

/// Writes to `errors` how many of the files that were saved at a path or in a folder replaced another.
pub fn tell_replaced<F: Save, E: Write>(path: &str, files: &F, errors: &mut E) {
    let program = files.name();
    let _ = match files.replaced() {
        0 => Ok(()),
        1 => writeln!(errors, "{program}: {path}: 1 file was replaced"),
        count => writeln!(errors, "{program}: {path}: {count} files were replaced"),
    };
}

/// Makes a folder unless it exists, and returns whether it exists then. If it does not, `errors` receives the reason.
pub fn make_folder<F: Save, E: Write>(
    path: &str,
    files: &mut F,
    errors: &mut E,
) -> io::Result<bool> {
    let made = files.make_folder(path);
    is_done(made, files.name(), path, errors)
}

/// Whether a file or a folder is written. If it is not, `errors` receives the reason. A refused allocation stays an error.
fn is_done<E: Write>(
    written: io::Result<()>,
    program: &str,
    path: &str,
    errors: &mut E,
) -> io::Result<bool> {
    match written {
        Ok(()) => Ok(true),
        Err(error) if error.kind() == ErrorKind::OutOfMemory => Err(error),
        Err(error) => {
            let _ = writeln!(
                errors,
                "{program}: {path}: cannot be written: {error}{}",
                cure_of(&error)
            );
            Ok(false)
        }
    }
}

/// What may be done about an error.
fn cure_of(error: &Error) -> &'static str {
    match error.kind() {
        ErrorKind::NotFound => "; make the folder around it first",
        ErrorKind::NotADirectory => "; expected a folder there",
        _ => "",
    }
}
