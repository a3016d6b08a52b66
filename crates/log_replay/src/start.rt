//! The terminal that replays a log, before its first line.

use log_options::{StartOptions, TerminalOptions};
use std::alloc::{AllocError, Global};
use std::io::{self, Error, ErrorKind, Write};
use vt_cli::{Open, StartSet, read_pool_file};
use vt_judge::judge;
use vt_names::{Name, TERMINAL_NAME};
use vt_server::Terminal;
use vt_verify::Accepted;

/// The highest address of a node.
const LAST_ADDRESS: u8 = 253;

/// The files of an address in a folder, at most.
const MOST_FILES: u32 = 1_000_000;

/// A pool that is there from the start, and the address of its working set.
#[derive(Drop)]
pub struct LoadedSet {
    /// The pool.
    pub pool: Accepted,
    /// The address, at most 253.
    pub owner: u8,
}

/// Reads the pools of the sets that a terminal at the address `own` has from the start. `None` if one cannot be read or is not accepted:
/// then `errors` receives the reason.
pub fn read_sets<F: Open, E: Write>(
    alloc: Global,
    options: &StartOptions<'_>,
    own: u8,
    files: &mut F,
    errors: &mut E,
) -> io::Result<Option<Vec<LoadedSet>>> {
    let mut sets = Vec::new(alloc);
    for set in options.sets.iter() {
        if !read_given(alloc, *set, &mut sets, files, errors)? {
            return Ok(None);
        }
    }
    if let Some(folder) = options.folder {
        let folder = folder.trim_end_matches('/');
        if !read_folder(alloc, folder, own, &mut sets, files, errors)? {
            return Ok(None);
        }
    }
    Ok(Some(sets))
}

/// Reads the pool of a set and appends it. Returns whether it could be read and is accepted; if not, `errors` receives the reason.
fn read_given<F: Open, E: Write>(
    alloc: Global,
    set: StartSet<'_>,
    sets: &mut Vec<LoadedSet>,
    files: &mut F,
    errors: &mut E,
) -> io::Result<bool> {
    let StartSet { pool: path, owner } = set;
    let Some(bytes) = read_pool_file(alloc, path, files, errors)? else {
        return Ok(false);
    };
    let Some(pool) = accepted(alloc, &bytes)? else {
        let _ = writeln!(
            errors,
            "{}: {path}: a terminal refuses this pool; segyolant check says why",
            files.name()
        );
        return Ok(false);
    };
    sets.push(LoadedSet { pool, owner })?;
    Ok(true)
}

/// Reads the pools in a folder: of each address `AA`, except `own` and those that have a set, the last file `AA-1.iop`, `AA-2.iop` and so
/// on that a terminal accepts. Returns whether there is one, or one of an address that has a set, and all files could be read; if not,
/// `errors` receives the reason.
fn read_folder<F: Open, E: Write>(
    alloc: Global,
    folder: &str,
    own: u8,
    sets: &mut Vec<LoadedSet>,
    files: &mut F,
    errors: &mut E,
) -> io::Result<bool> {
    let before = sets.len();
    let mut has_file = false;
    let mut has_given = false;
    for owner in 0..=LAST_ADDRESS {
        if owner == own {
            continue;
        }
        if sets.iter().any(|set| set.owner == owner) {
            has_given |= has_first(alloc, folder, owner, files)?;
            continue;
        }
        match read_last(alloc, folder, owner, sets, files, errors)? {
            Some(is_there) => has_file |= is_there,
            None => return Ok(false),
        }
    }
    let has_pool = has_given || sets.len() > before;
    if !has_pool {
        let what = if has_file {
            "a terminal refuses all pools there; segyolant check says why"
        } else {
            "no pool is there; expected files such as 80-1.iop, as segyolant_log pools --out writes them"
        };
        let _ = writeln!(errors, "{}: {folder}: {what}", files.name());
    }
    Ok(has_pool)
}

/// Reads the files of an address in a folder, and appends the set with the last pool that a terminal accepts. Returns whether there is a
/// file. `None` if one cannot be read: then `errors` receives the reason.
fn read_last<F: Open, E: Write>(
    alloc: Global,
    folder: &str,
    owner: u8,
    sets: &mut Vec<LoadedSet>,
    files: &mut F,
    errors: &mut E,
) -> io::Result<Option<bool>> {
    let mut read = 0;
    for number in 1..MOST_FILES {
        match file_of(alloc, folder, owner, number, files, errors)? {
            NumberedFile::Missing => break,
            NumberedFile::Unreadable => return Ok(None),
            NumberedFile::Bytes(bytes) => {
                if !put_last(alloc, &bytes, owner, sets)? {
                    let _ = writeln!(
                        errors,
                        "{}: {folder}/{owner:02X}-{number}.iop: left out, as a terminal refuses it by itself: it is an update, or segyolant check says why",
                        files.name()
                    );
                }
            }
        }
        read = number;
    }
    Ok(Some(read > 0))
}

/// A file in a folder of pools.
#[derive(Drop)]
enum NumberedFile {
    /// There is none.
    Missing,
    /// It cannot be read.
    Unreadable,
    /// Its bytes.
    Bytes(Vec<u8>),
}

/// Reads the file of an address with a number. If it cannot be read, `errors` receives the reason.
fn file_of<F: Open, E: Write>(
    alloc: Global,
    folder: &str,
    owner: u8,
    number: u32,
    files: &mut F,
    errors: &mut E,
) -> io::Result<NumberedFile> {
    let path = format!(in alloc; "{folder}/{owner:02X}-{number}.iop")?;
    if !is_there(path.as_str(), files) {
        return Ok(NumberedFile::Missing);
    }
    Ok(match read_pool_file(alloc, path.as_str(), files, errors)? {
        Some(bytes) => NumberedFile::Bytes(bytes),
        None => NumberedFile::Unreadable,
    })
}

/// Appends the set of a pool in place of the one at its address, if a terminal accepts the pool. Returns whether it does.
fn put_last(alloc: Global, bytes: &[u8], owner: u8, sets: &mut Vec<LoadedSet>) -> io::Result<bool> {
    let Some(pool) = accepted(alloc, bytes)? else {
        return Ok(false);
    };
    if sets.last().is_some_and(|set| set.owner == owner) {
        let _ = sets.pop();
    }
    sets.push(LoadedSet { pool, owner })?;
    Ok(true)
}

/// Whether there is a file of an address in a folder.
fn has_first<F: Open>(
    alloc: Global,
    folder: &str,
    owner: u8,
    files: &mut F,
) -> Result<bool, AllocError> {
    let path = format!(in alloc; "{folder}/{owner:02X}-1.iop")?;
    Ok(is_there(path.as_str(), files))
}

/// Whether there is a file at a path, even if it cannot be read.
fn is_there<F: Open>(path: &str, files: &mut F) -> bool {
    match files.open(path) {
        Ok(_) => true,
        Err(error) => error.kind() != ErrorKind::NotFound,
    }
}

/// The pool in these bytes. `None` if a terminal refuses it.
fn accepted(alloc: Global, bytes: &[u8]) -> io::Result<Option<Accepted>> {
    match judge(alloc, bytes) {
        Ok(pool) => Ok(Some(pool)),
        Err(refusal) if refusal.wants_memory() => Err(Error::from(ErrorKind::OutOfMemory)),
        Err(_) => Ok(None),
    }
}

/// A terminal before its first input, with these sets. Its NAME is the one in the options, or else `name`, or else the default one.
pub fn new_terminal(
    alloc: Global,
    options: TerminalOptions,
    name: Option<u64>,
    sets: &[LoadedSet],
) -> io::Result<Terminal> {
    let own = options.own;
    if own > LAST_ADDRESS {
        return Err(Error::from(ErrorKind::InvalidInput));
    }
    let name = options.name.or(name).unwrap_or(TERMINAL_NAME);
    let mut terminal = Terminal::new(alloc, own, Name::from_raw(name));
    for set in sets {
        preload(&mut terminal, set)?;
    }
    Ok(terminal)
}

/// Gives a set to a terminal. An error is returned if the terminal has one at its address, or is there itself, or memory is refused.
fn preload(terminal: &mut Terminal, set: &LoadedSet) -> io::Result<()> {
    let owner = set.owner;
    if owner > LAST_ADDRESS || owner == terminal.own() || terminal.registered(owner) {
        return Err(Error::from(ErrorKind::InvalidInput));
    }
    match terminal.preload(owner, &set.pool) {
        Ok(()) => Ok(()),
        Err(_) => Err(Error::from(ErrorKind::OutOfMemory)),
    }
}
