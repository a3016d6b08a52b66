//! Where the objects that are drawn come from.

use crate::{GivenSet, StateFault, pool_left};
use check_options::Origin;
use std::alloc::{AllocError, Global};
use std::io::{self, Error, ErrorKind, Write};
use vt_cli::{Open, StartSet, read_file, read_pool_file};
use vt_logs::ReplayFault;
use vt_recorded::Survey;

/// The file whose objects are drawn: the pool, or the log.
pub(crate) fn path_of<'a>(origin: Origin<'a>) -> &'a str {
    match origin {
        Origin::Pool(path) | Origin::State { log: path, .. } => path,
    }
}

/// The bytes of the pool that is drawn. `None` if there is none: then `errors` receives the reason.
pub(crate) fn read_origin<F: Open, E: Write>(
    alloc: Global,
    origin: Origin<'_>,
    files: &mut F,
    errors: &mut E,
) -> io::Result<Option<Vec<u8>>> {
    match origin {
        Origin::Pool(path) => read_pool_file(alloc, path, files, errors),
        Origin::State { log, set: None } => read_state(alloc, log, None, files, errors),
        Origin::State {
            log,
            set: Some(set),
        } => match read_pool_file(alloc, set.pool, files, errors)? {
            Some(pool) => {
                let start = Start {
                    set,
                    bytes: pool.as_slice(),
                };
                read_state(alloc, log, Some(start), files, errors)
            }
            None => Ok(None),
        },
    }
}

/// A working set that is there from the start, with the bytes of its pool.
#[derive(Clone, Copy)]
struct Start<'a> {
    set: StartSet<'a>,
    bytes: &'a [u8],
}

/// The bytes of the pool that a log gives. `None` if it gives none: then `errors` receives the reason.
fn read_state<F: Open, E: Write>(
    alloc: Global,
    path: &str,
    start: Option<Start<'_>>,
    files: &mut F,
    errors: &mut E,
) -> io::Result<Option<Vec<u8>>> {
    let Some(log) = read_file(alloc, path, files, errors)? else {
        return Ok(None);
    };
    if !tell_lines(alloc, path, &log, errors)? {
        return Ok(None);
    }
    let set = start.map(|start| GivenSet {
        pool: start.bytes,
        owner: start.set.owner,
    });
    match pool_left(alloc, set, &mut log.as_slice()) {
        Ok(bytes) => Ok(Some(bytes)),
        Err(StateFault::Memory) => Err(Error::from(ErrorKind::OutOfMemory)),
        Err(fault) => {
            let (path, cure) = cure_of(fault, path, start);
            let _ = writeln!(errors, "segyolant: {path}: {fault}{cure}");
            Ok(None)
        }
    }
}

/// Reads the lines of a log. Writes to `errors` how many are faulty, and the likely cause of the first fault. Returns false if there are
/// faulty lines, and no line that is a frame or an action of the operator.
fn tell_lines<E: Write>(
    alloc: Global,
    path: &str,
    log: &[u8],
    errors: &mut E,
) -> Result<bool, AllocError> {
    let survey = Survey::of(alloc, log)?;
    let faults = survey.faults;
    if faults == 0 {
        return Ok(true);
    }
    let verb = if faults == 1 { "is" } else { "are" };
    let _ = writeln!(
        errors,
        "segyolant: {path}: {faults} of its lines {verb} faulty; segyolant_log trace shows each with its fault"
    );
    if let Some(hint) = survey.hint {
        let _ = writeln!(errors, "segyolant: {path}: {hint}");
    }
    if survey.is_unreadable() {
        let _ = writeln!(
            errors,
            "segyolant: {path}: no line could be read; expected a log such as candump -L writes"
        );
    }
    Ok(!survey.is_unreadable())
}

/// The file that a fault is about, and what may be done about it.
fn cure_of<'a>(
    fault: StateFault,
    log: &'a str,
    start: Option<Start<'a>>,
) -> (&'a str, &'static str) {
    match (fault, start) {
        (StateFault::NothingShown, None) => (
            log,
            "; the log must register a working set and upload a pool, or POOL must be given",
        ),
        (StateFault::NothingShown, Some(_)) => (
            log,
            "; the pool's working set is closed by then, as 3 seconds of silence close it; give its address by --owner, or a log that ends before",
        ),
        (StateFault::Pool, Some(start)) => (start.set.pool, "; segyolant check says why"),
        (StateFault::Replay(ReplayFault::TooLong), _) => {
            (log, "; expected a log such as candump -L writes")
        }
        (StateFault::Pool, None)
        | (StateFault::Owner | StateFault::Replay(_) | StateFault::Memory, _) => (log, ""),
    }
}
