//! Files that are read whole.

use crate::files::Open;
use check_text::{LinesWithoutId, Names, NamesRead};
use std::alloc::Global;
use std::io::{self, ErrorKind, Read, Write};

/// The most bytes of an object pool that is read: far more than terminals have memory for.
const MOST_BYTES: u64 = 33_554_432;

/// The bytes that are read at once, at most.
const CHUNK: usize = 65_536;

/// The bytes of a file. `None` if it cannot be read: then `errors` receives the reason.
pub fn read_file<F: Open, E: Write>(
    alloc: Global,
    path: &str,
    files: &mut F,
    errors: &mut E,
) -> io::Result<Option<Vec<u8>>> {
    let mut bytes = Vec::new(alloc);
    let read = match files.open(path) {
        Ok(mut file) => file.read_to_end(&mut bytes),
        Err(error) => Err(error),
    };
    match read {
        Ok(_) => Ok(Some(bytes)),
        Err(error) if error.kind() == ErrorKind::OutOfMemory => Err(error),
        Err(error) => {
            let _ = writeln!(errors, "{}: {path}: {error}", files.name());
            Ok(None)
        }
    }
}

/// The bytes of the file of an object pool. `None` if it cannot be read, or is longer than a pool may be: then `errors` receives the
/// reason. A file that is too long is not read to its end. If the file is a text, `errors` receives a sentence that says so: each pool has
/// a byte that no text has, the kind 0 of its Working Set.
pub fn read_pool_file<F: Open, E: Write>(
    alloc: Global,
    path: &str,
    files: &mut F,
    errors: &mut E,
) -> io::Result<Option<Vec<u8>>> {
    if files.size(path).is_some_and(|size| size > MOST_BYTES) {
        tell_too_long(path, files.name(), errors);
        return Ok(None);
    }
    let mut bytes = Vec::new(alloc);
    let read = match files.open(path) {
        Ok(mut file) => read_up_to(alloc, &mut file, &mut bytes),
        Err(error) => Err(error),
    };
    match read {
        Ok(()) => {}
        Err(error) if error.kind() == ErrorKind::OutOfMemory => return Err(error),
        Err(error) => {
            let _ = writeln!(errors, "{}: {path}: {error}", files.name());
            return Ok(None);
        }
    }
    if bytes.len() as u64 > MOST_BYTES {
        tell_too_long(path, files.name(), errors);
        return Ok(None);
    }
    if is_text(&bytes) {
        let _ = writeln!(
            errors,
            "{}: {path}: the file is a text; expected the bytes of an object pool, such as those of an .iop file",
            files.name()
        );
    }
    Ok(Some(bytes))
}

/// Appends the bytes of an input, up to its end or to more than `MOST_BYTES` of them.
fn read_up_to<R: Read>(alloc: Global, input: &mut R, bytes: &mut Vec<u8>) -> io::Result<()> {
    let mut chunk = vec![in alloc; 0; CHUNK]?;
    for _ in 0..=MOST_BYTES {
        if bytes.len() as u64 > MOST_BYTES {
            break;
        }
        match input.read(&mut chunk) {
            Ok(0) => break,
            Ok(count) => bytes.extend_from_slice(chunk.get(..count).unwrap_or(&[]))?,
            Err(error) if error.kind() == ErrorKind::Interrupted => {}
            Err(error) => return Err(error),
        }
    }
    Ok(())
}

/// Writes to `errors` that a file is longer than an object pool may be.
fn tell_too_long<E: Write>(path: &str, program: &str, errors: &mut E) {
    let _ = writeln!(
        errors,
        "{program}: {path}: the file has more than {MOST_BYTES} bytes, and no longer pool is read; expected an object pool"
    );
}

/// Whether bytes are a text that is not empty: graphic characters and blanks, and bytes above 127; or the beginning of one in UTF-16, a
/// byte order mark and a character of ASCII.
fn is_text(bytes: &[u8]) -> bool {
    if let [0xFF, 0xFE, _, 0, ..] | [0xFE, 0xFF, 0, _, ..] = bytes {
        return true;
    }
    let is_of_text = |byte: &u8| matches!(byte, b'\t' | b'\n' | b'\r' | b' '..=b'~' | 0x80..);
    !bytes.is_empty() && bytes.iter().all(is_of_text)
}

/// The names in files. `None` if one of them cannot be read: then `errors` receives the reason. `errors` also receives a sentence for a
/// file without a name, and one for lines of a file that have the form of a name but give no ID.
pub fn read_names<F: Open, E: Write>(
    alloc: Global,
    paths: &[&str],
    files: &mut F,
    errors: &mut E,
) -> io::Result<Option<Names>> {
    let mut names = Names::new(alloc);
    for path in paths {
        match read_file(alloc, path, files, errors)? {
            Some(bytes) => {
                let read = names.add(alloc, bytes.as_slice())?;
                tell_names(files.name(), path, read, errors);
            }
            None => return Ok(None),
        }
    }
    Ok(Some(names))
}

/// Writes that a file has no name, and which of its lines have the form of a name but give no ID.
fn tell_names<E: Write>(program: &str, path: &str, read: NamesRead, errors: &mut E) {
    if read.names == 0 {
        let _ = writeln!(
            errors,
            "{program}: {path}: no name was read; expected lines ID,NAME or #define NAME ID"
        );
    }
    let _ = match read.without_id {
        None => return,
        Some(LinesWithoutId { first, later: 0 }) => writeln!(
            errors,
            "{program}: {path}: line {first} gives no ID and is passed over"
        ),
        Some(LinesWithoutId { first, later: 1 }) => writeln!(
            errors,
            "{program}: {path}: line {first} and 1 later line give no ID and are passed over"
        ),
        Some(LinesWithoutId { first, later }) => writeln!(
            errors,
            "{program}: {path}: line {first} and {later} later lines give no ID and are passed over"
        ),
    };
}
