//! Files of object pools that are inspected.

use crate::files::Open;
use crate::reading::read_pool_file;
use check_inspect::{Inspection, inspect};
use check_text::{CheckedPool, Names};
use std::alloc::Global;
use std::io::{self, Write};

/// The file of an object pool with its inspection.
#[derive(Drop)]
pub struct InspectedFile<'a> {
    /// The path.
    pub path: &'a str,
    /// The bytes.
    pub bytes: Vec<u8>,
    /// What was found in the bytes.
    pub inspection: Inspection,
}

impl<'a> InspectedFile<'a> {
    /// Reads and inspects the file at a path. `None` if it cannot be read: then `errors` receives the reason.
    pub fn read<F: Open, E: Write>(
        alloc: Global,
        path: &'a str,
        files: &mut F,
        errors: &mut E,
    ) -> io::Result<Option<InspectedFile<'a>>> {
        let Some(bytes) = read_pool_file(alloc, path, files, errors)? else {
            return Ok(None);
        };
        let inspection = inspect(alloc, bytes.as_slice())?;
        Ok(Some(InspectedFile {
            path,
            bytes,
            inspection,
        }))
    }

    /// The pool with names of objects.
    pub fn named<'b>(&'b self, names: &'b Names) -> CheckedPool<'b> {
        CheckedPool {
            path: self.path,
            inspection: &self.inspection,
            bytes: self.bytes.as_slice(),
            names,
        }
    }
}
