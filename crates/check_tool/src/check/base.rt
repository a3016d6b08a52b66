//! The pool on top of which another is uploaded.

use check_inspect::Note;
use check_text::{Item, ItemLine, is_read};
use std::alloc::{AllocError, Global};
use std::io::{self, Write};
use vt_cli::{InspectedFile, Open};

/// The pool on top of which another is uploaded, such as that of a language. It has no bytes if none is given.
#[derive(Drop)]
pub(crate) struct Base<'a> {
    /// The path of its file.
    path: &'a str,
    /// Its bytes.
    bytes: Vec<u8>,
}

impl<'a> Base<'a> {
    /// The pool in a file, or no bytes if no path is given. `None` if the file cannot be read, or its bytes not to their end: then `errors`
    /// receives the reason.
    pub(crate) fn read<F: Open, E: Write>(
        alloc: Global,
        path: Option<&'a str>,
        files: &mut F,
        errors: &mut E,
    ) -> io::Result<Option<Base<'a>>> {
        let Some(path) = path else {
            return Ok(Some(Base {
                path: "",
                bytes: Vec::new(alloc),
            }));
        };
        let Some(pool) = InspectedFile::read(alloc, path, files, errors)? else {
            return Ok(None);
        };
        if !is_read(&pool.inspection, path, errors) {
            return Ok(None);
        }
        Ok(Some(Base {
            path,
            bytes: pool.bytes,
        }))
    }

    /// The bytes of the base, and those of a pool behind them.
    pub(crate) fn with(&self, alloc: Global, pool: &[u8]) -> Result<Vec<u8>, AllocError> {
        let mut bytes = Vec::from_slice(alloc, self.bytes.as_slice())?;
        bytes.extend_from_slice(pool)?;
        Ok(bytes)
    }

    /// Whether an item is an object of the base that the pool replaces, which is what the pool is for.
    pub(crate) fn is_replaced(&self, item: Item<'_>) -> bool {
        match item {
            Item::Replaced(replaced) => {
                replaced.at < self.bytes.len() && replaced.by >= self.bytes.len()
            }
            Item::Finding(_) | Item::Clash(_) | Item::Warning(_) | Item::Value(_) | Item::Note(_) =>
                false,
        }
    }

    /// Gives the message of an item the file with its byte, and the index of the byte there. An item about the whole keeps that of the pool.
    pub(crate) fn place(&self, item: Item<'_>, message: &mut ItemLine<'a>) {
        match message.offset.checked_sub(self.bytes.len()) {
            Some(offset) => message.offset = offset,
            None if is_whole(item) => {}
            None => message.file = self.path,
        }
    }
}

/// Whether an item is about a whole pool.
fn is_whole(item: Item<'_>) -> bool {
    match item {
        Item::Finding(finding) => finding.place().is_none(),
        Item::Note(Note::UnknownTriggers | Note::UnknownCosts | Note::PassedOver) => true,
        Item::Note(Note::Unread { .. })
        | Item::Clash(_)
        | Item::Replaced(_)
        | Item::Warning(_)
        | Item::Value(_) => false,
    }
}
