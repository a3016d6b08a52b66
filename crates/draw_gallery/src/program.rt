//! A run of `draw`.

use crate::masks::{active_mask, first_mask, masks_of, named_mask};
use crate::origin::{path_of, read_origin};
use crate::page::page_of;
use crate::refusal::{NotDrawn, RefusalLine};
use check_inspect::inspect;
use check_needs::Sizes;
use check_options::{DrawOptions, Drawing};
use check_text::{CheckedPool, items_of, summary_of};
use draw_picture::draw;
use std::alloc::{AllocError, Global};
use std::io::{self, Write};
use vt_cli::{Open, Save, make_folder, read_names, save_file};
use vt_objects::ObjectId;

/// The outcome of a run.
#[derive(Clone, Copy, PartialEq, Eq)]
pub enum Outcome {
    /// All masks are drawn, and the pool has no errors.
    Clean,
    /// All masks of the part of the pool that could be read are drawn, but the pool has errors.
    Faulty,
    /// No mask is drawn, or not all could be written.
    NotDrawn,
}

/// Draws masks of a pool, or of the objects that a log gives. `errors` receives a sentence for each file that cannot be read or
/// written, for a log that gives no pool, for masks that are missing, and for a pool with errors. An error is returned if `out`
/// cannot be written or memory is refused.
pub fn run_draw<F: Open + Save, W: Write, E: Write>(
    alloc: Global,
    options: &DrawOptions<'_>,
    files: &mut F,
    out: &mut W,
    errors: &mut E,
) -> io::Result<Outcome> {
    let Some(names) = read_names(alloc, options.names.as_slice(), files, errors)? else {
        return Ok(Outcome::NotDrawn);
    };
    let Some(bytes) = read_origin(alloc, options.origin, files, errors)? else {
        return Ok(Outcome::NotDrawn);
    };
    let inspection = inspect(alloc, bytes.as_slice())?;
    let source = CheckedPool {
        path: path_of(options.origin),
        inspection: &inspection,
        bytes: bytes.as_slice(),
        names: &names,
    };
    draw_source(alloc, &source, options, files, out, errors)
}

/// Draws masks of a pool that was read.
fn draw_source<F: Save, W: Write, E: Write>(
    alloc: Global,
    source: &CheckedPool<'_>,
    options: &DrawOptions<'_>,
    files: &mut F,
    out: &mut W,
    errors: &mut E,
) -> io::Result<Outcome> {
    let masks = masks_of(alloc, &source.inspection.objects)?;
    let sheet = Sheet {
        alloc,
        source: &*source,
        masks: masks.as_slice(),
        sizes: options.sizes,
    };
    let is_drawn = match options.drawing {
        Drawing::Picture { mask, file } => sheet.put_picture(mask, file, files, out, errors)?,
        Drawing::Gallery { mask, folder } => sheet.put_gallery(mask, folder, files, errors)?,
    };
    if !is_drawn {
        return Ok(Outcome::NotDrawn);
    }
    Ok(outcome_of(alloc, source, errors)?)
}

/// A pool with its masks, and the sizes of pictures.
#[derive(Clone, Copy, Drop)]
struct Sheet<'a> {
    alloc: Global,
    source: &'a CheckedPool<'a>,
    masks: &'a [ObjectId],
    sizes: Sizes,
}

impl Sheet<'_> {
    /// Draws the active mask or another into a file or on `out`, and returns whether it is drawn.
    fn put_picture<F: Save, W: Write, E: Write>(
        &self,
        mask: Option<ObjectId>,
        file: Option<&str>,
        files: &mut F,
        out: &mut W,
        errors: &mut E,
    ) -> io::Result<bool> {
        let found = match mask {
            Some(id) => named_mask(self.masks, id),
            None => active_mask(self.masks, &self.source.inspection.objects),
        };
        let Some(mask) = self.found(found, errors) else {
            return Ok(false);
        };
        let picture = self.picture(mask)?;
        match file {
            Some(path) => save_file(path, picture.as_slice(), files, errors),
            None => {
                out.write_all(picture.as_slice())?;
                Ok(true)
            }
        }
    }

    /// Draws all masks or one into a folder, and returns whether they are drawn.
    fn put_gallery<F: Save, E: Write>(
        &self,
        mask: Option<ObjectId>,
        folder: &str,
        files: &mut F,
        errors: &mut E,
    ) -> io::Result<bool> {
        let found = match mask {
            Some(id) => named_mask(self.masks, id),
            None => first_mask(self.masks),
        };
        let Some(first) = self.found(found, errors) else {
            return Ok(false);
        };
        match mask {
            Some(_) => self.save_gallery(&[first], folder, files, errors),
            None => self.save_gallery(self.masks, folder, files, errors),
        }
    }

    /// Writes the picture of each mask, and the page.
    fn save_gallery<F: Save, E: Write>(
        &self,
        masks: &[ObjectId],
        folder: &str,
        files: &mut F,
        errors: &mut E,
    ) -> io::Result<bool> {
        if !make_folder(folder, files, errors)? {
            return Ok(false);
        }
        let folder = folder.trim_end_matches('/');
        for mask in masks {
            if !self.save_picture(*mask, folder, files, errors)? {
                return Ok(false);
            }
        }
        let path = format!(in self.alloc; "{folder}/index.html")?;
        let page = page_of(self.alloc, self.source, masks)?;
        save_file(path.as_str(), page.as_bytes(), files, errors)
    }

    /// Writes the picture of a mask into the file of its ID.
    fn save_picture<F: Save, E: Write>(
        &self,
        mask: ObjectId,
        folder: &str,
        files: &mut F,
        errors: &mut E,
    ) -> io::Result<bool> {
        let path = format!(in self.alloc; "{folder}/{}.svg", mask.raw())?;
        let picture = self.picture(mask)?;
        save_file(path.as_str(), picture.as_slice(), files, errors)
    }

    /// The picture of a mask, with a newline behind it.
    fn picture(&self, mask: ObjectId) -> Result<Vec<u8>, AllocError> {
        let objects = &self.source.inspection.objects;
        let mut picture = draw(self.alloc, objects, self.sizes, mask)?;
        picture.push(b'\n')?;
        Ok(picture)
    }

    /// The mask. `None` if there is none: then `errors` receives the reason.
    fn found<E: Write>(
        &self,
        mask: Result<ObjectId, NotDrawn>,
        errors: &mut E,
    ) -> Option<ObjectId> {
        match mask {
            Ok(mask) => Some(mask),
            Err(refusal) => {
                let line = RefusalLine {
                    source: self.source,
                    masks: self.masks,
                    refusal,
                };
                let _ = writeln!(errors, "{line}");
                None
            }
        }
    }
}

/// The outcome of masks that are drawn. If the pool has errors, `errors` receives a sentence that says so.
fn outcome_of<E: Write>(
    alloc: Global,
    source: &CheckedPool<'_>,
    errors: &mut E,
) -> Result<Outcome, AllocError> {
    let path = source.path;
    let items = items_of(alloc, source.inspection, &[], &[])?;
    let summary = summary_of(source, items.as_slice(), items.len());
    let _ = match summary.errors {
        0 => return Ok(Outcome::Clean),
        1 => writeln!(
            errors,
            "segyolant: {path}: 1 error; segyolant check says what it is"
        ),
        count => writeln!(
            errors,
            "segyolant: {path}: {count} errors; segyolant check says what they are"
        ),
    };
    Ok(Outcome::Faulty)
}
