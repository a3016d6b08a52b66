//! The sizes of the characters of fonts.

ghost use Rattle.std.specs.Prelude.{◌≡◌, slice_get};
ghost use Rattle.check_needs.specs.Fonts.{cells, cell_at};

use crate::sizes::Area;
use vt_objects::{Object, ObjectId, SortedStore, Store};

/// The area of a character, by the number of the font's size (ISO 11783-6).
const CELLS: [(u16, u16); 15] = [
    (6, 8),
    (8, 8),
    (8, 12),
    (12, 16),
    (16, 16),
    (16, 24),
    (24, 32),
    (32, 32),
    (32, 48),
    (48, 64),
    (64, 64),
    (64, 96),
    (96, 128),
    (128, 128),
    (128, 192),
];

/// The area of a character of a font of this size, or `None` for a size that is not in the table.
pub fn cell(size: u8) -> Option<Area>
    ensures { result ≡ slice_get cells size }
{
    let (width, height) = *CELLS.get(usize::from(size))?;
    Some(Area { width, height })
}

/// The area of a character in a font, or `None` if the font is missing.
pub(crate) fn cell_at(objects: &SortedStore, font: ObjectId) -> Option<Area>
    ensures { result ≡ cell_at objects.now font }
{
    let Some(Object::Font(o)) = objects.get(font) else {
        return None;
    };
    cell(o.size)
}
