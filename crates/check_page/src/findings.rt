//! The findings of a pool, as `check` prints them.

use check_json::{item_json, summary_json};
use check_needs::{Sizes, warnings};
use check_text::{CheckedPool, Item, Summary, items_of, summary_of};
use check_values::value_warnings;
use std::alloc::Global;
use std::io::{self, Write};

/// Writes a line of JSON for each error, warning and note of a pool, and one for their counts, which are returned.
pub(crate) fn put_findings<'a, W: Write>(
    alloc: Global,
    source: &CheckedPool<'a>,
    sizes: Sizes,
    out: &mut W,
) -> io::Result<Summary<'a>> {
    let objects = &source.inspection.objects;
    let warnings = warnings(alloc, objects, sizes)?;
    let values = value_warnings(alloc, objects)?;
    let items = items_of(
        alloc,
        source.inspection,
        warnings.as_slice(),
        values.as_slice(),
    )?;
    let summary = summary_of(source, items.as_slice(), items.len());
    writeln!(out, "{}", summary_json(alloc, summary)?)?;
    for note in source.inspection.notes.iter() {
        put_item(alloc, source, Item::Note(*note), out)?;
    }
    for item in items.iter() {
        put_item(alloc, source, *item, out)?;
    }
    Ok(summary)
}

/// Writes the line of an item.
fn put_item<W: Write>(
    alloc: Global,
    source: &CheckedPool<'_>,
    item: Item<'_>,
    out: &mut W,
) -> io::Result<()> {
    let message = source.message(alloc, item)?;
    writeln!(out, "{}", item_json(alloc, source, &message, item)?)
}
