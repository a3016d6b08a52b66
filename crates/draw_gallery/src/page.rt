//! The page of a folder with pictures.

use crate::html::Html;
use check_needs::{TERMINAL_SIZES, warnings};
use check_text::{CheckedPool, Item, items_of, summary_of};
use check_values::value_warnings;
use std::alloc::{AllocError, Global};
use std::fmt::Display;
use vt_objects::ObjectId;

/// The beginning of the page, up to its title.
const BEFORE_TITLE: &str = "\
<!DOCTYPE html>
<html lang=\"en\">
<head>
<meta charset=\"utf-8\">
<title>";

/// From the title to the heading.
const BEFORE_HEADING: &str = "\
</title>
<style>
body { font-family: sans-serif; margin: 1em; }
main { display: flex; flex-wrap: wrap; gap: 1em; }
figure { margin: 0; }
img { border: 1px solid #999999; }
li { font-family: monospace; }
</style>
</head>
<body>
<h1>";

/// From the heading to the masks.
const BEFORE_MASKS: &str = "</h1>\n<main>\n";

/// From the masks to the findings.
const BEFORE_FINDINGS: &str = "</main>\n<h2>Findings</h2>\n<ul>\n";

/// From the findings to their counts.
const BEFORE_COUNTS: &str = "</ul>\n<p>";

/// The end of the page.
const AFTER_COUNTS: &str = "</p>\n</body>\n</html>\n";

/// The page of a pool: its masks, and then everything that `check` prints about it.
pub(crate) fn page_of(
    alloc: Global,
    source: &CheckedPool<'_>,
    masks: &[ObjectId],
) -> Result<Html, AllocError> {
    let mut page = Html::new(alloc);
    put_head(&mut page, file_name(source.path))?;
    for mask in masks {
        put_figure(alloc, &mut page, source, *mask)?;
    }
    page.push_markup(BEFORE_FINDINGS)?;
    put_findings(alloc, &mut page, source)?;
    Ok(page)
}

/// The last part of a path.
fn file_name(path: &str) -> &str {
    match path.rsplit_once('/') {
        Some((_, name)) => name,
        None => path,
    }
}

fn put_head(page: &mut Html, title: &str) -> Result<(), AllocError> {
    page.push_markup(BEFORE_TITLE)?;
    page.push_text(title)?;
    page.push_markup(BEFORE_HEADING)?;
    page.push_text(title)?;
    page.push_markup(BEFORE_MASKS)
}

/// Appends the picture of a mask with its kind, its ID and its name.
fn put_figure(
    alloc: Global,
    page: &mut Html,
    source: &CheckedPool<'_>,
    mask: ObjectId,
) -> Result<(), AllocError> {
    let label = format!(in alloc; "{}", source.label(mask))?;
    page.push_markup("<figure>\n<img src=\"")?;
    put_shown(alloc, page, &mask.raw())?;
    page.push_markup(".svg\" alt=\"")?;
    page.push_text(label.as_str())?;
    page.push_markup("\">\n<figcaption>")?;
    page.push_text(label.as_str())?;
    page.push_markup("</figcaption>\n</figure>\n")
}

/// Appends the errors, the warnings and the notes, and then their counts.
fn put_findings(
    alloc: Global,
    page: &mut Html,
    source: &CheckedPool<'_>,
) -> Result<(), AllocError> {
    let warnings = warnings(alloc, &source.inspection.objects, TERMINAL_SIZES)?;
    let values = value_warnings(alloc, &source.inspection.objects)?;
    let items = items_of(
        alloc,
        source.inspection,
        warnings.as_slice(),
        values.as_slice(),
    )?;
    for item in items.iter() {
        put_item(alloc, page, source, *item)?;
    }
    for note in source.inspection.notes.iter() {
        put_item(alloc, page, source, Item::Note(*note))?;
    }
    page.push_markup(BEFORE_COUNTS)?;
    let summary = summary_of(source, items.as_slice(), items.len());
    put_shown(alloc, page, &summary)?;
    page.push_markup(AFTER_COUNTS)
}

fn put_item(
    alloc: Global,
    page: &mut Html,
    source: &CheckedPool<'_>,
    item: Item<'_>,
) -> Result<(), AllocError> {
    page.push_markup("<li>")?;
    let message = source.message(alloc, item)?;
    put_shown(alloc, page, &message)?;
    page.push_markup("</li>\n")
}

/// Appends a value as it is shown.
fn put_shown<T: Display>(alloc: Global, page: &mut Html, value: &T) -> Result<(), AllocError> {
    let text = format!(in alloc; "{value}")?;
    page.push_text(text.as_str())
}
