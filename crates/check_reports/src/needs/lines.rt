//! What a pool needs as lines for people.

use crate::needs::load::Load;
use crate::needs::report::{Report, colours};
use check_needs::{
    Area, Furthest, Lack, Needers, Needs, PlacedElement, Sizes, cell, has_font, has_kind, lacks,
};
use check_text::event_name;
use std::io::{self, Write};
use vt_objects::{Kind, Store};

/// Writes the sizes, the objects that need them, the load, whether the terminal has what is needed, and the kinds.
pub(crate) fn write_report<W: Write>(
    report: &Report<'_>,
    sizes: Sizes,
    out: &mut W,
) -> io::Result<()> {
    write_sizes(report, out)?;
    write_needers(report, out)?;
    write_fonts(report, out)?;
    if let Load::Known { chain, dearest } = report.load {
        writeln!(out, "longest chain {chain} inclusions")?;
        write!(out, "dearest event {} steps", dearest.steps)?;
        if dearest.steps > 0 {
            let label = report.source.label(dearest.id);
            write!(out, ": {label}, {}", event_name(dearest.event))?;
        }
        writeln!(out)?;
        write_lacks(&report.needs, sizes, out)?;
    }
    write_kinds(report, out)
}

/// Writes the number of objects and bytes, the areas and the soft keys.
fn write_sizes<W: Write>(report: &Report<'_>, out: &mut W) -> io::Result<()> {
    let count = report.source.inspection.objects.count();
    writeln!(out, "objects {count}, bytes {}", report.source.bytes.len())?;
    let Needs {
        mask,
        key,
        keys,
        ..
    } = report.needs;
    writeln!(
        out,
        "mask at least {}x{}, key at least {}x{}, soft keys {keys}",
        mask.width, mask.height, key.width, key.height
    )
}

/// Writes the objects that need these sizes, and the colours.
fn write_needers<W: Write>(report: &Report<'_>, out: &mut W) -> io::Result<()> {
    let Needers {
        mask,
        key,
        keys,
        colour,
    } = report.needers;
    write_furthest(report, "mask", mask, out)?;
    write_furthest(report, "key", key, out)?;
    if let Some(most) = keys {
        let label = report.source.label(most.id);
        writeln!(out, "soft keys {}: {label}", most.number)?;
    }
    let count = colours(report.needs.colour);
    match colour {
        None => writeln!(out, "colours {count}"),
        Some(most) => {
            let label = report.source.label(most.id);
            writeln!(out, "colours {count}: colour {} of {label}", most.number)
        }
    }
}

/// Writes the children that reach the furthest in a mask or a key.
fn write_furthest<W: Write>(
    report: &Report<'_>,
    place: &str,
    furthest: Furthest,
    out: &mut W,
) -> io::Result<()> {
    let Furthest { right, down } = furthest;
    write_child(report, place, "width", right, out)?;
    write_child(report, place, "height", down, out)
}

/// Writes a child with its place and its size.
fn write_child<W: Write>(
    report: &Report<'_>,
    place: &str,
    side: &str,
    element: Option<PlacedElement>,
    out: &mut W,
) -> io::Result<()> {
    let Some(it) = element else {
        return Ok(());
    };
    let parent = report.source.label(it.parent);
    let child = report.source.label(it.id);
    writeln!(
        out,
        "{place} {side} by {parent}: child {}, {child}, of {}x{} at {},{}",
        it.index, it.width, it.height, it.x, it.y
    )
}

/// Writes each size of a font, with the area of a character, and the first text that needs it.
fn write_fonts<W: Write>(report: &Report<'_>, out: &mut W) -> io::Result<()> {
    for size in 0..=u8::MAX {
        if has_font(&report.source.inspection.objects, size) {
            write!(out, "font size {size}")?;
            if let Some(Area { width, height }) = cell(size) {
                write!(out, " {width}x{height}")?;
            }
            write_texts(report, size, out)?;
        }
    }
    Ok(())
}

/// Writes the first text or number that needs a size of a font, and how many others do.
fn write_texts<W: Write>(report: &Report<'_>, size: u8, out: &mut W) -> io::Result<()> {
    let mut uses = report.font_uses.iter().filter(|it| it.size == size);
    let Some(first) = uses.next() else {
        return writeln!(out, ": no text");
    };
    let text = report.source.label(first.text);
    let font = report.source.label(first.font);
    write!(out, ": {text} in {font}")?;
    match uses.count() {
        0 => writeln!(out),
        others => writeln!(out, ", and {others} more"),
    }
}

/// Writes what the terminal has less of, or that the pool fits.
fn write_lacks<W: Write>(needs: &Needs, sizes: Sizes, out: &mut W) -> io::Result<()> {
    let lacks = lacks(needs, sizes);
    let Sizes { mask, key, keys } = sizes;
    for lack in lacks.as_slice() {
        match lack {
            Lack::MaskArea => writeln!(
                out,
                "does not fit: the terminal's mask is {}x{}",
                mask.width, mask.height
            )?,
            Lack::KeyArea => writeln!(
                out,
                "does not fit: the terminal's key is {}x{}",
                key.width, key.height
            )?,
            Lack::Keys => writeln!(out, "does not fit: the terminal has {keys} soft keys")?,
        }
    }
    if lacks.is_empty() {
        writeln!(
            out,
            "fits a terminal of {}x{} with {keys} soft keys",
            mask.width, mask.height
        )?;
    }
    Ok(())
}

/// Writes the kinds of the objects.
fn write_kinds<W: Write>(report: &Report<'_>, out: &mut W) -> io::Result<()> {
    for number in 0..=u8::MAX {
        if let Some(kind) = Kind::from_number(number)
            && has_kind(&report.source.inspection.objects, kind)
        {
            writeln!(out, "kind {number} {kind}")?;
        }
    }
    Ok(())
}
