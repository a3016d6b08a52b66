//! What a pool needs as a line of JSON.

use crate::needs::load::Load;
use crate::needs::report::{Report, colours};
use check_json::label_value;
use check_needs::{
    Dearest, Extent, Furthest, Lack, NumberOf, PlacedElement, Sizes, cell, has_font, has_kind,
    lacks,
};
use check_text::event_name;
use serde_json::Value;
use std::alloc::{AllocError, Global};
use std::io::{self, Write};
use vt_cli::JsonLine;
use vt_objects::{Kind, Store};

/// Writes what a pool needs as one line.
pub(crate) fn write_report_json<W: Write>(
    alloc: Global,
    report: &Report<'_>,
    sizes: Sizes,
    out: &mut W,
) -> io::Result<()> {
    let needs = report.needs;
    let mut line = JsonLine::new(alloc);
    line.put_number("bytes", report.source.bytes.len() as u64)?;
    line.put(
        "colour",
        number_value(alloc, report, report.needers.colour)?,
    )?;
    line.put_number("colours", u64::from(colours(needs.colour)))?;
    line.put_text("file", report.source.path)?;
    line.put("fonts", fonts_value(alloc, report)?)?;
    line.put(
        "key",
        area_value(alloc, report, needs.key, report.needers.key)?,
    )?;
    line.put("keys", number_value(alloc, report, report.needers.keys)?)?;
    line.put("kinds", kinds_value(alloc, report)?)?;
    line.put(
        "mask",
        area_value(alloc, report, needs.mask, report.needers.mask)?,
    )?;
    line.put_number("objects", report.source.inspection.objects.count() as u64)?;
    put_load(alloc, report, sizes, &mut line)?;
    line.write(out)
}

/// Adds the load and what the terminal lacks, or `null` if they are not known.
fn put_load(
    alloc: Global,
    report: &Report<'_>,
    sizes: Sizes,
    line: &mut JsonLine,
) -> Result<(), AllocError> {
    let Load::Known { chain, dearest } = report.load else {
        line.put("dearest", Value::Null)?;
        line.put("lacks", Value::Null)?;
        return line.put("longest_chain", Value::Null);
    };
    line.put("dearest", dearest_value(alloc, report, dearest)?)?;
    let mut names = Vec::new(alloc);
    for lack in lacks(&report.needs, sizes).as_slice() {
        let name = match lack {
            Lack::MaskArea => "mask",
            Lack::KeyArea => "key",
            Lack::Keys => "keys",
        };
        names.push(Value::String(String::from_str(alloc, name)?))?;
    }
    line.put("lacks", Value::Array(names))?;
    line.put_number("longest_chain", u64::from(chain))
}

/// The event with the most steps, or `null` if none takes a step.
fn dearest_value(
    alloc: Global,
    report: &Report<'_>,
    dearest: Dearest,
) -> Result<Value, AllocError> {
    if dearest.steps == 0 {
        return Ok(Value::Null);
    }
    let mut value = JsonLine::new(alloc);
    value.put_number("event", u64::from(dearest.event))?;
    value.put_text("event_name", event_name(dearest.event))?;
    value.put(
        "object",
        label_value(alloc, report.source.label(dearest.id))?,
    )?;
    value.put_number("steps", u64::from(dearest.steps))?;
    Ok(value.into_value())
}

/// A number with its object, or `null` for none.
fn number_value(
    alloc: Global,
    report: &Report<'_>,
    most: Option<NumberOf>,
) -> Result<Value, AllocError> {
    let Some(NumberOf { id, number }) = most else {
        return Ok(Value::Null);
    };
    let mut value = JsonLine::new(alloc);
    value.put_number("number", u64::from(number))?;
    value.put("object", label_value(alloc, report.source.label(id))?)?;
    Ok(value.into_value())
}

/// An area with the children that need its width and its height.
fn area_value(
    alloc: Global,
    report: &Report<'_>,
    area: Extent,
    furthest: Furthest,
) -> Result<Value, AllocError> {
    let Furthest { right, down } = furthest;
    let mut value = JsonLine::new(alloc);
    value.put_number("height", u64::from(area.height))?;
    value.put("height_by", child_value(alloc, report, down)?)?;
    value.put_number("width", u64::from(area.width))?;
    value.put("width_by", child_value(alloc, report, right)?)?;
    Ok(value.into_value())
}

/// A child with its parent, its place and its size, or `null` for none.
fn child_value(
    alloc: Global,
    report: &Report<'_>,
    element: Option<PlacedElement>,
) -> Result<Value, AllocError> {
    let Some(it) = element else {
        return Ok(Value::Null);
    };
    let mut value = JsonLine::new(alloc);
    value.put("child", label_value(alloc, report.source.label(it.id))?)?;
    value.put_number("height", u64::from(it.height))?;
    value.put_number("index", u64::from(it.index))?;
    value.put(
        "object",
        label_value(alloc, report.source.label(it.parent))?,
    )?;
    value.put_number("width", u64::from(it.width))?;
    value.put("x", Value::from(i64::from(it.x)))?;
    value.put("y", Value::from(i64::from(it.y)))?;
    Ok(value.into_value())
}

/// The sizes of fonts with the area of a character, and the texts that need each.
fn fonts_value(alloc: Global, report: &Report<'_>) -> Result<Value, AllocError> {
    let mut fonts = Vec::new(alloc);
    for size in 0..=u8::MAX {
        if has_font(&report.source.inspection.objects, size) {
            fonts.push(font_value(alloc, report, size)?)?;
        }
    }
    Ok(Value::Array(fonts))
}

/// A size of fonts.
fn font_value(alloc: Global, report: &Report<'_>, size: u8) -> Result<Value, AllocError> {
    let mut texts = Vec::new(alloc);
    for it in report.font_uses.iter().filter(|it| it.size == size) {
        let mut text = JsonLine::new(alloc);
        text.put("font", label_value(alloc, report.source.label(it.font))?)?;
        text.put("object", label_value(alloc, report.source.label(it.text))?)?;
        texts.push(text.into_value())?;
    }
    let area = cell(size);
    let mut value = JsonLine::new(alloc);
    value.put_number_if("height", area.map(|area| u64::from(area.height)))?;
    value.put_number("size", u64::from(size))?;
    value.put("texts", Value::Array(texts))?;
    value.put_number_if("width", area.map(|area| u64::from(area.width)))?;
    Ok(value.into_value())
}

/// The numbers of the kinds of the objects.
fn kinds_value(alloc: Global, report: &Report<'_>) -> Result<Value, AllocError> {
    let mut kinds = Vec::new(alloc);
    for number in 0..=u8::MAX {
        if let Some(kind) = Kind::from_number(number)
            && has_kind(&report.source.inspection.objects, kind)
        {
            let mut value = JsonLine::new(alloc);
            value.put_text("kind", kind)?;
            value.put_number("number", u64::from(number))?;
            kinds.push(value.into_value())?;
        }
    }
    Ok(Value::Array(kinds))
}
