//! Reads the records of output shapes.

ghost use Rattle.std.specs.Prelude.{◌≡◌, ◌≤◌, length, IfOk};
ghost use Rattle.vt_kinds.specs.Records.{fields_of, values_of, kind_of};
ghost use Rattle.vt_kinds.specs.declared.kind.Kind.TheVariants as kinds;
ghost use Rattle.vt_records.specs.Heads.{Reads, fields_at};
ghost use Rattle.vt_records.specs.TableReads.{head_size};

use crate::entry::entries;
use crate::reader::Reader;
use crate::record_fault::RecordFault;
use std::alloc::Global;
use vt_kinds::{Ellipse, Line, Object, Polygon, Rectangle};

pub fn read_line<'a>(
    alloc: Global,
    reader: &mut Reader<'a>,
) -> Result<Object<&'a [u8]>, RecordFault>
    requires { head_size (fields_of kinds.Line) ≤ length reader.old }
    ensures read { Reads (λ o. (values_of o, reader.new)) result (fields_at (fields_of kinds.Line) reader.old) }
    ensures kind { IfOk result (λ o. kind_of o ≡ kinds.Line) }
{
    let line_attributes = reader.id();
    let width = reader.u16();
    let height = reader.u16();
    let direction = reader.u8();
    let macro_count = reader.u8();
    let macros = entries(alloc, reader, macro_count)?;
    Ok(Object::Line(Line {
        line_attributes,
        width,
        height,
        direction,
        macros,
    }))
}

pub fn read_rectangle<'a>(
    alloc: Global,
    reader: &mut Reader<'a>,
) -> Result<Object<&'a [u8]>, RecordFault>
    requires { head_size (fields_of kinds.Rectangle) ≤ length reader.old }
    ensures read { Reads (λ o. (values_of o, reader.new)) result (fields_at (fields_of kinds.Rectangle) reader.old) }
    ensures kind { IfOk result (λ o. kind_of o ≡ kinds.Rectangle) }
{
    let line_attributes = reader.id();
    let width = reader.u16();
    let height = reader.u16();
    let suppression = reader.u8();
    let fill = reader.id();
    let macro_count = reader.u8();
    let macros = entries(alloc, reader, macro_count)?;
    Ok(Object::Rectangle(Rectangle {
        line_attributes,
        width,
        height,
        suppression,
        fill,
        macros,
    }))
}

pub fn read_ellipse<'a>(
    alloc: Global,
    reader: &mut Reader<'a>,
) -> Result<Object<&'a [u8]>, RecordFault>
    requires { head_size (fields_of kinds.Ellipse) ≤ length reader.old }
    ensures read { Reads (λ o. (values_of o, reader.new)) result (fields_at (fields_of kinds.Ellipse) reader.old) }
    ensures kind { IfOk result (λ o. kind_of o ≡ kinds.Ellipse) }
{
    let line_attributes = reader.id();
    let width = reader.u16();
    let height = reader.u16();
    let ellipse_type = reader.u8();
    let start = reader.u8();
    let end = reader.u8();
    let fill = reader.id();
    let macro_count = reader.u8();
    let macros = entries(alloc, reader, macro_count)?;
    Ok(Object::Ellipse(Ellipse {
        line_attributes,
        width,
        height,
        ellipse_type,
        start,
        end,
        fill,
        macros,
    }))
}

pub fn read_polygon<'a>(
    alloc: Global,
    reader: &mut Reader<'a>,
) -> Result<Object<&'a [u8]>, RecordFault>
    requires { head_size (fields_of kinds.Polygon) ≤ length reader.old }
    ensures read { Reads (λ o. (values_of o, reader.new)) result (fields_at (fields_of kinds.Polygon) reader.old) }
    ensures kind { IfOk result (λ o. kind_of o ≡ kinds.Polygon) }
{
    let width = reader.u16();
    let height = reader.u16();
    let line_attributes = reader.id();
    let fill = reader.id();
    let polygon_type = reader.u8();
    let point_count = reader.u8();
    let macro_count = reader.u8();
    let points = entries(alloc, reader, point_count)?;
    let macros = entries(alloc, reader, macro_count)?;
    Ok(Object::Polygon(Polygon {
        width,
        height,
        line_attributes,
        fill,
        polygon_type,
        points,
        macros,
    }))
}
