//! Reading the fields of each kind's record, after its ID and type.

ghost use Rattle.std.specs.Prelude.{◌≡◌, IfOk};
ghost use Rattle.vt_kinds.specs.Records.{fields_of, values_of, kind_of};
ghost use Rattle.vt_records.specs.Heads.{Reads, fields_at};
ghost use Rattle.vt_records.specs.TableReads.{head_size};

mod attribute_objects;
mod graphs;
mod input_fields;
mod keys;
mod macros;
mod masks;
mod output_fields;
mod pictures;
mod shapes;
mod variables;

use crate::reader::Reader;
use crate::record_fault::RecordFault;
use attribute_objects::{
    read_fill_attributes, read_font, read_input_attributes, read_line_attributes,
};
use graphs::{read_arched_bar, read_linear_bar, read_meter};
use input_fields::{read_input_boolean, read_input_list, read_input_number, read_input_string};
use keys::{read_button, read_key, read_soft_key_mask};
use macros::read_macro_object;
use masks::{read_alarm_mask, read_container, read_data_mask, read_working_set};
use output_fields::{read_output_number, read_output_string};
use pictures::read_picture;
use shapes::{read_ellipse, read_line, read_polygon, read_rectangle};
use std::alloc::Global;
use variables::{read_number_variable, read_object_pointer, read_string_variable};
use vt_kinds::{Kind, Object};

/// Reads the fields of an object of this kind.
pub fn read_fields<'a>(
    alloc: Global,
    kind: Kind,
    reader: &mut Reader<'a>,
) -> Result<Object<&'a [u8]>, RecordFault>
    ensures read { Reads (λ o. (values_of o, reader.new)) result (fields_at (fields_of kind) reader.old) }
    ensures kind { IfOk result (λ o. kind_of o ≡ kind) }
{
    reader.need(head_size(kind))?;
    match kind {
        Kind::WorkingSet => read_working_set(alloc, reader),
        Kind::DataMask => read_data_mask(alloc, reader),
        Kind::AlarmMask => read_alarm_mask(alloc, reader),
        Kind::Container => read_container(alloc, reader),
        Kind::SoftKeyMask => read_soft_key_mask(alloc, reader),
        Kind::Key => read_key(alloc, reader),
        Kind::Button => read_button(alloc, reader),
        Kind::InputBoolean => read_input_boolean(alloc, reader),
        Kind::InputString => read_input_string(alloc, reader),
        Kind::InputNumber => read_input_number(alloc, reader),
        Kind::InputList => read_input_list(alloc, reader),
        Kind::OutputString => read_output_string(alloc, reader),
        Kind::OutputNumber => read_output_number(alloc, reader),
        Kind::Line => read_line(alloc, reader),
        Kind::Rectangle => read_rectangle(alloc, reader),
        Kind::Ellipse => read_ellipse(alloc, reader),
        Kind::Polygon => read_polygon(alloc, reader),
        Kind::Meter => read_meter(alloc, reader),
        Kind::LinearBar => read_linear_bar(alloc, reader),
        Kind::ArchedBar => read_arched_bar(alloc, reader),
        Kind::Picture => read_picture(alloc, reader),
        Kind::NumberVariable => read_number_variable(reader),
        Kind::StringVariable => read_string_variable(reader),
        Kind::Font => read_font(alloc, reader),
        Kind::LineAttributes => read_line_attributes(alloc, reader),
        Kind::FillAttributes => read_fill_attributes(alloc, reader),
        Kind::InputAttributes => read_input_attributes(alloc, reader),
        Kind::ObjectPointer => read_object_pointer(reader),
        Kind::Macro => read_macro_object(reader),
    }
}

/// The number of bytes of a record of this kind between its type and its first list or text.
fn head_size(kind: Kind) -> usize
    ensures { result ≡ head_size (fields_of kind) }
{
    match kind {
        Kind::WorkingSet => 7,
        Kind::DataMask => 5,
        Kind::AlarmMask => 7,
        Kind::Container => 7,
        Kind::SoftKeyMask => 3,
        Kind::Key => 4,
        Kind::Button => 10,
        Kind::InputBoolean => 10,
        Kind::InputString => 14,
        Kind::InputNumber => 35,
        Kind::InputList => 10,
        Kind::OutputString => 13,
        Kind::OutputNumber => 26,
        Kind::Line => 8,
        Kind::Rectangle => 10,
        Kind::Ellipse => 12,
        Kind::Polygon => 11,
        Kind::Meter => 18,
        Kind::LinearBar => 21,
        Kind::ArchedBar => 24,
        Kind::Picture => 14,
        Kind::NumberVariable => 4,
        Kind::StringVariable => 2,
        Kind::Font => 5,
        Kind::LineAttributes => 5,
        Kind::FillAttributes => 5,
        Kind::InputAttributes => 2,
        Kind::ObjectPointer => 2,
        Kind::Macro => 2,
    }
}
