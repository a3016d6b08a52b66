//! The fields of objects, as commands write them.

ghost use Rattle.std.specs.Prelude.{◌≡◌};
ghost use Rattle.vt_kinds.specs.Records.{seen};
ghost use Rattle.vt_effects.specs.Fields.{with_field};

mod attribute_objects;
mod graphs;
mod input_fields;
mod masks;
mod output_fields;
mod shapes;

use attribute_objects::{
    write_fill_attributes, write_font, write_input_attributes, write_line_attributes,
    write_object_pointer,
};
use graphs::{write_arched_bar, write_linear_bar, write_meter};
use input_fields::{write_input_boolean, write_input_list, write_input_number, write_input_string};
use masks::{
    write_alarm_mask, write_button, write_container, write_data_mask, write_key,
    write_soft_key_mask, write_working_set,
};
use output_fields::{write_output_number, write_output_string, write_picture};
use shapes::{write_ellipse, write_line, write_polygon, write_rectangle};
use vt_kinds::{Field, Object};

/// Writes the lowest bytes of a value into a field of an object. Leaves an object without that field unchanged.
pub(crate) fn write_field(object: &mut Object<Vec<u8>>, field: Field, value: u32)
    ensures { seen object.new ≡ with_field field value (seen object.old) }
{
    match object {
        Object::WorkingSet(working_set) => write_working_set(working_set, field, value),
        Object::DataMask(data_mask) => write_data_mask(data_mask, field, value),
        Object::AlarmMask(alarm_mask) => write_alarm_mask(alarm_mask, field, value),
        Object::Container(container) => write_container(container, field, value),
        Object::SoftKeyMask(soft_key_mask) => write_soft_key_mask(soft_key_mask, field, value),
        Object::Key(key) => write_key(key, field, value),
        Object::Button(button) => write_button(button, field, value),
        Object::InputBoolean(input_boolean) => write_input_boolean(input_boolean, field, value),
        Object::InputString(input_string) => write_input_string(input_string, field, value),
        Object::InputNumber(input_number) => write_input_number(input_number, field, value),
        Object::InputList(input_list) => write_input_list(input_list, field, value),
        Object::OutputString(output_string) => write_output_string(output_string, field, value),
        Object::OutputNumber(output_number) => write_output_number(output_number, field, value),
        Object::Picture(picture) => write_picture(picture, field, value),
        Object::Line(line) => write_line(line, field, value),
        Object::Rectangle(rectangle) => write_rectangle(rectangle, field, value),
        Object::Ellipse(ellipse) => write_ellipse(ellipse, field, value),
        Object::Polygon(polygon) => write_polygon(polygon, field, value),
        Object::Meter(meter) => write_meter(meter, field, value),
        Object::LinearBar(linear_bar) => write_linear_bar(linear_bar, field, value),
        Object::ArchedBar(arched_bar) => write_arched_bar(arched_bar, field, value),
        Object::Font(font) => write_font(font, field, value),
        Object::LineAttributes(line_attributes) => write_line_attributes(
            line_attributes,
            field,
            value,
        ),
        Object::FillAttributes(fill_attributes) => write_fill_attributes(
            fill_attributes,
            field,
            value,
        ),
        Object::InputAttributes(input_attributes) => write_input_attributes(
            input_attributes,
            field,
            value,
        ),
        Object::ObjectPointer(object_pointer) => write_object_pointer(object_pointer, field, value),
        Object::NumberVariable(_) | Object::StringVariable(_) | Object::Macro(_) => {}
    }
}
