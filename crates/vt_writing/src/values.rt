//! The values of an object's record, in order.

ghost use Rattle.std.specs.Prelude.{◌≡◌, ◌≤◌, ℕ, List, length};
ghost use Rattle.vt_kinds.specs.Records.{seen, seen_input_string, seen_output_string, seen_picture, seen_string_variable, seen_input_attributes, seen_macro_object};
ghost use Rattle.vt_kinds.specs.Tables.{working_set, data_mask, alarm_mask, container, soft_key_mask, key, button, input_boolean, input_string, input_number, input_list, output_string, output_number, line, rectangle, ellipse, polygon, meter, linear_bar, arched_bar, picture, number_variable, string_variable, font, line_attributes, fill_attributes, input_attributes, object_pointer, macro_object};
ghost use Rattle.vt_writing.specs.Values.{AreValuesOf, AreValuesIn};

use crate::value::Value;
use arrayvec::ArrayVec;
use std::convert::AsSlice;
use vt_kinds::{
    AlarmMask, ArchedBar, Button, Container, DataMask, Ellipse, FillAttributes, Font,
    InputAttributes, InputBoolean, InputList, InputNumber, InputString, Key, Line, LineAttributes,
    LinearBar, Macro, Meter, NumberVariable, Object, ObjectPointer, OutputNumber, OutputString,
    Picture, Polygon, Rectangle, SoftKeyMask, StringVariable, WorkingSet,
};

/// The values of an object's record. An Input Number has the most, 17.
pub type Values<'a> = ArrayVec<Value<'a>, 17>;

/// Lists values, each given by its variant and what it holds.
macro_rules! values {
    ($($variant:ident $held:expr),+) => {
        list(&[$(Value::$variant($held)),+])
    };
}

/// The values of an object's record, in order, after its ID and type.
pub fn values_of<B: AsSlice<u8>>(object: &Object<B>) -> Values<'_>
    ensures { AreValuesOf (seen object.now) result.items }
{
    match object {
        Object::WorkingSet(o) => working_set(o),
        Object::DataMask(o) => data_mask(o),
        Object::AlarmMask(o) => alarm_mask(o),
        Object::Container(o) => container(o),
        Object::SoftKeyMask(o) => soft_key_mask(o),
        Object::Key(o) => key(o),
        Object::Button(o) => button(o),
        Object::InputBoolean(o) => input_boolean(o),
        Object::InputString(o) => input_string(o),
        Object::InputNumber(o) => input_number(o),
        Object::InputList(o) => input_list(o),
        Object::OutputString(o) => output_string(o),
        Object::OutputNumber(o) => output_number(o),
        Object::Line(o) => line(o),
        Object::Rectangle(o) => rectangle(o),
        Object::Ellipse(o) => ellipse(o),
        Object::Polygon(o) => polygon(o),
        Object::Meter(o) => meter(o),
        Object::LinearBar(o) => linear_bar(o),
        Object::ArchedBar(o) => arched_bar(o),
        Object::Picture(o) => picture(o),
        Object::NumberVariable(o) => number_variable(o),
        Object::StringVariable(o) => string_variable(o),
        Object::Font(o) => font(o),
        Object::LineAttributes(o) => line_attributes(o),
        Object::FillAttributes(o) => fill_attributes(o),
        Object::InputAttributes(o) => input_attributes(o),
        Object::ObjectPointer(o) => object_pointer(o),
        Object::Macro(o) => macro_object(o),
    }
}

fn working_set(o: &WorkingSet) -> Values<'_>
    ensures { AreValuesIn working_set o.now result.items }
{
    values![
        Byte o.colour, Byte o.selectable, Word o.active_mask.raw(), ObjectCount o.children.len(),
        MacroCount o.macros.len(), Count o.languages.len(), Children o.children.as_slice(),
        Macros o.macros.as_slice(), Languages o.languages.as_slice()
    ]
}

fn data_mask(o: &DataMask) -> Values<'_>
    ensures { AreValuesIn data_mask o.now result.items }
{
    values![
        Byte o.colour, Word o.soft_key_mask.raw(), ObjectCount o.children.len(),
        MacroCount o.macros.len(), Children o.children.as_slice(), Macros o.macros.as_slice()
    ]
}

fn alarm_mask(o: &AlarmMask) -> Values<'_>
    ensures { AreValuesIn alarm_mask o.now result.items }
{
    values![
        Byte o.colour, Word o.soft_key_mask.raw(), Byte o.priority, Byte o.acoustic,
        ObjectCount o.children.len(), MacroCount o.macros.len(), Children o.children.as_slice(),
        Macros o.macros.as_slice()
    ]
}

fn container(o: &Container) -> Values<'_>
    ensures { AreValuesIn container o.now result.items }
{
    values![
        Word o.width, Word o.height, Byte o.hidden, ObjectCount o.children.len(),
        MacroCount o.macros.len(), Children o.children.as_slice(), Macros o.macros.as_slice()
    ]
}

fn soft_key_mask(o: &SoftKeyMask) -> Values<'_>
    ensures { AreValuesIn soft_key_mask o.now result.items }
{
    values![
        Byte o.colour, ObjectCount o.keys.len(), MacroCount o.macros.len(),
        Keys o.keys.as_slice(), Macros o.macros.as_slice()
    ]
}

fn key(o: &Key) -> Values<'_>
    ensures { AreValuesIn key o.now result.items }
{
    values![
        Byte o.colour, Byte o.key_code, ObjectCount o.children.len(), MacroCount o.macros.len(),
        Children o.children.as_slice(), Macros o.macros.as_slice()
    ]
}

fn button(o: &Button) -> Values<'_>
    ensures { AreValuesIn button o.now result.items }
{
    values![
        Word o.width, Word o.height, Byte o.colour, Byte o.border, Byte o.key_code,
        Byte o.options, ObjectCount o.children.len(), MacroCount o.macros.len(),
        Children o.children.as_slice(), Macros o.macros.as_slice()
    ]
}

fn input_boolean(o: &InputBoolean) -> Values<'_>
    ensures { AreValuesIn input_boolean o.now result.items }
{
    values![
        Byte o.colour, Word o.width, Word o.font.raw(), Word o.variable.raw(), Byte o.value, Byte o.enabled,
        MacroCount o.macros.len(), Macros o.macros.as_slice()
    ]
}

fn input_string<B: AsSlice<u8>>(o: &InputString<B>) -> Values<'_>
    ensures { AreValuesIn (input_string {B = List ℕ}) (seen_input_string o.now) result.items }
{
    values![
        Word o.width, Word o.height, Byte o.colour, Word o.font.raw(), Word o.input_attributes.raw(),
        Byte o.options, Word o.variable.raw(), Byte o.justification,
        Count o.text.as_slice().len() as u8, Bytes o.text.as_slice(), Byte o.enabled,
        MacroCount o.macros.len(), Macros o.macros.as_slice()
    ]
}

fn input_number(o: &InputNumber) -> Values<'_>
    ensures { AreValuesIn input_number o.now result.items }
{
    values![
        Word o.width, Word o.height, Byte o.colour, Word o.font.raw(), Byte o.options, Word o.variable.raw(),
        Long o.value, Long o.min, Long o.max, SignedLong o.offset, Scale o.scale,
        Decimals o.decimals, Byte o.format, Byte o.justification, Byte o.options_two,
        MacroCount o.macros.len(), Macros o.macros.as_slice()
    ]
}

fn input_list(o: &InputList) -> Values<'_>
    ensures { AreValuesIn input_list o.now result.items }
{
    values![
        Word o.width, Word o.height, Word o.variable.raw(), Byte o.value, Count o.items.len(),
        Byte o.options, MacroCount o.macros.len(), Items o.items.as_slice(),
        Macros o.macros.as_slice()
    ]
}

fn output_string<B: AsSlice<u8>>(o: &OutputString<B>) -> Values<'_>
    ensures { AreValuesIn (output_string {B = List ℕ}) (seen_output_string o.now) result.items }
{
    values![
        Word o.width, Word o.height, Byte o.colour, Word o.font.raw(), Byte o.options, Word o.variable.raw(),
        Byte o.justification, LongCount o.text.as_slice().len() as u16, Bytes o.text.as_slice(),
        MacroCount o.macros.len(), Macros o.macros.as_slice()
    ]
}

fn output_number(o: &OutputNumber) -> Values<'_>
    ensures { AreValuesIn output_number o.now result.items }
{
    values![
        Word o.width, Word o.height, Byte o.colour, Word o.font.raw(), Byte o.options, Word o.variable.raw(),
        Long o.value, SignedLong o.offset, Scale o.scale, Decimals o.decimals, Byte o.format,
        Byte o.justification, MacroCount o.macros.len(), Macros o.macros.as_slice()
    ]
}

fn line(o: &Line) -> Values<'_>
    ensures { AreValuesIn line o.now result.items }
{
    values![
        Word o.line_attributes.raw(), Word o.width, Word o.height, Byte o.direction,
        MacroCount o.macros.len(), Macros o.macros.as_slice()
    ]
}

fn rectangle(o: &Rectangle) -> Values<'_>
    ensures { AreValuesIn rectangle o.now result.items }
{
    values![
        Word o.line_attributes.raw(), Word o.width, Word o.height, Byte o.suppression, Word o.fill.raw(),
        MacroCount o.macros.len(), Macros o.macros.as_slice()
    ]
}

fn ellipse(o: &Ellipse) -> Values<'_>
    ensures { AreValuesIn ellipse o.now result.items }
{
    values![
        Word o.line_attributes.raw(), Word o.width, Word o.height, Byte o.ellipse_type, Byte o.start,
        Byte o.end, Word o.fill.raw(), MacroCount o.macros.len(), Macros o.macros.as_slice()
    ]
}

fn polygon(o: &Polygon) -> Values<'_>
    ensures { AreValuesIn polygon o.now result.items }
{
    values![
        Word o.width, Word o.height, Word o.line_attributes.raw(), Word o.fill.raw(), Byte o.polygon_type,
        Count o.points.len(), MacroCount o.macros.len(), Points o.points.as_slice(),
        Macros o.macros.as_slice()
    ]
}

fn meter(o: &Meter) -> Values<'_>
    ensures { AreValuesIn meter o.now result.items }
{
    values![
        Word o.width, Byte o.needle_colour, Byte o.border_colour, Byte o.arc_colour,
        Byte o.options, Byte o.ticks, Byte o.start, Byte o.end, Word o.min, Word o.max,
        Word o.variable.raw(), Word o.value, MacroCount o.macros.len(), Macros o.macros.as_slice()
    ]
}

fn linear_bar(o: &LinearBar) -> Values<'_>
    ensures { AreValuesIn linear_bar o.now result.items }
{
    values![
        Word o.width, Word o.height, Byte o.colour, Byte o.target_colour, Byte o.options,
        Byte o.ticks, Word o.min, Word o.max, Word o.variable.raw(), Word o.value, Word o.target_variable.raw(),
        Word o.target, MacroCount o.macros.len(), Macros o.macros.as_slice()
    ]
}

fn arched_bar(o: &ArchedBar) -> Values<'_>
    ensures { AreValuesIn arched_bar o.now result.items }
{
    values![
        Word o.width, Word o.height, Byte o.colour, Byte o.target_colour, Byte o.options,
        Byte o.start, Byte o.end, Word o.bar_width, Word o.min, Word o.max, Word o.variable.raw(),
        Word o.value, Word o.target_variable.raw(), Word o.target, MacroCount o.macros.len(),
        Macros o.macros.as_slice()
    ]
}

fn picture<B: AsSlice<u8>>(o: &Picture<B>) -> Values<'_>
    ensures { AreValuesIn (picture {B = List ℕ}) (seen_picture o.now) result.items }
{
    values![
        Word o.width, Word o.actual_width, Word o.actual_height, Byte o.format, Byte o.options,
        Byte o.transparency, PictureCount o.bytes.as_slice().len() as u32,
        MacroCount o.macros.len(), Bytes o.bytes.as_slice(), Macros o.macros.as_slice()
    ]
}

fn number_variable(o: &NumberVariable) -> Values<'_>
    ensures { AreValuesIn number_variable o.now result.items }
{
    values![Long o.value]
}

fn string_variable<B: AsSlice<u8>>(o: &StringVariable<B>) -> Values<'_>
    ensures { AreValuesIn (string_variable {B = List ℕ}) (seen_string_variable o.now) result.items }
{
    values![LongCount o.text.as_slice().len() as u16, Bytes o.text.as_slice()]
}

fn font(o: &Font) -> Values<'_>
    ensures { AreValuesIn font o.now result.items }
{
    values![
        Byte o.colour, Byte o.size, Byte o.font_type, Byte o.style, MacroCount o.macros.len(),
        Macros o.macros.as_slice()
    ]
}

fn line_attributes(o: &LineAttributes) -> Values<'_>
    ensures { AreValuesIn line_attributes o.now result.items }
{
    values![
        Byte o.colour, Byte o.width, Word o.line_art, MacroCount o.macros.len(),
        Macros o.macros.as_slice()
    ]
}

fn fill_attributes(o: &FillAttributes) -> Values<'_>
    ensures { AreValuesIn fill_attributes o.now result.items }
{
    values![
        Byte o.fill_type, Byte o.colour, Word o.pattern.raw(), MacroCount o.macros.len(),
        Macros o.macros.as_slice()
    ]
}

fn input_attributes<B: AsSlice<u8>>(o: &InputAttributes<B>) -> Values<'_>
    ensures { AreValuesIn (input_attributes {B = List ℕ}) (seen_input_attributes o.now) result.items }
{
    values![
        Byte o.validation_type, Count o.text.as_slice().len() as u8, Bytes o.text.as_slice(),
        MacroCount o.macros.len(), Macros o.macros.as_slice()
    ]
}

fn object_pointer(o: &ObjectPointer) -> Values<'_>
    ensures { AreValuesIn object_pointer o.now result.items }
{
    values![Word o.value.raw()]
}

fn macro_object<B: AsSlice<u8>>(o: &Macro<B>) -> Values<'_>
    ensures { AreValuesIn (macro_object {B = List ℕ}) (seen_macro_object o.now) result.items }
{
    values![LongCount o.bytes.as_slice().len() as u16, Bytes o.bytes.as_slice()]
}

/// The list of these values.
fn list<'a>(values: &[Value<'a>]) -> Values<'a>
    requires { length values.now ≤ 17 }
    ensures { result.items ≡ values.now }
{
    let mut list = Values::new();
    if list.try_extend_from_slice(values).is_err() {
        unreachable!()
    }
    list
}
