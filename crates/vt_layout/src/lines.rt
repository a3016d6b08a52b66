//! Writes the line of each kind of element.

ghost use Rattle.std.specs.Prelude.{◌≡◌, ◌++◌, [], if◌then◌else◌, Some, OnOk, codes};
ghost use Rattle.std.specs.Fmt.{decimal};
ghost use Rattle.vt_kinds.specs.declared.object.Object.TheVariants as objects;
ghost use Rattle.vt_kinds.specs.Records.{seen};
ghost use Rattle.vt_layout.specs.Lines.{line_of, described, switched, positioned, size_text, number_text, coded};
ghost use Rattle.vt_machine.specs.OperatorActions.{is_enabled};

use crate::element::Element;
use crate::texts::{
    write_box, write_button, write_code, write_decision, write_number, write_positioned,
    write_quoted, write_shown, write_value,
};
use crate::values::text_shown;
use std::alloc::AllocError;
use vt_objects::{
    ArchedBar, InputBoolean, InputList, InputNumber, InputString, Key, Line, LinearBar, Meter,
    Object, OutputNumber, OutputString, Store, push_number,
};
use vt_shown::number_shown;

/// Writes the line of an element.
pub(crate) fn write_line<S: Store>(
    text: &mut Vec<u8>,
    store: &S,
    element: Element,
    object: &Object<Vec<u8>>,
) -> Result<(), AllocError>
    ensures { OnOk result (text.new.items ≡ text.old.items ++ line_of (S.contents store.now) element (Some (seen object.now))) }
{
    describe(text, store, element, object)?;
    if is_disabled(object) {
        text.extend_from_slice(b" off")?;
    }
    text.extend_from_slice(b"\n")
}

fn is_disabled(object: &Object<Vec<u8>>) -> bool
    ensures { switched (is_enabled (Some (seen object.now))) ≡ if result then codes " off" else [] }
{
    match object {
        Object::InputBoolean(o) => o.enabled == 0,
        Object::InputString(o) => o.enabled == 0,
        Object::InputNumber(o) => o.options_two % 2 == 0,
        Object::InputList(o) => o.options % 2 == 0,
        _ => false,
    }
}

/// Writes the line of an element, without `off` and the newline.
fn describe<S: Store>(
    text: &mut Vec<u8>,
    store: &S,
    element: Element,
    object: &Object<Vec<u8>>,
) -> Result<(), AllocError>
    ensures { OnOk result (text.new.items ≡ text.old.items ++ described (S.contents store.now) element (Some (seen object.now))) }
{
    match object {
        Object::WorkingSet(_) => write_positioned(text, b"workset", element),
        Object::Container(o) => write_box(text, b"container", element, o.width, o.height),
        Object::Key(o) => describe_key(text, element, o),
        Object::Button(o) => write_button(text, element, o.width, o.height, o.key_code),
        Object::InputBoolean(o) => describe_boolean(text, store, element, o),
        Object::InputString(o) => describe_input(text, store, element, o),
        Object::InputNumber(o) => describe_input_number(text, store, element, o),
        Object::InputList(o) => describe_list(text, store, element, o),
        Object::OutputString(o) => describe_text(text, store, element, o),
        Object::OutputNumber(o) => describe_output_number(text, store, element, o),
        Object::Line(o) => describe_direction(text, element, o),
        Object::Rectangle(o) => write_box(text, b"rectangle", element, o.width, o.height),
        Object::Ellipse(o) => write_box(text, b"ellipse", element, o.width, o.height),
        Object::Polygon(o) => write_box(text, b"polygon", element, o.width, o.height),
        Object::Meter(o) => describe_meter(text, store, element, o),
        Object::LinearBar(o) => describe_linear_bar(text, store, element, o),
        Object::ArchedBar(o) => describe_arched_bar(text, store, element, o),
        Object::Picture(o) => describe_picture(text, element, o.width),
        _ => Ok(()),
    }
}

/// Writes the line of a key. A key's position is the index in its soft key mask.
fn describe_key(text: &mut Vec<u8>, element: Element, o: &Key) -> Result<(), AllocError>
    ensures { OnOk result (text.new.items ≡ text.old.items ++ (codes "key " ++ (decimal element.id ++ (number_text element.place ++ coded o.now.key_code)))) }
{
    push_number(text, b"key ", element.id.raw())?;
    push_number(text, b" ", element.place)?;
    write_code(text, o.key_code)
}

/// Writes the line of a Line object, with its direction.
fn describe_direction(text: &mut Vec<u8>, element: Element, o: &Line) -> Result<(), AllocError>
    ensures { OnOk result (text.new.items ≡ text.old.items ++ (positioned (codes "line") element ++ (size_text o.now.width o.now.height ++ number_text o.now.direction))) }
{
    write_box(text, b"line", element, o.width, o.height)?;
    write_number(text, u32::from(o.direction))
}

/// Writes the line of a picture, with its displayed width.
fn describe_picture(text: &mut Vec<u8>, element: Element, width: u16) -> Result<(), AllocError>
    ensures { OnOk result (text.new.items ≡ text.old.items ++ (positioned (codes "picture") element ++ number_text width)) }
{
    write_positioned(text, b"picture", element)?;
    write_number(text, u32::from(width))
}

/// Writes the line of an Input Boolean.
fn describe_boolean<S: Store>(
    text: &mut Vec<u8>,
    store: &S,
    element: Element,
    o: &InputBoolean,
) -> Result<(), AllocError>
    ensures { OnOk result (text.new.items ≡ text.old.items ++ described (S.contents store.now) element (Some (objects.InputBoolean o.now))) }
{
    write_positioned(text, b"boolean", element)?;
    let value = number_shown(store, o.variable, u32::from(o.value));
    write_decision(text, value)
}

/// Writes the line of an Input String.
fn describe_input<S: Store>(
    text: &mut Vec<u8>,
    store: &S,
    element: Element,
    o: &InputString<Vec<u8>>,
) -> Result<(), AllocError>
    ensures { OnOk result (text.new.items ≡ text.old.items ++ described (S.contents store.now) element (Some (seen (objects.InputString o.now)))) }
{
    write_positioned(text, b"input", element)?;
    write_quoted(text, text_shown(store, o.variable, o.text.as_slice()))
}

/// Writes the line of an Output String.
fn describe_text<S: Store>(
    text: &mut Vec<u8>,
    store: &S,
    element: Element,
    o: &OutputString<Vec<u8>>,
) -> Result<(), AllocError>
    ensures { OnOk result (text.new.items ≡ text.old.items ++ described (S.contents store.now) element (Some (seen (objects.OutputString o.now)))) }
{
    write_positioned(text, b"text", element)?;
    write_quoted(text, text_shown(store, o.variable, o.text.as_slice()))
}

/// Writes the line of an Input Number.
fn describe_input_number<S: Store>(
    text: &mut Vec<u8>,
    store: &S,
    element: Element,
    o: &InputNumber,
) -> Result<(), AllocError>
    ensures { OnOk result (text.new.items ≡ text.old.items ++ described (S.contents store.now) element (Some (objects.InputNumber o.now))) }
{
    write_positioned(text, b"number", element)?;
    let value = number_shown(store, o.variable, o.value);
    write_shown(text, value, o.offset, o.scale, o.decimals)
}

/// Writes the line of an Output Number.
fn describe_output_number<S: Store>(
    text: &mut Vec<u8>,
    store: &S,
    element: Element,
    o: &OutputNumber,
) -> Result<(), AllocError>
    ensures { OnOk result (text.new.items ≡ text.old.items ++ described (S.contents store.now) element (Some (objects.OutputNumber o.now))) }
{
    write_positioned(text, b"value", element)?;
    let value = number_shown(store, o.variable, o.value);
    write_shown(text, value, o.offset, o.scale, o.decimals)
}

/// Writes the line of an Input List, with the index of its current item.
fn describe_list<S: Store>(
    text: &mut Vec<u8>,
    store: &S,
    element: Element,
    o: &InputList,
) -> Result<(), AllocError>
    ensures { OnOk result (text.new.items ≡ text.old.items ++ described (S.contents store.now) element (Some (objects.InputList o.now))) }
{
    write_positioned(text, b"list", element)?;
    write_value(text, number_shown(store, o.variable, u32::from(o.value)))
}

/// Writes the line of a meter, with its value.
fn describe_meter<S: Store>(
    text: &mut Vec<u8>,
    store: &S,
    element: Element,
    o: &Meter,
) -> Result<(), AllocError>
    ensures { OnOk result (text.new.items ≡ text.old.items ++ described (S.contents store.now) element (Some (objects.Meter o.now))) }
{
    write_positioned(text, b"meter", element)?;
    write_value(text, number_shown(store, o.variable, u32::from(o.value)))
}

/// Writes the line of a linear bar graph, with its value and its target.
fn describe_linear_bar<S: Store>(
    text: &mut Vec<u8>,
    store: &S,
    element: Element,
    o: &LinearBar,
) -> Result<(), AllocError>
    ensures { OnOk result (text.new.items ≡ text.old.items ++ described (S.contents store.now) element (Some (objects.LinearBar o.now))) }
{
    write_box(text, b"bar", element, o.width, o.height)?;
    write_value(text, number_shown(store, o.variable, u32::from(o.value)))?;
    let target = number_shown(store, o.target_variable, u32::from(o.target));
    write_value(text, target)
}

/// Writes the line of an arched bar graph, with its value and its target.
fn describe_arched_bar<S: Store>(
    text: &mut Vec<u8>,
    store: &S,
    element: Element,
    o: &ArchedBar,
) -> Result<(), AllocError>
    ensures { OnOk result (text.new.items ≡ text.old.items ++ described (S.contents store.now) element (Some (objects.ArchedBar o.now))) }
{
    write_box(text, b"arch", element, o.width, o.height)?;
    write_value(text, number_shown(store, o.variable, u32::from(o.value)))?;
    let target = number_shown(store, o.target_variable, u32::from(o.target));
    write_value(text, target)
}
