//! Fields of each kind, with what they show.

ghost use Rattle.std.specs.Prelude.{◌≡◌, ◌≤◌, ◌++◌, OnOk};
ghost use Rattle.std.specs.FinMap as finite;
ghost use Rattle.std.specs.Option.{option_map};
ghost use Rattle.vt_kinds.specs.Records.{seen_input_string, seen_output_string};
ghost use Rattle.vt_layout.specs.Lines.{text_shown};
ghost use Rattle.draw_svg.specs.Elements.{text_of};
ghost use Rattle.draw_shapes.specs.Texts as fields;

use crate::bits::has_bit;
use crate::shapes::fields::{Field, Look, draw_field, look_of};
use check_needs::Area;
use draw_svg::{Attribute, Element, Paint, SvgPoint, along};
use std::alloc::AllocError;
use vt_objects::{
    Decimal, InputBoolean, InputList, InputNumber, InputString, Object, ObjectId, OutputNumber,
    OutputString, Store,
};
use vt_shown::number_shown;

/// The border of an input: blue if it is enabled, and else grey.
fn input_border(is_disabled: bool) -> Paint
    ensures { result ≡ fields.input_border is_disabled }
{
    Paint::Colour(if is_disabled { 8 } else { 9 })
}

/// The text that an object shows: that of its variable, if it has one. `None` if the variable is missing, which a store in order rules
/// out.
pub fn text_shown<'a, S: Store>(store: &'a S, variable: ObjectId, own: &'a [u8]) -> Option<&'a [u8]>
    ensures { option_map (λ text. text.now) result ≡ text_shown (S.contents store.now) variable own.now }
{
    if variable.is_null() {
        return Some(own);
    }
    let Some(Object::StringVariable(o)) = store.get(variable) else {
        return None;
    };
    Some(o.text.as_slice())
}

pub(crate) fn draw_input_string<S: Store>(
    out: &mut Vec<u8>,
    store: &S,
    o: &InputString<Vec<u8>>,
) -> Result<(), AllocError>
    ensures { OnOk result (out.new.items ≡ out.old.items ++ text_of (fields.input_string_shapes (S.contents store.now) (seen_input_string o.now))) }
{
    let field = Field {
        area: Area {
            width: o.width,
            height: o.height,
        },
        colour: o.colour,
        is_transparent: has_bit(o.options, 0),
        wraps: has_bit(o.options, 1),
        justification: o.justification,
        border: input_border(o.enabled == 0),
    };
    let shown = text_shown(store, o.variable, o.text.as_slice());
    draw_field(out, look_of(store, o.font), field, shown)
}

pub(crate) fn draw_output_string<S: Store>(
    out: &mut Vec<u8>,
    store: &S,
    o: &OutputString<Vec<u8>>,
) -> Result<(), AllocError>
    ensures { OnOk result (out.new.items ≡ out.old.items ++ text_of (fields.output_string_shapes (S.contents store.now) (seen_output_string o.now))) }
{
    let field = Field {
        area: Area {
            width: o.width,
            height: o.height,
        },
        colour: o.colour,
        is_transparent: has_bit(o.options, 0),
        wraps: has_bit(o.options, 1),
        justification: o.justification,
        border: Paint::None,
    };
    let shown = text_shown(store, o.variable, o.text.as_slice());
    draw_field(out, look_of(store, o.font), field, shown)
}

pub(crate) fn draw_input_number<S: Store>(
    out: &mut Vec<u8>,
    store: &S,
    o: &InputNumber,
) -> Result<(), AllocError>
    ensures { OnOk result (out.new.items ≡ out.old.items ++ text_of (fields.input_number_shapes (S.contents store.now) o.now)) }
{
    let field = Field {
        area: Area {
            width: o.width,
            height: o.height,
        },
        colour: o.colour,
        is_transparent: has_bit(o.options, 0),
        wraps: false,
        justification: o.justification,
        border: input_border(o.options_two % 2 == 0),
    };
    let look = look_of(store, o.font);
    let Some(value) = number_shown(store, o.variable, o.value) else {
        return draw_field(out, look, field, None);
    };
    let number = Decimal {
        value,
        offset: o.offset,
        scale: o.scale,
        decimals: o.decimals,
    };
    draw_field(out, look, field, Some(number.shown().as_str().as_bytes()))
}

pub(crate) fn draw_output_number<S: Store>(
    out: &mut Vec<u8>,
    store: &S,
    o: &OutputNumber,
) -> Result<(), AllocError>
    ensures { OnOk result (out.new.items ≡ out.old.items ++ text_of (fields.output_number_shapes (S.contents store.now) o.now)) }
{
    let field = Field {
        area: Area {
            width: o.width,
            height: o.height,
        },
        colour: o.colour,
        is_transparent: has_bit(o.options, 0),
        wraps: false,
        justification: o.justification,
        border: Paint::None,
    };
    let look = look_of(store, o.font);
    let Some(value) = number_shown(store, o.variable, o.value) else {
        return draw_field(out, look, field, None);
    };
    let number = Decimal {
        value,
        offset: o.offset,
        scale: o.scale,
        decimals: o.decimals,
    };
    draw_field(out, look, field, Some(number.shown().as_str().as_bytes()))
}

/// Draws the area of an input list. Its item is an element within it.
pub(crate) fn draw_input_list(out: &mut Vec<u8>, o: &InputList) -> Result<(), AllocError>
    ensures { OnOk result (out.new.items ≡ out.old.items ++ text_of (fields.input_list_shapes o.now)) }
{
    let field = Field {
        area: Area {
            width: o.width,
            height: o.height,
        },
        colour: 0,
        is_transparent: true,
        wraps: false,
        justification: 0,
        border: input_border(o.options % 2 == 0),
    };
    draw_field(out, None, field, None)
}

pub(crate) fn draw_input_boolean<S: Store>(
    out: &mut Vec<u8>,
    store: &S,
    o: &InputBoolean,
) -> Result<(), AllocError>
    ensures { OnOk result (out.new.items ≡ out.old.items ++ text_of (fields.input_boolean_shapes (S.contents store.now) o.now)) }
{
    let field = Field {
        area: Area {
            width: o.width,
            height: o.width,
        },
        colour: o.colour,
        is_transparent: false,
        wraps: false,
        justification: 0,
        border: input_border(o.enabled == 0),
    };
    draw_field(out, None, field, None)?;
    let value = number_shown(store, o.variable, u32::from(o.value));
    draw_if_true(out, look_of(store, o.font), o.width, value)
}

fn draw_if_true(
    out: &mut Vec<u8>,
    look: Option<Look>,
    width: u16,
    value: Option<u32>,
) -> Result<(), AllocError>
    ensures { OnOk result (out.new.items ≡ out.old.items ++ text_of (fields.check_mark_if look width value)) }
{
    match value {
        None | Some(0) => Ok(()),
        Some(_) => draw_check_mark(out, look, u32::from(width)),
    }
}

/// Draws a check mark in a square.
fn draw_check_mark(out: &mut Vec<u8>, look: Option<Look>, width: u32) -> Result<(), AllocError>
    requires { width ≤ 65535 }
    ensures { OnOk result (out.new.items ≡ out.old.items ++ text_of (fields.check_mark look width)) }
{
    along(
        out,
        Element::Polyline,
        &[
            Attribute::Fill(Paint::None),
            Attribute::Stroke(Paint::Colour(colour_of(look))),
            Attribute::StrokeWidth(width / 10 + 1),
        ],
        &[
            SvgPoint {
                x: width / 5,
                y: width / 2,
            },
            SvgPoint {
                x: width * 9 / 20,
                y: width * 3 / 4,
            },
            SvgPoint {
                x: width * 17 / 20,
                y: width / 4,
            },
        ],
    )
}

/// The colour of a font's characters. Black without a font.
fn colour_of(look: Option<Look>) -> u8
    ensures { result ≡ fields.colour_of look }
{
    match look {
        Some(look) => look.colour,
        None => 0,
    }
}
