//! The text of a number or a string.

ghost use Rattle.std.specs.Prelude.{◌≡◌, ◌++◌, [], OnErr, OnOk, unwrap_or};
ghost use Rattle.std.specs.Option.{option_map};
ghost use Rattle.std.specs.FinMap as finite;
ghost use Rattle.vt_kinds.specs.Scales.{scale_places};
ghost use Rattle.vt_shown.specs.ShownElements.{number_shown};
ghost use Rattle.vt_dialogs.specs.Texts.{shown_number, text_in};

use crate::OutOfMemory;
use draw_shapes::text_shown;
use vt_objects::{Decimal, Decimals, Object, ObjectId, Scale, Store};
use vt_shown::number_shown;

/// How a number is shown.
#[derive(Clone, Copy)]
struct Form {
    offset: i32,
    scale: Scale,
    decimals: Decimals,
}

/// Appends the text of an input or output field as the terminal shows it: a number with its offset, scale and decimals, or the whole text
/// of a string, in the bytes of its font. For any other object nothing is appended. After `OutOfMemory` the vector is unchanged.
pub fn write_text<S: Store>(store: &S, id: ObjectId, out: &mut Vec<u8>) -> Result<(), OutOfMemory>
    ensures ok { OnOk result (out.new.items ≡ out.old.items ++ text_in (S.contents store.now) (finite.get (S.contents store.now) id)) }
    ensures err { OnErr result (out.new.items ≡ out.old.items) }
{
    match store.get(id) {
        Some(Object::InputString(o)) => {
            let text = text_shown(store, o.variable, o.text.as_slice());
            out.extend_from_slice(text.unwrap_or(&[]))
        }
        Some(Object::OutputString(o)) => {
            let text = text_shown(store, o.variable, o.text.as_slice());
            out.extend_from_slice(text.unwrap_or(&[]))
        }
        Some(Object::InputNumber(o)) => {
            let form = Form {
                offset: o.offset,
                scale: o.scale,
                decimals: o.decimals,
            };
            write_number(number_shown(store, o.variable, o.value), form, out)
        }
        Some(Object::OutputNumber(o)) => {
            let form = Form {
                offset: o.offset,
                scale: o.scale,
                decimals: o.decimals,
            };
            write_number(number_shown(store, o.variable, o.value), form, out)
        }
        _ => Ok(()),
    }
}

/// Appends a number as it is shown, if there is one.
fn write_number(value: Option<u32>, form: Form, out: &mut Vec<u8>) -> Result<(), OutOfMemory>
    ensures ok { OnOk result (out.new.items ≡ out.old.items ++ shown_number form.offset (scale_places form.scale) form.decimals value) }
    ensures err { OnErr result (out.new.items ≡ out.old.items) }
{
    let Some(value) = value else {
        return Ok(());
    };
    let number = Decimal {
        value,
        offset: form.offset,
        scale: form.scale,
        decimals: form.decimals,
    };
    out.extend_from_slice(number.shown().as_str().as_bytes())
}
