//! The limits of an input.

ghost use Rattle.std.specs.Prelude.{◌≡◌, ◌≤◌, Some, length};
ghost use Rattle.std.specs.Option.{option_map};
ghost use Rattle.std.specs.FinMap as finite;
ghost use Rattle.vt_kinds.specs.declared.object.Object.TheVariants as objects;
ghost use Rattle.vt_kinds.specs.Records.{seen};
ghost use Rattle.vt_machine.specs.OperatorEntries.{text_at};
ghost use Rattle.vt_dialogs.specs.Limits.{length_in, limits_in};

use vt_objects::{
    InputBoolean, InputList, InputNumber, InputString, Kind, Object, ObjectId, Store,
};
use vt_shown::number_shown;

/// What an input accepts, and how its number is shown.
#[derive(Clone, Copy, PartialEq, Eq)]
pub struct InputLimits {
    /// The number of its kind: 7 Input Boolean, 8 Input String, 9 Input Number, 10 Input List.
    pub kind: u8,
    /// Whether the operator may enter anything.
    pub enabled: bool,
    /// The decimal places by which the scale moves a number, 0 to 3.
    pub places: u8,
    /// The number of decimals shown, 0 to 7.
    pub decimals: u8,
    /// The number of items of an Input List, or 0.
    pub items: u8,
    /// The most bytes of a text, or 0.
    pub length: u8,
    /// The raw value shown: that of the input, or of its variable.
    pub value: u32,
    /// The least raw value that is accepted.
    pub least: u32,
    /// The greatest raw value that is accepted. It is below `least` if no number is accepted.
    pub greatest: u32,
    /// The number added to a raw value before it is scaled.
    pub offset: i32,
}

/// The limits of the input with an ID, or `None` if no input has it.
pub fn limits_of<S: Store>(store: &S, id: ObjectId) -> Option<InputLimits>
    ensures { result ≡ limits_in (S.contents store.now) (finite.get (S.contents store.now) id) }
{
    match store.get(id) {
        Some(Object::InputBoolean(o)) => Some(of_boolean(store, o)),
        Some(Object::InputString(o)) => Some(of_string(store, o)),
        Some(Object::InputNumber(o)) => Some(of_number(store, o)),
        Some(Object::InputList(o)) => Some(of_list(store, o)),
        _ => None,
    }
}

fn of_boolean<S: Store>(store: &S, o: &InputBoolean) -> InputLimits
    ensures { Some result ≡ limits_in (S.contents store.now) (Some (objects.InputBoolean o.now)) }
{
    let value = number_shown(store, o.variable, u32::from(o.value));
    InputLimits {
        kind: Kind::InputBoolean.number(),
        enabled: o.enabled != 0,
        places: 0,
        decimals: 0,
        items: 0,
        length: 0,
        value: value.unwrap_or(0),
        least: 0,
        greatest: 1,
        offset: 0,
    }
}

fn of_string<S: Store>(store: &S, o: &InputString<Vec<u8>>) -> InputLimits
    ensures { Some result ≡ limits_in (S.contents store.now) (Some (seen (objects.InputString o.now))) }
{
    InputLimits {
        kind: Kind::InputString.number(),
        enabled: o.enabled != 0,
        places: 0,
        decimals: 0,
        items: 0,
        length: length_in(store, o.variable, o.text.as_slice()),
        value: 0,
        least: 1,
        greatest: 0,
        offset: 0,
    }
}

/// The most bytes of a text: those of the input, and of its variable if it has one.
fn length_in<S: Store>(store: &S, variable: ObjectId, own: &[u8]) -> u8
    requires { length own.now ≤ 255 }
    ensures { result ≡ length_in (S.contents store.now) variable own.now }
{
    let most = own.len() as u8;
    if variable.is_null() {
        return most;
    }
    match kept_length(store, variable) {
        Some(kept) if kept < own.len() => kept as u8,
        Some(_) => most,
        None => 0,
    }
}

/// The number of bytes of the text of an input or a variable, if it has one.
fn kept_length<S: Store>(store: &S, id: ObjectId) -> Option<usize>
    ensures { result ≡ option_map length (text_at (S.contents store.now) id) }
{
    match store.get(id) {
        Some(Object::InputString(o)) => Some(o.text.as_slice().len()),
        Some(Object::StringVariable(o)) => Some(o.text.as_slice().len()),
        _ => None,
    }
}

fn of_number<S: Store>(store: &S, o: &InputNumber) -> InputLimits
    ensures { Some result ≡ limits_in (S.contents store.now) (Some (objects.InputNumber o.now)) }
{
    InputLimits {
        kind: Kind::InputNumber.number(),
        enabled: o.options_two % 2 == 1,
        places: o.scale.places(),
        decimals: o.decimals.count(),
        items: 0,
        length: 0,
        value: number_shown(store, o.variable, o.value).unwrap_or(0),
        least: o.min,
        greatest: o.max,
        offset: o.offset,
    }
}

fn of_list<S: Store>(store: &S, o: &InputList) -> InputLimits
    ensures { Some result ≡ limits_in (S.contents store.now) (Some (objects.InputList o.now)) }
{
    let items = o.items.len();
    let value = number_shown(store, o.variable, u32::from(o.value));
    InputLimits {
        kind: Kind::InputList.number(),
        enabled: o.options % 2 == 1,
        places: 0,
        decimals: 0,
        items,
        length: 0,
        value: value.unwrap_or(0),
        least: u32::from(items == 0),
        greatest: u32::from(items.saturating_sub(1)),
        offset: 0,
    }
}
