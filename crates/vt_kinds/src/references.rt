//! The references of an object, listed in order.

ghost use Rattle.std.specs.Prelude.{◌≡◌, ◌≤◌, Some, []};
ghost use Rattle.vt_kinds.specs.References.{slot, slots_of};
ghost use Rattle.vt_kinds.specs.RemainingSlots.{prepended, listed_from, entries_left};

use crate::id::ObjectId;
use crate::kind::Kind;
use crate::object::Object;
use crate::place::Place;
use crate::slot::{Listed, Slot, Slots};
use std::convert::AsSlice;

/// Returns the references of an object: those of its fields, then those of its list entries, in order.
pub fn slots<B: AsSlice<u8>>(object: &Object<B>) -> Slots<'_>
    ensures { result ≡ slots_of object.now }
{
    let kind = object.kind();
    match object {
        Object::WorkingSet(o) => {
            let mask = field(kind, Place::ActiveMask, o.active_mask);
            with_list(kind, mask, Listed::Children(o.children.as_slice()))
        }
        Object::DataMask(o) => {
            let keys = field(kind, Place::SoftKeyMask, o.soft_key_mask);
            with_list(kind, keys, Listed::Children(o.children.as_slice()))
        }
        Object::AlarmMask(o) => {
            let keys = field(kind, Place::SoftKeyMask, o.soft_key_mask);
            with_list(kind, keys, Listed::Children(o.children.as_slice()))
        }
        Object::Container(o) => with_list(kind, None, Listed::Children(o.children.as_slice())),
        Object::SoftKeyMask(o) => with_list(kind, None, Listed::Keys(o.keys.as_slice())),
        Object::Key(o) => with_list(kind, None, Listed::Children(o.children.as_slice())),
        Object::Button(o) => with_list(kind, None, Listed::Children(o.children.as_slice())),
        Object::InputList(o) => {
            let variable = field(kind, Place::Variable, o.variable);
            with_list(kind, variable, Listed::Items(o.items.as_slice()))
        }
        Object::InputBoolean(o) => fields(
            kind,
            field(kind, Place::Font, o.font),
            field(kind, Place::Variable, o.variable),
            None,
        ),
        Object::InputString(o) => fields(
            kind,
            field(kind, Place::Font, o.font),
            field(kind, Place::InputAttributes, o.input_attributes),
            field(kind, Place::Variable, o.variable),
        ),
        Object::InputNumber(o) => fields(
            kind,
            field(kind, Place::Font, o.font),
            field(kind, Place::Variable, o.variable),
            None,
        ),
        Object::OutputString(o) => fields(
            kind,
            field(kind, Place::Font, o.font),
            field(kind, Place::Variable, o.variable),
            None,
        ),
        Object::OutputNumber(o) => fields(
            kind,
            field(kind, Place::Font, o.font),
            field(kind, Place::Variable, o.variable),
            None,
        ),
        Object::Line(o) => fields(
            kind,
            field(kind, Place::LineAttributes, o.line_attributes),
            None,
            None,
        ),
        Object::Rectangle(o) => fields(
            kind,
            field(kind, Place::LineAttributes, o.line_attributes),
            field(kind, Place::Fill, o.fill),
            None,
        ),
        Object::Ellipse(o) => fields(
            kind,
            field(kind, Place::LineAttributes, o.line_attributes),
            field(kind, Place::Fill, o.fill),
            None,
        ),
        Object::Polygon(o) => fields(
            kind,
            field(kind, Place::LineAttributes, o.line_attributes),
            field(kind, Place::Fill, o.fill),
            None,
        ),
        Object::Meter(o) => fields(kind, field(kind, Place::Variable, o.variable), None, None),
        Object::LinearBar(o) => fields(
            kind,
            field(kind, Place::Variable, o.variable),
            field(kind, Place::TargetVariable, o.target_variable),
            None,
        ),
        Object::ArchedBar(o) => fields(
            kind,
            field(kind, Place::Variable, o.variable),
            field(kind, Place::TargetVariable, o.target_variable),
            None,
        ),
        Object::FillAttributes(o) => fields(
            kind,
            field(kind, Place::Pattern, o.pattern),
            None,
            None,
        ),
        Object::ObjectPointer(o) => fields(kind, field(kind, Place::Value, o.value), None, None),
        Object::Picture(_)
        | Object::NumberVariable(_)
        | Object::StringVariable(_)
        | Object::Font(_)
        | Object::LineAttributes(_)
        | Object::InputAttributes(_)
        | Object::Macro(_) => fields(kind, None, None, None),
    }
}

fn field(kind: Kind, place: Place, id: ObjectId) -> Option<Slot>
    ensures { result ≡ Some (slot kind place id) }
{
    Some(Slot::new(kind, place, id))
}

fn fields<'a>(
    kind: Kind,
    first: Option<Slot>,
    second: Option<Slot>,
    third: Option<Slot>,
) -> Slots<'a>
    ensures { result ≡ prepended first (prepended second (prepended third [])) }
{
    Slots::new(kind, first, second, third, Listed::Keys(&[]))
}

fn with_list(kind: Kind, first: Option<Slot>, listed: Listed<'_>) -> Slots<'_>
    requires { entries_left listed ≤ 255 }
    ensures { result ≡ prepended first (listed_from kind 0 listed.entry) }
{
    Slots::new(kind, first, None, None, listed)
}
