//! The variables from which objects take their numbers.

use check_values::RangedField;
use vt_objects::{Object, ObjectId};

/// The variable of the value or the target of an object; NULL if the number is its own.
pub(crate) fn variable_of(object: &Object<Vec<u8>>, field: RangedField) -> ObjectId {
    let (value, target) = match object {
        Object::InputNumber(o) => (o.variable, ObjectId::NULL),
        Object::InputList(o) => (o.variable, ObjectId::NULL),
        Object::Meter(o) => (o.variable, ObjectId::NULL),
        Object::LinearBar(o) => (o.variable, o.target_variable),
        Object::ArchedBar(o) => (o.variable, o.target_variable),
        Object::WorkingSet(_)
        | Object::DataMask(_)
        | Object::AlarmMask(_)
        | Object::Container(_)
        | Object::SoftKeyMask(_)
        | Object::Key(_)
        | Object::Button(_)
        | Object::InputBoolean(_)
        | Object::InputString(_)
        | Object::OutputString(_)
        | Object::OutputNumber(_)
        | Object::Line(_)
        | Object::Rectangle(_)
        | Object::Ellipse(_)
        | Object::Polygon(_)
        | Object::Picture(_)
        | Object::NumberVariable(_)
        | Object::StringVariable(_)
        | Object::Font(_)
        | Object::LineAttributes(_)
        | Object::FillAttributes(_)
        | Object::InputAttributes(_)
        | Object::ObjectPointer(_)
        | Object::Macro(_) => (ObjectId::NULL, ObjectId::NULL),
    };
    match field {
        RangedField::Value => value,
        RangedField::Target => target,
    }
}
