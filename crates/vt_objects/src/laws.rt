//! Theorems about objects and commands. Each is the contract of a function with an empty body.

ghost use Rattle.vt_objects.specs.Decimals.{ShownIsOne};
ghost use Rattle.vt_objects.specs.AttributeFields.{AttributesAreFields};

pub use vt_commands::laws::{cut_is_one, function_is_first};
pub use vt_writing::laws::objects_have_records;

/// The shown text of a number is unique.
pub fn shown_is_one()
    ensures { ShownIsOne }
{}

/// Each attribute of a kind is a field of its record, and Change Attribute stores the value's lowest bytes there.
pub fn attributes_are_fields()
    ensures { AttributesAreFields }
{}
