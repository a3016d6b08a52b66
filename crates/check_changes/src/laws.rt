//! Theorems about the fields in which two objects differ. Each is the contract of a function with an empty body.

ghost use Rattle.check_changes.specs.Laws.{EachValueIsNamed, EqualObjectsAreUnchanged, UnchangedRecordsAreEqual};

/// Two objects of one kind for which no field is named have the same record.
pub fn unchanged_records_are_equal()
    ensures { UnchangedRecordsAreEqual }
{}

/// An object has no changed field if it is compared with itself.
pub fn equal_objects_are_unchanged()
    ensures { EqualObjectsAreUnchanged }
{}

/// A kind has as many names of fields as its objects have values, without the counts, which have no names.
pub fn each_value_is_named()
    ensures { EachValueIsNamed }
{}
