//! The theorem about records. Its function reads the object, so that the checker knows the ranges of its numbers.

ghost use Rattle.std.specs.Prelude.{◌<◌};
ghost use Rattle.vt_kinds.specs.Ids.{null_id};
ghost use Rattle.vt_kinds.specs.Records.{HasRecord, seen};

use crate::value::each_fits;
use crate::values::values_of;
use std::convert::AsSlice;
use vt_kinds::{Object, ObjectId};

/// Theorem: every object has a record under each ID except NULL.
pub fn objects_have_records<B: AsSlice<u8>>(id: ObjectId, object: &Object<B>)
    requires { id < null_id }
    ensures { HasRecord id (seen object.now) }
{
    each_fits(&values_of(object));
}
