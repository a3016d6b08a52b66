//! Finds the working set of a pool.

ghost use Rattle.std.specs.Prelude.{◌≡◌, Some, IfSome, IfNone, map};
ghost use Rattle.std.specs.Option.{option_map};
ghost use Rattle.vt_kinds.specs.declared.kind.Kind.TheVariants as kinds;
ghost use Rattle.vt_kinds.specs.Records.{kind_of};
ghost use Rattle.vt_stores.specs.Stores.{AreStored, seen_entry, object_at};
ghost use Rattle.vt_verify.specs.Rules as rules;
ghost use Rattle.vt_verify.specs.Rules.{working_sets};
ghost use Rattle.vt_stores.specs.Shapes.{shape_of};

use vt_objects::{Kind, Object, ObjectId};

/// The first Working Set of some objects, or `None`.
pub(crate) fn working_set(objects: &[(ObjectId, Object<Vec<u8>>)]) -> Option<ObjectId>
    requires { AreStored (map seen_entry objects.now) }
    ensures some { IfSome result (λ id. option_map kind_of (object_at (map seen_entry objects.now) id) ≡ Some kinds.WorkingSet) }
    ensures none { IfNone result (working_sets (shape_of (map seen_entry objects.now)) ≡ 0) }
{
    for (id, object) in objects {
        if is_working_set(object) {
            return Some(*id);
        }
    }
    None
}

fn is_working_set(object: &Object<Vec<u8>>) -> bool
    ensures { result ≡ rules.is_working_set (kind_of object.now) }
{
    object.kind() == Kind::WorkingSet
}
