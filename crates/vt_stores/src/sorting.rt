//! Copies of objects, and their sort by ID.

ghost use Rattle.std.specs.Prelude.{◌≡◌, IfOk, OnOk, map};
ghost use Rattle.vt_stores.specs.Stores.{AreNamed, AreStored, seen_entry, by_rising_id};

use std::alloc::{AllocError, Global};
use vt_kinds::{Object, ObjectId};

/// Copies objects with their IDs.
pub fn copies(
    alloc: Global,
    objects: &[(ObjectId, Object<Vec<u8>>)],
) -> Result<Vec<(ObjectId, Object<Vec<u8>>)>, AllocError>
    ensures { IfOk result (λ copies. map seen_entry copies.items ≡ map seen_entry objects.now) }
{
    let mut copies = Vec::new(alloc);
    for (id, object) in objects {
        copies.push((*id, object.copied(alloc)?))?;
    }
    Ok(copies)
}

/// Sorts objects by their IDs.
pub fn sort(entries: &mut Vec<(ObjectId, Object<Vec<u8>>)>) -> Result<(), AllocError>
    requires { AreNamed (map seen_entry entries.old.items) }
    ensures stored { OnOk result (AreStored (map seen_entry entries.new.items)) }
    ensures sorted { OnOk result (map seen_entry entries.new.items ≡ by_rising_id (map seen_entry entries.old.items)) }
{
    entries.sort_by_key(|entry| entry.0.raw())?;
    Ok(())
}
