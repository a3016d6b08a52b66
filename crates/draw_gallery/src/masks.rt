//! The masks of a pool, and those that are drawn.

ghost use Rattle.std.specs.Prelude.{◌≡◌, ◌++◌, None, Some, IfOk, OnOk};
ghost use Rattle.std.specs.List.{Contains};
ghost use Rattle.std.specs.Option.{option_map};
ghost use Rattle.draw_gallery.specs.Masks as spec;

use crate::refusal::NotDrawn;
use std::alloc::{AllocError, Global};
use vt_objects::{Kind, Kinds, Object, ObjectId, SortedStore};

/// The data masks and alarm masks of a pool, by rising ID.
pub fn masks_of(alloc: Global, objects: &SortedStore) -> Result<Vec<ObjectId>, AllocError>
    ensures { IfOk result (λ masks. masks.items ≡ spec.masks_of objects.now) }
{
    let mut masks = Vec::new(alloc);
    for (id, object) in objects.entries() {
        put_mask(*id, object.kind(), &mut masks)?;
    }
    Ok(masks)
}

/// Appends the ID of a data mask or an alarm mask.
fn put_mask(id: ObjectId, kind: Kind, masks: &mut Vec<ObjectId>) -> Result<(), AllocError>
    ensures { OnOk result (masks.new.items ≡ masks.old.items ++ spec.mask_of id kind) }
{
    if Kinds::Masks.contains(kind) {
        masks.push(id)?;
    }
    Ok(())
}

/// The first of the masks of a pool.
pub(crate) fn first_mask(masks: &[ObjectId]) -> Result<ObjectId, NotDrawn> {
    match masks.first() {
        Some(mask) => Ok(*mask),
        None => Err(NotDrawn::NoMasks),
    }
}

/// The mask of an ID, among the masks of a pool.
pub(crate) fn named_mask(masks: &[ObjectId], id: ObjectId) -> Result<ObjectId, NotDrawn>
    ensures is { IfOk result (λ mask. mask ≡ id) }
    ensures among { IfOk result (λ mask. Contains masks.now mask) }
{
    first_mask(masks)?;
    if masks.contains(&id) {
        Ok(id)
    } else {
        Err(NotDrawn::NoMask(id))
    }
}

/// The active mask of the working set, among the masks of a pool. If the pool has several working sets, the last of them counts.
pub(crate) fn active_mask(masks: &[ObjectId], objects: &SortedStore) -> Result<ObjectId, NotDrawn>
    ensures active { IfOk result (λ mask. option_map (λ found. found.1) (spec.last_set None objects.now) ≡ Some mask) }
    ensures among { IfOk result (λ mask. Contains masks.now mask) }
{
    first_mask(masks)?;
    let Some((set, mask)) = last_set(objects) else {
        return Err(NotDrawn::NoWorkingSet);
    };
    if masks.contains(&mask) {
        Ok(mask)
    } else {
        Err(NotDrawn::NotActive { set, mask })
    }
}

/// The last working set of a pool, and its active mask.
fn last_set(objects: &SortedStore) -> Option<(ObjectId, ObjectId)>
    ensures { result ≡ spec.last_set None objects.now }
{
    let mut last = None;
    for (id, object) in objects.entries() {
        if let Object::WorkingSet(o) = object {
            last = Some((*id, o.active_mask));
        }
    }
    last
}
