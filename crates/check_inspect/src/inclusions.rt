//! Rule 5: chains of inclusions.

ghost use Rattle.std.specs.Prelude.{◌≡◌, ◌++◌, map, IfOk, OnOk};
ghost use Rattle.std.specs.Option.{option_to_list};
ghost use Rattle.vt_chains.specs.Depths.{IsClosed};
ghost use Rattle.vt_chains.specs.Inclusions.{included};
ghost use Rattle.vt_stores.specs.Stores.{AreStored, ids, seen_entry};
ghost use Rattle.check_inspect.specs.Findings.{IsDeepest, PutsChain};
ghost use Rattle.check_inspect.specs.Missing.{ClosesObjects, AreMissingIds, empty_at};
ghost use Rattle.check_inspect.specs.References.{missing_at};

use crate::finding::{Finding, ReferenceAt};
use indexmap::IndexSet;
use std::alloc::{AllocError, Global};
use vt_objects::{NumberVariable, Object, ObjectId, SortedStore, Store};
use vt_verify::{Chain, TERMINAL_LIMITS, find_depths};

/// Appends a chain with one inclusion too many, if there is one. `absent` are the slots that refer to missing objects;
/// those include nothing.
pub(crate) fn put_too_deep(
    alloc: Global,
    objects: &SortedStore,
    absent: &[ReferenceAt],
    findings: &mut Vec<Finding>,
) -> Result<(), AllocError>
    requires stored { AreStored objects.now }
    requires absent { absent.now ≡ missing_at objects.now }
    ensures { OnOk result (PutsChain objects.now findings.old.items findings.new.items) }
{
    if let Some(chain) = too_deep(alloc, objects, absent)? {
        findings.push(Finding::TooDeep { chain })?;
    }
    Ok(())
}

/// A chain with one inclusion too many, if there is one.
fn too_deep(
    alloc: Global,
    objects: &SortedStore,
    absent: &[ReferenceAt],
) -> Result<Option<Chain>, AllocError>
    requires stored { AreStored objects.now }
    requires absent { absent.now ≡ missing_at objects.now }
    ensures { IfOk result (λ chain. IsDeepest (included objects.now) (map Finding.TooDeep (option_to_list chain))) }
{
    if absent.is_empty() {
        return deep_chain(alloc, objects);
    }
    let closed = with_missing(alloc, objects, absent)?;
    deep_chain(alloc, &closed)
}

/// A chain with one inclusion too many, if there is one, among objects that include existing objects only.
fn deep_chain(alloc: Global, objects: &SortedStore) -> Result<Option<Chain>, AllocError>
    requires stored { AreStored objects.now }
    requires closed { IsClosed (ids objects.now) (included objects.now) }
    ensures { IfOk result (λ chain. IsDeepest (included objects.now) (map Finding.TooDeep (option_to_list chain))) }
{
    let mut depths = Vec::from_elem(alloc, 0, objects.count())?;
    match find_depths(objects, &mut depths, TERMINAL_LIMITS.inclusions) {
        Ok(()) => Ok(None),
        Err(chain) => Ok(Some(chain)),
    }
}

/// Copies of the objects, with a number variable for each missing one.
fn with_missing(
    alloc: Global,
    objects: &SortedStore,
    absent: &[ReferenceAt],
) -> Result<SortedStore, AllocError>
    requires stored { AreStored objects.now }
    requires absent { absent.now ≡ missing_at objects.now }
    ensures closes { IfOk result (ClosesObjects objects.now) }
    ensures stored { IfOk result AreStored }
{
    let ids = missing_ids(alloc, absent)?;
    let mut entries = copies(alloc, objects)?;
    put_empty(&mut entries, &ids)?;
    SortedStore::from_vec(entries)
}

/// Copies of the objects, by rising ID.
fn copies(
    alloc: Global,
    objects: &SortedStore,
) -> Result<Vec<(ObjectId, Object<Vec<u8>>)>, AllocError>
    ensures { IfOk result (λ entries. map seen_entry entries.items ≡ objects.now) }
{
    let objects = objects.entries();
    let mut entries = Vec::with_capacity(alloc, objects.len())?;
    for (id, object) in objects {
        entries.push((*id, object.copied(alloc)?))?;
    }
    Ok(entries)
}

/// Appends a number variable for each ID: it includes nothing.
fn put_empty(
    entries: &mut Vec<(ObjectId, Object<Vec<u8>>)>,
    ids: &IndexSet<ObjectId>,
) -> Result<(), AllocError>
    ensures { OnOk result (map seen_entry entries.new.items ≡ map seen_entry entries.old.items ++ map empty_at ids.now.keys) }
{
    for place in 0..ids.len() {
        let variable = NumberVariable { value: 0 };
        entries.push((ids[place], Object::NumberVariable(variable)))?;
    }
    Ok(())
}

/// The IDs of missing objects, each once.
fn missing_ids(alloc: Global, absent: &[ReferenceAt]) -> Result<IndexSet<ObjectId>, AllocError>
    ensures { IfOk result (λ ids. AreMissingIds absent.now ids.keys) }
{
    let mut ids = IndexSet::new(alloc);
    for found in absent {
        let id = found.reference.id;
        if id.raw() != ObjectId::NULL.raw() {
            ids.insert(id)?;
        }
    }
    Ok(ids)
}
