//! Tests of copies and stores with failing allocations: the source is unchanged, and the call may be repeated.

ghost use Rattle.std.specs.Prelude.{◌≡◌, IfOk, map};
ghost use Rattle.vt_stores.specs.Stores.{AreNamed, seen_entry};

use super::object_id;
use std::alloc::Global;
use std::test::Fail;
use vt_objects::{
    Child, Entries, Language, ListStore, LongText, MacroEntry, Object, ObjectId, OutOfMemory,
    SortedStore, Store, StringVariable, WorkingSet,
};

/// The result of a call, which is repeated once after an error.
macro_rules! again {
    ($call:expr) => {
        match $call {
            Ok(done) => Ok(done),
            Err(_) => $call,
        }
    };
}

const MACROS: [MacroEntry; 2] = [
    MacroEntry {
        event: 3,
        macro_id: 0,
    },
    MacroEntry {
        event: 4,
        macro_id: 255,
    },
];

const LANGUAGES: [Language; 1] = [Language {
    first: b'e',
    second: b'n',
}];

fn child(raw: u16, x: i16, y: i16) -> Child {
    let id = object_id(raw);
    Child { id, x, y }
}

fn two_children(alloc: Global) -> Result<Entries<Child>, OutOfMemory> {
    let list = vec![in alloc; child(100, 10, 5), child(101, -1, i16::MIN)]?;
    Ok(Entries::from_vec(list))
}

/// A Working Set with children, macros and languages.
fn working_set(alloc: Global) -> Result<Object<Vec<u8>>, OutOfMemory> {
    Ok(Object::WorkingSet(WorkingSet {
        colour: 1,
        selectable: 0,
        active_mask: object_id(1000),
        children: two_children(alloc)?,
        macros: Entries::from_vec(MACROS.to_vec(alloc)?),
        languages: Entries::from_vec(LANGUAGES.to_vec(alloc)?),
    }))
}

fn text(alloc: Global) -> Result<Object<Vec<u8>>, OutOfMemory> {
    let text = Vec::from_slice(alloc, b"8 km/h")?;
    Ok(Object::StringVariable(StringVariable {
        text: LongText::new(text),
    }))
}

/// A String Variable and a Working Set with the IDs 7 and 0.
fn two_objects(alloc: Global) -> Result<Vec<(ObjectId, Object<Vec<u8>>)>, OutOfMemory>
    ensures { IfOk result (λ objects. AreNamed (map seen_entry objects.items)) }
{
    let first = (object_id(7), text(alloc)?);
    let second = (object_id(0), working_set(alloc)?);
    Ok(vec![in alloc; first, second]?)
}

fn is_working_set(object: &Object<Vec<u8>>) -> bool {
    match object {
        Object::WorkingSet(set) => {
            set.children.as_slice() == [child(100, 10, 5), child(101, -1, i16::MIN)].as_slice()
                && set.macros.as_slice() == MACROS.as_slice()
                && set.languages.as_slice() == LANGUAGES.as_slice()
        }
        _ => false,
    }
}

fn is_text(object: &Object<Vec<u8>>) -> bool {
    match object {
        Object::StringVariable(variable) => variable.text.as_slice() == b"8 km/h".as_slice(),
        _ => false,
    }
}

/// Whether each object is copied completely.
fn are_copied(alloc: Global, objects: &[(ObjectId, Object<Vec<u8>>)]) -> Result<bool, OutOfMemory> {
    let mut same = true;
    for (_, object) in objects {
        let copy = again!(object.copied(alloc))?;
        same = same && (is_working_set(&copy) || is_text(&copy)) && copy.kind() == object.kind();
    }
    Ok(same)
}

/// Whether a store has copies of the two objects, by rising ID.
fn are_stored<S: Store>(
    alloc: Global,
    objects: &[(ObjectId, Object<Vec<u8>>)],
) -> Result<bool, OutOfMemory>
    requires { AreNamed (map seen_entry objects.now) }
{
    let store = again!(S::from_objects(alloc, objects))?;
    match (store.entry_at(0), store.entry_at(1)) {
        (Some((first, set)), Some((second, text))) => {
            let are_by_id = first.raw() == 0 && second.raw() == 7 && store.count() == 2;
            Ok(are_by_id && is_working_set(set) && is_text(text))
        }
        _ => Ok(false),
    }
}

#[test]
fn want_of_memory(rt: HostRuntime) -> Result<(), Fail> {
    let objects = again!(two_objects(rt.alloc()))?;
    assert!(rt; are_copied(rt.alloc(), &objects)?);
    assert!(rt; are_stored::<ListStore>(rt.alloc(), &objects)?);
    assert!(rt; are_stored::<SortedStore>(rt.alloc(), &objects)?);
    Ok(())
}
