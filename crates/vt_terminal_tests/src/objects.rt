//! Tests of both stores: objects are found and changed by their IDs and their places.

ghost use Rattle.std.specs.Prelude.{◌≡◌, IfOk, map};
ghost use Rattle.vt_stores.specs.Stores.{AreNamed, seen_entry};

mod want_of_memory;

use std::alloc::{AllocGlobal, Global};
use std::convert::AsSlice;
use std::process::Abort;
use std::test::Fail;
use vt_objects::*;

fn object_id(raw: u16) -> ObjectId
    ensures { result ≡ raw }
{
    ObjectId::from_raw(raw)
}

fn number<B: AsSlice<u8>>(value: u32) -> Object<B> {
    Object::NumberVariable(NumberVariable { value })
}

/// The value of a Number Variable, or `None` if it is missing.
fn value_of<S: Store>(store: &S, id: u16) -> Option<u32> {
    match store.get(ObjectId::from_raw(id)) {
        Some(Object::NumberVariable(variable)) => Some(variable.value),
        _ => None,
    }
}

/// Sets the value of a Number Variable; false if it is missing.
fn set_value<S: Store>(store: &mut S, id: u16, value: u32) -> bool {
    match store.get_mut(ObjectId::from_raw(id)) {
        Some(Object::NumberVariable(variable)) => {
            variable.value = value;
            true
        }
        _ => false,
    }
}

/// The Number Variables 7, 0 and 65534, with the values 70, 1 and 5.
fn three_numbers(alloc: Global) -> Result<Vec<(ObjectId, Object<Vec<u8>>)>, OutOfMemory>
    ensures { IfOk result (λ objects. AreNamed (map seen_entry objects.items)) }
{
    let middle = (object_id(7), number(70));
    let first = (object_id(0), number(1));
    let last = (object_id(65_534), number(5));
    Ok(vec![in alloc; middle, first, last]?)
}

fn id_at<S: Store>(store: &S, place: usize) -> Option<u16> {
    match store.entry_at(place) {
        None => None,
        Some((id, _)) => Some(id.raw()),
    }
}

/// Each ID with its index and its value after the changes of `expect_numbers`.
const NUMBERS: &[(u16, Option<usize>, Option<u32>)] = &[
    (0, Some(0), Some(2)),
    (7, Some(1), Some(70)),
    (8, None, None),
    (65_534, Some(2), Some(6)),
    (65_535, None, None),
];

/// Each index of a store with its ID.
const PLACES: &[(usize, Option<u16>)] = &[(0, Some(0)), (1, Some(7)), (2, Some(65_534)), (3, None)];

fn has_numbers<S: Store>(store: &S, numbers: &[(u16, Option<usize>, Option<u32>)]) -> bool {
    for (id, place, value) in numbers {
        if value_of(store, *id) != *value || store.place(object_id(*id)) != *place {
            return false;
        }
    }
    true
}

fn has_places<S: Store>(store: &S, places: &[(usize, Option<u16>)]) -> bool {
    for (place, id) in places {
        if id_at(store, *place) != *id {
            return false;
        }
    }
    store.count() == 3
}

/// Finds and changes the three numbers in a store.
fn expect_numbers<S: Store>(rt: &impl Abort, store: &mut S) {
    assert!(rt; set_value(store, 0, 2) && set_value(store, 65_534, 6));
    assert!(rt; !set_value(store, 8, 3) && !set_value(store, 65_535, 3));
    assert!(rt; has_numbers(store, NUMBERS));
    assert!(rt; has_places(store, PLACES));
}

fn changes_numbers<S: Store>(rt: &(impl Abort + AllocGlobal)) -> Result<(), OutOfMemory> {
    let objects = three_numbers(rt.alloc())?;
    let mut store = S::from_objects(rt.alloc(), &objects)?;
    expect_numbers(rt, &mut store);
    Ok(())
}

#[test]
fn both_stores(rt: HostRuntime) -> Result<(), Fail> {
    changes_numbers::<ListStore>(&rt)?;
    changes_numbers::<SortedStore>(&rt)?;
    Ok(())
}
