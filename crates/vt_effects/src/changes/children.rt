//! Change Child Location and Change Child Position.

ghost use Rattle.std.specs.Prelude.{◌≡◌, ◌==◌, ◌&&◌, not, false, IfSome, IfNone, IsTrue, IsFalse};
ghost use Rattle.vt_kinds.specs.Records.{seen};
ghost use Rattle.vt_effects.specs.Changes as changes;
ghost use Rattle.vt_effects.specs.Changes.{HasResult, left, in_parent, child_at, placed, fits_record, is_position};

use crate::error;
use vt_kinds::{Child, Entries, Kind, Object, ObjectId};

/// Moves every entry of a child by `dx` and `dy`, each minus 127. `kind_of_other` is the kind of the child, or `None` if missing.
pub(crate) fn change_location(
    object: &mut Object<Vec<u8>>,
    kind_of_other: Option<Kind>,
    child: ObjectId,
    dx: u8,
    dy: u8,
) -> Result<(), u8>
    ensures result { HasResult result (in_parent (changes.change_location kind_of_other child dx dy) (seen object.old)) }
    ensures object { seen object.new ≡ left (seen object.old) (in_parent (changes.change_location kind_of_other child dx dy) (seen object.old)) }
{
    match object {
        Object::WorkingSet(parent) => shift(&mut parent.children, kind_of_other, child, dx, dy),
        Object::DataMask(parent) => shift(&mut parent.children, kind_of_other, child, dx, dy),
        Object::AlarmMask(parent) => shift(&mut parent.children, kind_of_other, child, dx, dy),
        Object::Container(parent) => shift(&mut parent.children, kind_of_other, child, dx, dy),
        Object::Key(parent) => shift(&mut parent.children, kind_of_other, child, dx, dy),
        Object::Button(parent) => shift(&mut parent.children, kind_of_other, child, dx, dy),
        _ => Err(error::OBJECT),
    }
}

/// Moves every entry of a child to the position of `entry`. `kind_of_other` is the kind of the child, or `None` if missing.
pub(crate) fn change_position(
    object: &mut Object<Vec<u8>>,
    kind_of_other: Option<Kind>,
    entry: &Child,
) -> Result<(), u8>
    ensures result { HasResult result (in_parent (changes.change_position kind_of_other entry.now.id entry.now.x entry.now.y) (seen object.old)) }
    ensures object { seen object.new ≡ left (seen object.old) (in_parent (changes.change_position kind_of_other entry.now.id entry.now.x entry.now.y) (seen object.old)) }
{
    match object {
        Object::WorkingSet(parent) => place(&mut parent.children, kind_of_other, entry),
        Object::DataMask(parent) => place(&mut parent.children, kind_of_other, entry),
        Object::AlarmMask(parent) => place(&mut parent.children, kind_of_other, entry),
        Object::Container(parent) => place(&mut parent.children, kind_of_other, entry),
        Object::Key(parent) => place(&mut parent.children, kind_of_other, entry),
        Object::Button(parent) => place(&mut parent.children, kind_of_other, entry),
        _ => Err(error::OBJECT),
    }
}

fn shift(
    children: &mut Entries<Child>,
    kind_of_other: Option<Kind>,
    child: ObjectId,
    dx: u8,
    dy: u8,
) -> Result<(), u8>
    ensures result { HasResult result (changes.change_location kind_of_other child dx dy children.old) }
    ensures children { children.new ≡ left children.old (changes.change_location kind_of_other child dx dy children.old) }
{
    if kind_of_other.is_none() {
        return Err(error::CHILD);
    }
    if !stands_in(child, children) {
        return Err(error::OBJECT);
    }
    if leaves(child, dx, dy, children) {
        return Err(error::OTHER);
    }
    for index in 0..children.len() {
        let entry = children.as_slice()[usize::from(index)];
        children.set(index, shifted_child(entry, child, dx, dy));
    }
    Ok(())
}

/// Moves every entry of a child to the position of `entry`.
fn place(
    children: &mut Entries<Child>,
    kind_of_other: Option<Kind>,
    entry: &Child,
) -> Result<(), u8>
    ensures result { HasResult result (changes.change_position kind_of_other entry.now.id entry.now.x entry.now.y children.old) }
    ensures children { children.new ≡ left children.old (changes.change_position kind_of_other entry.now.id entry.now.x entry.now.y children.old) }
{
    if kind_of_other.is_none() {
        return Err(error::CHILD);
    }
    let child = entry.id;
    if !stands_in(child, children) {
        return Err(error::OBJECT);
    }
    for index in 0..children.len() {
        let old = children.as_slice()[usize::from(index)];
        children.set(index, placed_child(old, entry));
    }
    Ok(())
}

/// Whether a child is among the entries.
fn stands_in(child: ObjectId, children: &Entries<Child>) -> bool
    ensures { result ≡ changes.stands_in child children.now }
{
    children.as_slice().iter().any(|entry| entry.id == child)
}

/// Whether an entry of the child would get a position outside the range of a record.
fn leaves(child: ObjectId, dx: u8, dy: u8, children: &Entries<Child>) -> bool
    ensures { result ≡ changes.leaves child dx dy children.now }
{
    children.as_slice().iter().any(|entry| entry.id == child && shifted(*entry, dx, dy).is_none())
}

/// Returns an entry, moved if it is of the child.
fn shifted_child(entry: Child, child: ObjectId, dx: u8, dy: u8) -> Child
    requires { (entry.id == child && not (fits_record (changes.moved_child dx dy entry))) ≡ false }
    ensures { result ≡ child_at child (changes.moved_child dx dy) entry }
{
    if entry.id != child {
        return entry;
    }
    match shifted(entry, dx, dy) {
        Some(moved) => moved,
        None => entry,
    }
}

/// Returns `entry` if both entries are of the same child, or else the old one.
fn placed_child(old: Child, entry: &Child) -> Child
    ensures { result ≡ child_at entry.now.id (placed entry.now.x entry.now.y) old }
{
    if old.id == entry.id { *entry } else { old }
}

/// Returns a moved entry, or `None` if its position would be outside the range of a record.
fn shifted(entry: Child, dx: u8, dy: u8) -> Option<Child>
    ensures some { IfSome result (λ child. (child ≡ changes.moved_child dx dy entry) × IsTrue (fits_record child)) }
    ensures none { IfNone result (IsFalse (fits_record (changes.moved_child dx dy entry))) }
{
    match (moved(entry.x, dx), moved(entry.y, dy)) {
        (Some(x), Some(y)) => Some(Child { id: entry.id, x, y }),
        _ => None,
    }
}

/// Moves a position by a number of pixels minus 127. Returns `None` outside the range of a record.
fn moved(x: i16, by: u8) -> Option<i16>
    ensures moved { IfSome result (λ y. y ≡ changes.moved x by) }
    ensures some { IfSome result (λ y. IsTrue (is_position y)) }
    ensures none { IfNone result (IsFalse (is_position (changes.moved x by))) }
{
    match i16::try_from(i32::from(x) + i32::from(by) - 127) {
        Ok(y) => Some(y),
        Err(_) => None,
    }
}
