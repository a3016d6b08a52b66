//! The objects that need the most of a terminal.

ghost use Rattle.std.specs.Prelude.{◌≡◌, max};
ghost use Rattle.vt_kinds.specs.Records.{seen};
ghost use Rattle.check_needs.specs.Needers as needers;
ghost use Rattle.check_needs.specs.Needs as spec;

use crate::elements::element;
use crate::needs::{colour_of, key_children, key_count, mask_children};
use crate::warning::PlacedElement;
use vt_objects::{Child, Object, ObjectId, SortedStore};

/// The objects that need the most of a terminal. Of several that need as much it is the first, and `None` stands for no need.
#[derive(Clone, Copy, PartialEq, Eq)]
pub struct Needers {
    /// The children of masks.
    pub mask: Furthest,
    /// The children of keys.
    pub key: Furthest,
    /// The soft key mask with the most keys, and their number.
    pub keys: Option<NumberOf>,
    /// The object with the greatest colour number, and this number.
    pub colour: Option<NumberOf>,
}

/// The children that reach the furthest.
#[derive(Clone, Copy, PartialEq, Eq)]
pub struct Furthest {
    /// To the right.
    pub right: Option<PlacedElement>,
    /// Down.
    pub down: Option<PlacedElement>,
}

/// An object, and a number of it.
#[derive(Clone, Copy, PartialEq, Eq)]
pub struct NumberOf {
    /// The ID of the object.
    pub id: ObjectId,
    /// The number.
    pub number: u8,
}

const NONE_FURTHEST: Furthest = Furthest {
    right: None,
    down: None,
};

/// The objects whose needs are those of the pool (docs/PROFILE.md, "Needs").
pub fn needers_of(objects: &SortedStore) -> Needers
    ensures { needers.numbers_of result ≡ spec.needs_of objects.now }
{
    let mut found = Needers {
        mask: NONE_FURTHEST,
        key: NONE_FURTHEST,
        keys: None,
        colour: None,
    };
    for (id, object) in objects.entries() {
        found = both(found, needers_at(objects, *id, object));
    }
    found
}

/// Those that need more, each of two.
fn both(a: Needers, b: Needers) -> Needers
    ensures { needers.numbers_of result ≡ spec.both (needers.numbers_of a) (needers.numbers_of b) }
{
    Needers {
        mask: both_furthest(a.mask, b.mask),
        key: both_furthest(a.key, b.key),
        keys: greater(a.keys, b.keys),
        colour: greater(a.colour, b.colour),
    }
}

fn both_furthest(a: Furthest, b: Furthest) -> Furthest
    ensures { needers.reach result ≡ spec.both_extents (needers.reach a) (needers.reach b) }
{
    Furthest {
        right: further_right(a.right, b.right),
        down: further_down(a.down, b.down),
    }
}

fn further_right(a: Option<PlacedElement>, b: Option<PlacedElement>) -> Option<PlacedElement>
    ensures { (spec.ends_of result).width ≡ max (spec.ends_of a).width (spec.ends_of b).width }
{
    if right_end(&b) > right_end(&a) { b } else { a }
}

fn further_down(a: Option<PlacedElement>, b: Option<PlacedElement>) -> Option<PlacedElement>
    ensures { (spec.ends_of result).height ≡ max (spec.ends_of a).height (spec.ends_of b).height }
{
    if lower_end(&b) > lower_end(&a) { b } else { a }
}

/// The right end of an element; 0 if it ends before the area, or if there is no element.
fn right_end(element: &Option<PlacedElement>) -> u64
    ensures { result ≡ (spec.ends_of element.now).width }
{
    match element {
        None => 0,
        Some(element) => end(element.x, element.width),
    }
}

/// The lower end of an element; 0 if it ends before the area, or if there is no element.
fn lower_end(element: &Option<PlacedElement>) -> u64
    ensures { result ≡ (spec.ends_of element.now).height }
{
    match element {
        None => 0,
        Some(element) => end(element.y, element.height),
    }
}

fn end(position: i16, size: u32) -> u64
    ensures { result ≡ spec.end_of position size }
{
    if position < 0 {
        u64::from(size).saturating_sub(u64::from(position.unsigned_abs()))
    } else {
        u64::from(size) + u64::from(position.unsigned_abs())
    }
}

fn greater(a: Option<NumberOf>, b: Option<NumberOf>) -> Option<NumberOf>
    ensures { needers.number_in result ≡ max (needers.number_in a) (needers.number_in b) }
{
    if number_in(&b) > number_in(&a) { b } else { a }
}

fn number_in(found: &Option<NumberOf>) -> u8
    ensures { result ≡ needers.number_in found.now }
{
    match found {
        None => 0,
        Some(found) => found.number,
    }
}

/// What of one object needs the most.
fn needers_at(objects: &SortedStore, id: ObjectId, object: &Object<Vec<u8>>) -> Needers
    ensures { needers.numbers_of result ≡ spec.needs_at objects.now (seen object.now) }
{
    Needers {
        mask: furthest_of(objects, id, mask_children(object)),
        key: furthest_of(objects, id, key_children(object)),
        keys: number_of(id, key_count(object)),
        colour: number_of(id, colour_of(object)),
    }
}

/// A number of an object, unless it is 0.
fn number_of(id: ObjectId, number: u8) -> Option<NumberOf>
    ensures { needers.number_in result ≡ number }
{
    match number {
        0 => None,
        number => Some(NumberOf { id, number }),
    }
}

/// The children of an object that reach the furthest.
fn furthest_of(objects: &SortedStore, parent: ObjectId, children: &[Child]) -> Furthest
    ensures { needers.reach result ≡ spec.extent_needed objects.now children.now }
{
    let mut found = NONE_FURTHEST;
    let mut index = 0u8;
    for child in children {
        let at_child = reach_of(objects, parent, index, *child);
        found = both_furthest(found, at_child);
        index = index.saturating_add(1);
    }
    found
}

/// The element of a child, to the right and down.
fn reach_of(objects: &SortedStore, parent: ObjectId, index: u8, child: Child) -> Furthest
    ensures { needers.reach result ≡ spec.ends_in objects.now child }
{
    let right = element(objects, parent, index, child);
    let down = right;
    Furthest { right, down }
}
