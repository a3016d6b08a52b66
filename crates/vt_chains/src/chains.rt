//! The search for the depths of objects and for too long chains of inclusions.

ghost use Rattle.std.specs.Prelude.{◌≡◌, ◌≢◌, ◌≤◌, ◌<◌, ◌+◌, ℕ, IfOk, IfErr, IfSome, IfNone, OnOk, length, slice_index, Contains, Some};
ghost use Rattle.std.specs.FinMap as finite;
ghost use Rattle.vt_kinds.specs.Records.{seen};
ghost use Rattle.vt_stores.specs.Stores.{Objects};
ghost use Rattle.vt_chains.specs.Inclusions.{IsShallow, IsTooDeep, includes};
ghost use Rattle.vt_chains.specs.Depths.{ids_of, inclusions_of, IsIdAt, IsAtDepth, IsBelow, IsClosed, AreDepths, unset, IsDepth, AreDepthsSoFar, KeepsDepths, BeginsChain, IncludesChain};

use arrayvec::ArrayVec;
use vt_kinds::{Object, ObjectId, Place, Slot, slots};
use vt_stores::Store;

/// The IDs of a chain of inclusions: each includes the next. Capacity for 33 inclusions, one over this terminal's limit.
pub type Chain = ArrayVec<ObjectId, 34>;

/// Marks a depth not yet found.
const UNSET: u8 = 255;

/// Finds the depth of each object of a store, by rising ID: the greatest number of inclusions in a chain that begins with
/// it. If there is a chain of `most` + 1 inclusions, returns it instead; the values in `depths` then have no meaning.
/// Visits each object once. docs/PROFILE.md, "Inclusions and chains".
pub fn find_depths<S: Store>(store: &S, depths: &mut [u8], most: u8) -> Result<(), Chain>
    requires each { length depths.old ≡ length (ids_of (S.contents store.now)) }
    requires closed { IsClosed (ids_of (S.contents store.now)) (inclusions_of (S.contents store.now)) }
    requires most { most ≤ 32 }
    ensures ok { OnOk result (AreDepths (ids_of (S.contents store.now)) (inclusions_of (S.contents store.now)) most depths.new) }
    ensures shallow { OnOk result (IsShallow most (inclusions_of (S.contents store.now))) }
    ensures err { IfErr result (λ chain. IsTooDeep most (inclusions_of (S.contents store.now)) chain.items) }
{
    depths.fill(UNSET);
    let mut chain = ArrayVec::new();
    for index in 0..depths.len() {
        if depth_at(store, depths, index, most, &mut chain).is_none() {
            return Err(chain);
        }
    }
    Ok(())
}

/// Finds the depth of the object at an index, or returns none and writes a chain of `most` + 1 inclusions that begins with
/// it. The chain is written where the search began: a copy at each level of the recursion would take more stack than all
/// else in it.
#[cycle(depth)]
#[inline(never)]
fn depth_at<S: Store>(
    store: &S,
    depths: &mut [u8],
    index: usize,
    most: u8,
    chain: &mut Chain,
) -> Option<u8>
    requires found { AreDepthsSoFar (ids_of (S.contents store.now)) (inclusions_of (S.contents store.now)) depths.old }
    requires closed { IsClosed (ids_of (S.contents store.now)) (inclusions_of (S.contents store.now)) }
    requires index { index < length depths.old }
    requires most { most ≤ 32 }
    ensures found { AreDepthsSoFar (ids_of (S.contents store.now)) (inclusions_of (S.contents store.now)) depths.new }
    ensures keeps { KeepsDepths depths.old depths.new }
    ensures within { IfSome result (λ depth. depth ≤ most) }
    ensures some { IfSome result (λ depth. slice_index depths.new index ≡ depth) }
    ensures none { IfNone result ((id : ℕ) → IsIdAt (ids_of (S.contents store.now)) index id → BeginsChain (inclusions_of (S.contents store.now)) id (most + 1) chain.new.items) }
{
    let depth = depths[index];
    if depth == UNSET {
        return depth_of_entry(store, depths, index, most, chain);
    }
    if depth > most {
        write_chain(store, depths, index, most + 1, chain);
        return None;
    }
    Some(depth)
}

/// Finds the depth of the object at an index from the depths of its inclusions.
#[cycle(depth)]
fn depth_of_entry<S: Store>(
    store: &S,
    depths: &mut [u8],
    index: usize,
    most: u8,
    chain: &mut Chain,
) -> Option<u8>
    requires found { AreDepthsSoFar (ids_of (S.contents store.now)) (inclusions_of (S.contents store.now)) depths.old }
    requires closed { IsClosed (ids_of (S.contents store.now)) (inclusions_of (S.contents store.now)) }
    requires index { index < length depths.old }
    requires most { most ≤ 32 }
    ensures found { AreDepthsSoFar (ids_of (S.contents store.now)) (inclusions_of (S.contents store.now)) depths.new }
    ensures keeps { KeepsDepths depths.old depths.new }
    ensures within { IfSome result (λ depth. depth ≤ most) }
    ensures some { IfSome result (λ depth. slice_index depths.new index ≡ depth) }
    ensures none { IfNone result ((id : ℕ) → IsIdAt (ids_of (S.contents store.now)) index id → BeginsChain (inclusions_of (S.contents store.now)) id (most + 1) chain.new.items) }
{
    let (id, object) = entry(store, index);
    match deepest(store, depths, id, object, most, chain) {
        Some(depth) => {
            depths[index] = depth;
            Some(depth)
        }
        None => {
            chain.insert(0, id);
            None
        }
    }
}

/// One more than the greatest depth of an object's inclusions, or none and a chain of `most` inclusions that begins with
/// one of them.
#[cycle(depth)]
fn deepest<S: Store>(
    store: &S,
    depths: &mut [u8],
    id: ObjectId,
    object: &Object<Vec<u8>>,
    most: u8,
    chain: &mut Chain,
) -> Option<u8>
    requires object { finite.get (S.contents store.now) id ≡ Some (seen object.now) }
    requires found { AreDepthsSoFar (ids_of (S.contents store.now)) (inclusions_of (S.contents store.now)) depths.old }
    requires closed { IsClosed (ids_of (S.contents store.now)) (inclusions_of (S.contents store.now)) }
    requires most { most ≤ 32 }
    ensures found { AreDepthsSoFar (ids_of (S.contents store.now)) (inclusions_of (S.contents store.now)) depths.new }
    ensures keeps { KeepsDepths depths.old depths.new }
    ensures within { IfSome result (λ depth. depth ≤ most) }
    ensures some { IfSome result (IsDepth (ids_of (S.contents store.now)) (inclusions_of (S.contents store.now)) depths.new id) }
    ensures none { IfNone result (IncludesChain (inclusions_of (S.contents store.now)) id most chain.new.items) }
{
    let mut deepest = 0;
    for slot in slots(object) {
        if includes(&slot) {
            let depth = depth_of_included(store, depths, slot.id, most, chain)?;
            deepest = deepest.max(depth + 1);
        }
    }
    Some(deepest)
}

/// Finds the depth of an included ID, less than `most`, or none and a chain of `most` inclusions that begins with it. Most
/// depths are known already; one not yet found is 255, above every `most`.
#[cycle(depth)]
#[inline]
fn depth_of_included<S: Store>(
    store: &S,
    depths: &mut [u8],
    id: ObjectId,
    most: u8,
    chain: &mut Chain,
) -> Option<u8>
    requires there { (index : ℕ) × IsIdAt (ids_of (S.contents store.now)) index id }
    requires found { AreDepthsSoFar (ids_of (S.contents store.now)) (inclusions_of (S.contents store.now)) depths.old }
    requires closed { IsClosed (ids_of (S.contents store.now)) (inclusions_of (S.contents store.now)) }
    requires most { most ≤ 32 }
    ensures found { AreDepthsSoFar (ids_of (S.contents store.now)) (inclusions_of (S.contents store.now)) depths.new }
    ensures keeps { KeepsDepths depths.old depths.new }
    ensures within { IfSome result (λ depth. depth < most) }
    ensures some { IfSome result (λ depth. IsAtDepth (ids_of (S.contents store.now)) depths.new id depth) }
    ensures none { IfNone result (BeginsChain (inclusions_of (S.contents store.now)) id most chain.new.items) }
{
    let index = index_of(store, id);
    let depth = depths[index];
    if depth < most {
        return Some(depth);
    }
    if most == 0 {
        chain.clear();
        chain.push(id);
        return None;
    }
    depth_at(store, depths, index, most - 1, chain)
}

/// The index of an ID in the store.
fn index_of<S: Store>(store: &S, id: ObjectId) -> usize
    requires { (index : ℕ) × IsIdAt (ids_of (S.contents store.now)) index id }
    ensures { IsIdAt (ids_of (S.contents store.now)) result id }
{
    match store.place(id) {
        Some(index) => index,
        None => unreachable!(),
    }
}

/// The object at an index, and its ID.
pub fn entry<S: Store>(store: &S, index: usize) -> (ObjectId, &Object<Vec<u8>>)
    requires { index < length (ids_of (S.contents store.now)) }
    ensures stands { IsIdAt (ids_of (S.contents store.now)) index result.0 }
    ensures object { finite.get (S.contents store.now) result.0 ≡ Some (seen result.1.now) }
{
    match store.entry_at(index) {
        Some(entry) => entry,
        None => unreachable!(),
    }
}

/// Writes the chain of `count` inclusions that begins with the object at an index, whose depth is at least `count`. It is
/// not inlined, since its frame would be in each level of the recursion.
#[inline(never)]
fn write_chain<S: Store>(store: &S, depths: &[u8], index: usize, count: u8, chain: &mut Chain)
    requires found { AreDepthsSoFar (ids_of (S.contents store.now)) (inclusions_of (S.contents store.now)) depths.now }
    requires closed { IsClosed (ids_of (S.contents store.now)) (inclusions_of (S.contents store.now)) }
    requires index { index < length depths.now }
    requires is_found { slice_index depths.now index ≢ unset }
    requires deep { count ≤ slice_index depths.now index }
    requires count { count ≤ 33 }
    ensures { (id : ℕ) → IsIdAt (ids_of (S.contents store.now)) index id → BeginsChain (inclusions_of (S.contents store.now)) id count chain.new.items }
{
    let mut index = index;
    chain.clear();
    chain.push(entry(store, index).0);
    for step in 0..count {
        index = next(store, depths, index, count - 1 - step);
        chain.push(entry(store, index).0);
    }
}

/// The index of an inclusion of the object at an index, with at least this depth.
fn next<S: Store>(store: &S, depths: &[u8], index: usize, depth: u8) -> usize
    requires found { AreDepthsSoFar (ids_of (S.contents store.now)) (inclusions_of (S.contents store.now)) depths.now }
    requires closed { IsClosed (ids_of (S.contents store.now)) (inclusions_of (S.contents store.now)) }
    requires index { index < length depths.now }
    requires is_found { slice_index depths.now index ≢ unset }
    requires deep { depth < slice_index depths.now index }
    ensures next { (id : ℕ) → IsIdAt (ids_of (S.contents store.now)) index id → (other : ℕ) × Contains (inclusions_of (S.contents store.now) id) other × IsIdAt (ids_of (S.contents store.now)) result other }
    ensures deep { depth ≤ slice_index depths.now result }
    ensures found { slice_index depths.now result ≢ unset }
{
    let (_, object) = entry(store, index);
    for slot in slots(object) {
        if includes(&slot) {
            let next = index_of(store, slot.id);
            if depths[next] >= depth {
                return next;
            }
        }
    }
    unreachable!()
}

/// Whether a slot is an inclusion: a child, key, item or pointer value other than NULL.
fn includes(slot: &Slot) -> bool
    ensures { result ≡ includes slot.now }
{
    let is_inclusion = matches!(
        slot.place,
        Place::Child(_) | Place::Key(_) | Place::Item(_) | Place::Value
    );
    is_inclusion && !slot.id.is_null()
}
