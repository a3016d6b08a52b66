//! The events at which macros run, by number.

ghost use Rattle.std.specs.Prelude.{◌≡◌, ◌<◌, ◌≤◌, ◌++◌, ℕ, [], map, IfOk, OnOk, false};
ghost use Rattle.vt_kinds.specs.Records.{seen};
ghost use Rattle.vt_rank.specs.Graphs.{lists};
ghost use Rattle.vt_stores.specs.Shapes.{shape_of, fixed};
ghost use Rattle.vt_verify.specs.Triggers.{listing, listing_of, listed, listed_in, run_by_name, macros_at};
ghost use Rattle.vt_verify.specs.TriggerGraphs.{events_in, groups_in, has, if_any, non_empty, listed_events, macros_of_event, AreListings};

use crate::commands::named_macro;
use crate::order::put_macro;
use indexmap::IndexSet;
use std::alloc::{AllocError, Global};
use std::marker::Model;
use vt_objects::{Event, MacroEntry, Object, ObjectId, Raised, SortedStore};

/// An object and the number of an event of it.
#[derive(Clone, Copy, PartialEq, Eq, Hash)]
pub struct Listing {
    /// The object.
    pub id: ObjectId,
    /// The number of the event.
    pub event: u8,
}

impl Listing {
    /// The listing of a raised event, by the event's number.
    pub(crate) fn of(raised: Raised) -> Listing
        ensures { result ≡ listing_of raised }
    {
        Listing {
            id: raised.id,
            event: raised.event.number(),
        }
    }
}

/// The macros that run at the events of objects.
pub struct Listings {
    /// The events at which macros run.
    pub(crate) events: IndexSet<Listing>,
    /// The macros of each event, at its index.
    pub(crate) groups: Vec<Vec<u8>>,
}

// Written by hand, so that the crates above need not prove it again.
impl Drop for Listings {
    fn drop(self) {
        let Listings {
            events: _events,
            groups: _groups,
        } = self;
    }
}

impl Model for Listings {
    ghost use Rattle.vt_rank.specs.Graphs.{lists};
    ghost use Rattle.vt_verify.specs.TriggerGraphs.{Groups};

    ghost Value = { Groups };

    ghost view = { λ l. (l.events.keys, lists l.groups) };
}

impl Listings {
    /// No listings. Allocates nothing.
    pub fn new(alloc: Global) -> Listings
        ensures { result ≡ ([], []) }
    {
        Listings {
            events: IndexSet::new(alloc),
            groups: Vec::new(alloc),
        }
    }

    /// The listings of the objects of a pool.
    pub(crate) fn of_objects(alloc: Global, objects: &SortedStore) -> Result<Listings, AllocError>
        ensures { IfOk result (AreListings (shape_of objects.now)) }
    {
        let (events, groups) = listed_events(alloc, objects)?;
        Ok(Listings { events, groups })
    }

    /// The macros that run at an event of an object, in the order of its list. Empty if the object is missing or `event`
    /// is not an event's number. Event 0 of a macro runs the macro itself.
    pub fn at(&self, id: ObjectId, event: u8) -> &[u8]
        ensures { result.now ≡ macros_of_event self.now (listing id event) }
    {
        match self.events.get_index_of(&Listing { id, event }) {
            Some(place) => match self.groups.get(place) {
                Some(macros) => macros.as_slice(),
                None => &[],
            },
            None => &[],
        }
    }
}

/// The events at which macros run, by rising ID and number, and the macros of each event.
pub(crate) fn listed_events(
    alloc: Global,
    objects: &SortedStore,
) -> Result<(IndexSet<Listing>, Vec<Vec<u8>>), AllocError>
    ensures events { IfOk result (λ r. r.0.keys ≡ listed_events (shape_of objects.now)) }
    ensures groups { IfOk result (λ r. lists r.1 ≡ map (listed (shape_of objects.now)) (listed_events (shape_of objects.now))) }
{
    let mut events = IndexSet::new(alloc);
    let mut groups = Vec::new(alloc);
    for (id, object) in objects.entries() {
        put_listings(alloc, &mut events, &mut groups, *id, object)?;
    }
    Ok((events, groups))
}

/// Appends the events of an object at which macros run, and the macros of each event.
fn put_listings(
    alloc: Global,
    events: &mut IndexSet<Listing>,
    groups: &mut Vec<Vec<u8>>,
    id: ObjectId,
    object: &Object<Vec<u8>>,
) -> Result<(), AllocError>
    requires { (event : ℕ) → has events.old.keys (listing id event) ≡ false }
    ensures events { OnOk result (events.new.keys ≡ events.old.keys ++ events_in id (fixed (seen object.now))) }
    ensures groups { OnOk result (lists groups.new ≡ lists groups.old ++ groups_in id (fixed (seen object.now))) }
{
    let mut event = next_listed(id, object, 0);
    while event <= Event::LAST_NUMBER {
        put_listing(alloc, events, groups, Listing { id, event }, object)?;
        event = next_listed(id, object, event + 1);
    }
    Ok(())
}

/// The first event from `from` on at which macros run; 27 if there is none.
fn next_listed(id: ObjectId, object: &Object<Vec<u8>>, from: u8) -> u8
    requires { from ≤ 27 }
    ensures within { (from ≤ result) × (result ≤ 27) }
    ensures none_before { (event : ℕ) → from ≤ event → event < result → listed_in event id (fixed (seen object.now)) ≡ [] }
{
    if from == 0 && named_macro(id, object).is_some() {
        return 0;
    }
    next_entry(object.macros(), from)
}

/// The least event of the entries from event `from` on; 27 if there is none.
fn next_entry(entries: &[MacroEntry], from: u8) -> u8
    requires { from ≤ 27 }
    ensures within { (from ≤ result) × (result ≤ 27) }
    ensures none_before { (event : ℕ) → from ≤ event → event < result → macros_at event entries.now ≡ [] }
{
    let mut next = Event::LAST_NUMBER + 1;
    for entry in entries {
        if from <= entry.event && entry.event < next {
            next = entry.event;
        }
    }
    next
}

/// Appends an event and its macros, if any macros run at it.
fn put_listing(
    alloc: Global,
    events: &mut IndexSet<Listing>,
    groups: &mut Vec<Vec<u8>>,
    raised: Listing,
    object: &Object<Vec<u8>>,
) -> Result<(), AllocError>
    requires { has events.old.keys raised ≡ false }
    ensures events { OnOk result (events.new.keys ≡ events.old.keys ++ if_any raised (listed_in raised.event raised.id (fixed (seen object.now)))) }
    ensures groups { OnOk result (lists groups.new ≡ lists groups.old ++ non_empty (listed_in raised.event raised.id (fixed (seen object.now)))) }
{
    let listed = listed_in(alloc, raised.id, raised.event, object)?;
    if listed.is_empty() {
        return Ok(());
    }
    events.insert(raised)?;
    groups.push(listed)?;
    Ok(())
}

/// The macros that run at an event of an object, in the order of its list.
fn listed_in(
    alloc: Global,
    id: ObjectId,
    event: u8,
    object: &Object<Vec<u8>>,
) -> Result<Vec<u8>, AllocError>
    ensures { IfOk result (λ macros. macros.items ≡ listed_in event id (fixed (seen object.now))) }
{
    match event {
        0 => run_by_name(alloc, id, object),
        event => macros_at(alloc, object.macros(), event),
    }
}

/// The macro itself, if its ID is at most 255; empty for other objects.
fn run_by_name(alloc: Global, id: ObjectId, object: &Object<Vec<u8>>) -> Result<Vec<u8>, AllocError>
    ensures { IfOk result (λ macros. macros.items ≡ run_by_name id (fixed (seen object.now))) }
{
    let mut macros = Vec::new(alloc);
    put_macro(&mut macros, id, object)?;
    Ok(macros)
}

/// The macros listed by the entries at an event, in the order of the entries.
fn macros_at(alloc: Global, entries: &[MacroEntry], event: u8) -> Result<Vec<u8>, AllocError>
    ensures { IfOk result (λ macros. macros.items ≡ macros_at event entries.now) }
{
    let mut macros = Vec::new(alloc);
    for entry in entries {
        if entry.event == event {
            macros.push(entry.macro_id)?;
        }
    }
    Ok(macros)
}
