//! The graph of the triggers of macros.

ghost use Rattle.std.specs.Prelude.{◌≡◌, ◌<◌, ◌++◌, ◌∷◌, ℕ, [], map, None, IfOk, OnOk, IsTrue, slice_index_or, is_some, if◌then◌else◌};
ghost use Rattle.std.specs.Option.{option_map, option_to_list};
ghost use Rattle.std.specs.List.{flat_map};
ghost use Rattle.vt_commands.specs.Events.{event_number};
ghost use Rattle.vt_commands.specs.Pieces.{cut};
ghost use Rattle.vt_rank.specs.Graphs.{lists};
ghost use Rattle.vt_stores.specs.Shapes.{Shape, shape_of, fixed_at};
ghost use Rattle.vt_verify.specs.Macros.{macro_bytes_in, macro_command, commands_of, commands};
ghost use Rattle.vt_verify.specs.Triggers.{listing, listed, is_mask, masks, changes_mask};
ghost use Rattle.vt_verify.specs.TriggerGraphs.{IsTriggerGraph, AreListings, command_items, group_of_event, groups_of};
ghost use Rattle.vt_verify.specs.Rules as rules;

use crate::commands::{macro_command, named_macro};
use crate::listing::{Listing, Listings, listed_events};
use indexmap::IndexSet;
use std::alloc::{AllocError, Global};
use vt_objects::laws::cut_is_one;
use vt_objects::{Command, Event, Kind, ObjectId, SortedStore, Store, row_events, split_command};
use vt_rank::{Graph, Item};

/// The events at which macros run, and the graph of the macros. The group at an event's index has its macros.
#[derive(Drop)]
pub struct TriggerGraph {
    /// The events at which macros run.
    pub events: IndexSet<Listing>,
    /// The graph of the macros.
    pub graph: Graph,
}

impl TriggerGraph {
    /// The triggers of the macros of some objects.
    pub fn of_objects(alloc: Global, objects: &SortedStore) -> Result<TriggerGraph, AllocError>
        requires { rules.cut_short (shape_of objects.now) ≡ None }
        ensures { IfOk result (λ t. IsTriggerGraph (shape_of objects.now) t.events.keys t.graph) }
    {
        let (events, groups) = listed_events(alloc, objects)?;
        let nodes = nodes(alloc, objects, &events)?;
        let most = hidden(alloc, objects, &events)?;
        let graph = Graph {
            nodes,
            groups,
            most,
        };
        Ok(TriggerGraph { events, graph })
    }

    /// The macros that run at an event of an object, in the order of its list. Empty if no macro runs there.
    pub fn macros_at(&self, id: ObjectId, event: u8) -> &[u8]
        ensures { (shape : Shape) → IsTriggerGraph shape self.now.events.keys self.now.graph → result.now ≡ listed shape (listing id event) }
    {
        match group_of(&self.events, Listing { id, event }) {
            Some(group) => self.graph.group(group),
            None => &[],
        }
    }

    /// The macros that run at the events of the objects, without the graph.
    pub fn into_listings(self) -> Listings
        ensures { (shape : Shape) → IsTriggerGraph shape self.events.keys self.graph → AreListings shape result }
    {
        let TriggerGraph { events, graph } = self;
        Listings {
            events,
            groups: graph.groups,
        }
    }
}

/// The items of each macro with an ID of at most 255.
fn nodes(
    alloc: Global,
    objects: &SortedStore,
    events: &IndexSet<Listing>,
) -> Result<Vec<Vec<Item>>, AllocError>
    requires { rules.cut_short (shape_of objects.now) ≡ None }
    ensures { IfOk result (λ nodes. (id : ℕ) → id < 256 → slice_index_or (lists nodes) id [] ≡ flat_map (command_items events.now.keys) (commands (shape_of objects.now) id)) }
{
    let mut nodes = Vec::new(alloc);
    for id in 0..256u16 {
        nodes.push(items(alloc, objects, events, ObjectId::from_raw(id))?)?;
    }
    Ok(nodes)
}

fn items(
    alloc: Global,
    objects: &SortedStore,
    events: &IndexSet<Listing>,
    id: ObjectId,
) -> Result<Vec<Item>, AllocError>
    requires { rules.cut_short (shape_of objects.now) ≡ None }
    ensures { IfOk result (λ items. items.items ≡ flat_map (command_items events.now.keys) (commands (shape_of objects.now) id)) }
{
    match macro_bytes(objects, id) {
        Some(bytes) => items_of(alloc, events, bytes),
        None => Ok(Vec::new(alloc)),
    }
}

fn items_of(
    alloc: Global,
    events: &IndexSet<Listing>,
    bytes: &[u8],
) -> Result<Vec<Item>, AllocError>
    requires { IsTrue (is_some (cut bytes.now)) }
    ensures { IfOk result (λ items. items.items ≡ flat_map (command_items events.now.keys) (commands_of bytes.now)) }
{
    // The remaining bytes are cut into the same commands as in the whole.
    cut_is_one();
    let mut items = Vec::new(alloc);
    let mut rest = bytes;
    while let Some((piece, next)) = split_command(rest) {
        put_piece(&mut items, events, piece)?;
        rest = next;
    }
    Ok(items)
}

/// The bytes of macro `id`, if its ID is at most 255 and it exists.
pub fn macro_bytes(objects: &SortedStore, id: ObjectId) -> Option<&[u8]>
    ensures { option_to_list (option_map (λ bytes. bytes.now) result) ≡ flat_map (λ f. option_to_list (macro_bytes_in id f)) (option_to_list (fixed_at (shape_of objects.now) id)) }
{
    match objects.get(id) {
        Some(object) => named_macro(id, object),
        None => None,
    }
}

/// Appends the items that one macro command adds to the cost of its macro.
fn put_piece(
    items: &mut Vec<Item>,
    events: &IndexSet<Listing>,
    piece: &[u8],
) -> Result<(), AllocError>
    ensures { OnOk result (items.new.items ≡ items.old.items ++ flat_map (command_items events.now.keys) (option_to_list (macro_command piece.now))) }
{
    match macro_command(piece) {
        Some(command) => put_items(items, events, &command),
        None => Ok(()),
    }
}

/// Appends the items that a command adds to the cost of its macro.
fn put_items(
    items: &mut Vec<Item>,
    events: &IndexSet<Listing>,
    command: &Command<'_>,
) -> Result<(), AllocError>
    ensures { OnOk result (items.new.items ≡ items.old.items ++ command_items events.now.keys command.now) }
{
    items.push(Item::Step)?;
    put_most(items, command)?;
    for raised in row_events(command) {
        put_group(items, events, Listing::of(raised))?;
    }
    Ok(())
}

fn put_most(items: &mut Vec<Item>, command: &Command<'_>) -> Result<(), AllocError>
    ensures { OnOk result (items.new.items ≡ items.old.items ++ (if changes_mask command.now then Item.Most ∷ [] else [])) }
{
    if let Command::ChangeActiveMask { .. } = command {
        items.push(Item::Most)?;
    }
    Ok(())
}

/// Appends the group of an event, if it has one.
fn put_group(
    items: &mut Vec<Item>,
    events: &IndexSet<Listing>,
    raised: Listing,
) -> Result<(), AllocError>
    ensures { OnOk result (items.new.items ≡ items.old.items ++ map Item.Group (option_to_list (group_of_event events.now.keys raised))) }
{
    match group_of(events, raised) {
        Some(group) => {
            items.push(Item::Group(group))?;
            Ok(())
        }
        None => Ok(()),
    }
}

fn group_of(events: &IndexSet<Listing>, raised: Listing) -> Option<usize>
    ensures { result ≡ group_of_event events.now.keys raised }
{
    events.get_index_of(&raised)
}

/// The groups of the Hide events of all masks.
fn hidden(
    alloc: Global,
    objects: &SortedStore,
    events: &IndexSet<Listing>,
) -> Result<Vec<usize>, AllocError>
    ensures { IfOk result (λ groups. groups.items ≡ groups_of events.now.keys (map (λ mask. listing mask (event_number Event.Hide)) (masks (shape_of objects.now)))) }
{
    let mut groups = Vec::new(alloc);
    for (id, object) in objects.entries() {
        put_hidden(&mut groups, events, *id, object.kind())?;
    }
    Ok(groups)
}

/// Appends the group of the Hide event of an object, if the object is a mask and the event has a group.
fn put_hidden(
    groups: &mut Vec<usize>,
    events: &IndexSet<Listing>,
    id: ObjectId,
    kind: Kind,
) -> Result<(), AllocError>
    ensures { OnOk result (groups.new.items ≡ groups.old.items ++ (if is_mask kind then option_to_list (group_of_event events.now.keys (listing id (event_number Event.Hide))) else [])) }
{
    if !matches!(kind, Kind::DataMask | Kind::AlarmMask) {
        return Ok(());
    }
    match group_of(
        events,
        Listing {
            id,
            event: Event::Hide.number(),
        },
    ) {
        Some(group) => {
            groups.push(group)?;
            Ok(())
        }
        None => Ok(()),
    }
}
