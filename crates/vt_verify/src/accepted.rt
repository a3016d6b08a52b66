//! Accepted object pools.

ghost use Rattle.std.specs.Prelude.{◌≡◌, ◌++◌, map, Some, is_some, IfOk, OnOk, OnErr, IsTrue};
ghost use Rattle.std.specs.List.{flat_map};
ghost use Rattle.vt_commands.specs.Commands.{command_at};
ghost use Rattle.vt_commands.specs.Pieces.{cut};
ghost use Rattle.vt_stores.specs.Stores.{seen_entry, AreStored};
ghost use Rattle.vt_stores.specs.Shapes.{shape_of};
ghost use Rattle.vt_verify.specs.Macros.{cut_or_none, commands};
ghost use Rattle.vt_chains.specs.Depths.{HasDepths};
ghost use Rattle.vt_verify.specs.TriggerGraphs.{AreListings};
ghost use Rattle.vt_verify.specs.Budgets.{MacroCostsAreTotals, budget};
ghost use Rattle.vt_verify.specs.Orders.{IsByRank};
ghost use Rattle.vt_verify.specs.Rules.{IsAcceptable, IsVerified};
ghost use Rattle.vt_chains.specs.Limits.{terminal};
ghost use Rattle.vt_verify.specs.Reports.{report_text, budget_line};

use crate::budgets::Budgets;
use crate::listing::{Listing, Listings};
use crate::triggers::macro_bytes;
use std::alloc::{AllocError, Global};
use std::marker::Model;
use vt_objects::{Object, ObjectId, SortedStore, push_number};

/// The objects of a pool that meets all rules, copied into its own memory, with the budgets of its events.
#[derive(Drop)]
pub struct Accepted {
    pub(crate) objects: SortedStore,
    pub(crate) depths: Vec<u8>,
    pub(crate) budgets: Budgets,
    pub(crate) order: Vec<u8>,
}

/// The parts of an accepted pool.
#[derive(Drop)]
pub struct AcceptedParts {
    /// The objects by rising ID.
    pub objects: SortedStore,
    /// The depth of each object, as returned by `find_depths`.
    pub depths: Vec<u8>,
    /// The macros that run at the events of the objects.
    pub listings: Listings,
}

impl Model for Accepted {
    ghost use Rattle.vt_stores.specs.Stores.{Objects, AreStored};
    ghost use Rattle.vt_rank.specs.Graphs.{lists};
    ghost use Rattle.vt_stores.specs.Shapes.{shape_of};
    ghost use Rattle.vt_verify.specs.Rules.{IsAcceptable};
    ghost use Rattle.vt_chains.specs.Limits.{terminal};
    ghost use Rattle.vt_chains.specs.Depths.{HasDepths};
    ghost use Rattle.vt_verify.specs.TriggerGraphs.{AreListings};
    ghost use Rattle.vt_verify.specs.Budgets.{MacroCostsAreTotals, AreBudgets};
    ghost use Rattle.vt_verify.specs.Orders.{IsByRank};

    ghost Value = { Objects };

    ghost view = { λ a. a.objects };

    ghost invariant = { λ a. AreStored a.objects × IsAcceptable terminal a.objects
        × AreBudgets (shape_of a.objects) a.budgets.events.keys a.budgets.steps.items
        × IsByRank (shape_of a.objects) a.order.items × MacroCostsAreTotals (shape_of a.objects)
        × HasDepths terminal a.objects a.depths.items × AreListings (shape_of a.objects) (a.budgets.events.keys, lists a.budgets.groups) };
}

impl Accepted {
    /// The objects by rising ID.
    pub fn objects(&self) -> &[(ObjectId, Object<Vec<u8>>)]
        ensures all { map seen_entry result.now ≡ self.now }
        // The IDs rise, and no ID is NULL.
        ensures stored { AreStored self.now }
        ensures acceptable { IsAcceptable terminal self.now }
        // Each macro costs the sum of its commands.
        ensures totals { MacroCostsAreTotals (shape_of self.now) }
        ensures verified { IsVerified self.now }
    {
        self.objects.entries()
    }

    /// The parts of the pool, moved and not copied.
    pub fn into_parts(self) -> AcceptedParts
        ensures objects { result.objects ≡ self }
        // The IDs rise, and no ID is NULL.
        ensures stored { AreStored self }
        ensures acceptable { IsAcceptable terminal self }
        // Each macro costs the sum of its commands.
        ensures totals { MacroCostsAreTotals (shape_of self) }
        ensures depths { HasDepths terminal self result.depths.items }
        ensures listings { AreListings (shape_of self) result.listings }
    {
        let Accepted {
            objects,
            depths,
            budgets,
            ..
        } = self;
        let Budgets { events, groups, .. } = budgets;
        AcceptedParts {
            objects,
            depths,
            listings: Listings { events, groups },
        }
    }

    /// The macros with IDs up to 255, each once and after all macros that it triggers.
    pub fn by_rank(&self) -> &[u8]
        ensures { IsByRank (shape_of self.now) result.now }
    {
        &self.order
    }

    /// The bytes of macro `id`: its commands, one after the other. Empty if the pool has no such macro.
    pub fn macro_bytes(&self, id: u8) -> &[u8]
        ensures whole { IsTrue (is_some (cut result.now)) }
        // The bytes of each macro command read as that command.
        ensures commands { map command_at (cut_or_none result.now) ≡ map Some (commands (shape_of self.now) id) }
    {
        match macro_bytes(&self.objects, ObjectId::from_raw(u16::from(id))) {
            Some(bytes) => bytes,
            None => &[],
        }
    }

    /// The macros that run at the events of the objects, in newly allocated memory.
    pub fn listings(&self, alloc: Global) -> Result<Listings, AllocError>
        ensures { IfOk result (AreListings (shape_of self.now)) }
    {
        Listings::of_objects(alloc, &self.objects)
    }

    /// The most steps that an event of an object can cost: 0 if no macro runs at it or if `event` is not an event's
    /// number. Event 0 of a macro runs the macro itself.
    pub fn budget(&self, id: ObjectId, event: u8) -> u32
        ensures budget { result ≡ budget (shape_of self.now) id event }
        // Each macro costs the sum of its commands.
        ensures totals { MacroCostsAreTotals (shape_of self.now) }
    {
        match self.budgets.events.get_index_of(&Listing { id, event }) {
            Some(place) => self.budgets.steps[place],
            None => 0,
        }
    }

    /// Appends the report: the number of objects, and the budget of each event at which macros run. After `OutOfMemory`
    /// the vector is unchanged. docs/PROFILE.md, "The report of an accepted pool".
    pub fn report(&self, out: &mut Vec<u8>) -> Result<(), AllocError>
        ensures ok { OnOk result (out.new.items ≡ out.old.items ++ report_text self.now) }
        ensures err { OnErr result (out.new.items ≡ out.old.items) }
    {
        let text = self.text(*out.allocator())?;
        out.extend_from_slice(&text)
    }

    fn text(&self, alloc: Global) -> Result<Vec<u8>, AllocError>
        ensures { IfOk result (λ text. text.items ≡ report_text self.now) }
    {
        let events = self.budgets.events.len();
        let mut text = Vec::with_capacity(alloc, events.saturating_mul(MOST_IN_LINE))?;
        let count = self.objects().len();
        push_number(&mut text, b"accepted ", count)?;
        text.extend_from_slice(b" objects\n")?;
        for place in 0..events {
            push_line(
                &mut text,
                self.budgets.events[place],
                self.budgets.steps[place],
            )?;
        }
        Ok(text)
    }
}

/// The most bytes of a line, newline included.
const MOST_IN_LINE: usize = 37;

/// Appends the line of an event with its budget.
fn push_line(text: &mut Vec<u8>, raised: Listing, budget: u32) -> Result<(), AllocError>
    ensures { OnOk result (text.new.items ≡ text.old.items ++ budget_line raised budget) }
{
    push_number(text, b"object ", raised.id.raw())?;
    push_number(text, b" event ", raised.event)?;
    push_number(text, b" budget ", budget)?;
    text.extend_from_slice(b"\n")
}
