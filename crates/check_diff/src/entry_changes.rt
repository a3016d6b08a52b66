//! The changes of a list, entry by entry.

use crate::entry::{Entry, Placed};
use crate::order::kept_order;
use crate::partners::partners_of;
use std::alloc::{AllocError, Global};

/// A change of a list.
#[derive(Clone, Copy, PartialEq, Eq)]
pub(crate) enum EntryChange {
    Removed(Placed),
    Added(Placed),
    /// The entry is at another position, or in another order among those that stayed.
    Moved {
        old: Placed,
        new: Placed,
        is_reordered: bool,
    },
}

/// Appends the removed entries by their old indices, and then the added and moved ones by their new indices.
pub(crate) fn put_entry_changes(
    alloc: Global,
    old: &[Entry],
    new: &[Entry],
    changes: &mut Vec<EntryChange>,
) -> Result<(), AllocError> {
    let partners = partners_of(alloc, old, new)?;
    let is_kept = kept_order(alloc, partners.as_slice())?;
    for (index, entry) in old.iter().enumerate() {
        if !partners.contains(&Some(index)) {
            changes.push(EntryChange::Removed(Placed {
                index,
                entry: *entry,
            }))?;
        }
    }
    for (index, entry) in new.iter().enumerate() {
        let new = Placed {
            index,
            entry: *entry,
        };
        let partner = partners.get(index).copied().flatten();
        let is_reordered = is_kept.get(index).copied() == Some(false);
        if let Some(change) = change_of(old, partner, new, is_reordered) {
            changes.push(change)?;
        }
    }
    Ok(())
}

/// The change of a new entry, by the index of its old one, if it has changed at all.
fn change_of(
    old: &[Entry],
    partner: Option<usize>,
    new: Placed,
    is_reordered: bool,
) -> Option<EntryChange> {
    let Some(index) = partner else {
        return Some(EntryChange::Added(new));
    };
    let old = Placed {
        index,
        entry: *old.get(index)?,
    };
    (is_reordered || old.entry != new.entry).then_some(EntryChange::Moved {
        old,
        new,
        is_reordered,
    })
}
