//! The old entries of a list as which its new entries were there before. A list has at most 255 entries.

use crate::entry::{Entry, Placed};
use std::alloc::{AllocError, Global};

/// How much two entries are alike.
#[derive(Clone, Copy)]
enum Likeness {
    /// They are equal.
    Equal,
    /// They are children that are one object, or the points of one index.
    Moved,
}

impl Likeness {
    fn holds(self, old: &Placed, new: &Placed) -> bool {
        match self {
            Likeness::Equal => old.entry == new.entry,
            Likeness::Moved => match (&old.entry, &new.entry) {
                (Entry::Child(old), Entry::Child(new)) => old.id == new.id,
                (Entry::Point(_), Entry::Point(_)) => old.index == new.index,
                _ => false,
            },
        }
    }
}

/// For each new entry the index of its old one, or `None` if it is added. Each old entry is given once, equal ones first.
pub(crate) fn partners_of(
    alloc: Global,
    old: &[Entry],
    new: &[Entry],
) -> Result<Vec<Option<usize>>, AllocError> {
    let mut is_free = Vec::from_elem(alloc, true, old.len())?;
    let mut partners = Vec::from_elem(alloc, None, new.len())?;
    for likeness in [Likeness::Equal, Likeness::Moved] {
        for (index, entry) in new.iter().enumerate() {
            let new = Placed {
                index,
                entry: *entry,
            };
            if let Some(partner) = partners.get_mut(index)
                && partner.is_none()
            {
                *partner = take_partner(old, &new, likeness, &mut is_free);
            }
        }
    }
    Ok(partners)
}

/// Takes the first free old entry that is like a new one, by its index.
fn take_partner(
    old: &[Entry],
    new: &Placed,
    likeness: Likeness,
    is_free: &mut Vec<bool>,
) -> Option<usize> {
    for (index, entry) in old.iter().enumerate() {
        let old = Placed {
            index,
            entry: *entry,
        };
        if let Some(is_free) = is_free.get_mut(index)
            && *is_free
            && likeness.holds(&old, new)
        {
            *is_free = false;
            return Some(index);
        }
    }
    None
}
