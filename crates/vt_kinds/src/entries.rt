//! The lists of a record and their entries.

ghost use Rattle.std.specs.Prelude.{◌≡◌, ◌<◌, ◌≤◌, List, [], length, set, IfOk, vec_len, ◌↔◌, IsTrue};

use crate::id::ObjectId;
use std::alloc::{AllocError, Global};
use std::marker::Model;

/// A child object, with its position in its parent in pixels.
#[derive(Clone, Copy, PartialEq, Eq)]
pub struct Child {
    pub id: ObjectId,
    pub x: i16,
    pub y: i16,
}

/// An event of an object and the macro that it runs.
#[derive(Clone, Copy, PartialEq, Eq)]
pub struct MacroEntry {
    pub event: u8,
    pub macro_id: u8,
}

/// A language of a working set: the two letters of its code.
#[derive(Clone, Copy, PartialEq, Eq)]
pub struct Language {
    pub first: u8,
    pub second: u8,
}

/// A corner of a polygon, in pixels.
#[derive(Clone, Copy, PartialEq, Eq)]
pub struct Point {
    pub x: u16,
    pub y: u16,
}

/// A list of at most 255 entries, the most that a record's count can hold.
#[derive(Drop)]
pub struct Entries<T> {
    items: Vec<T>,
}

impl<T> Model for Entries<T> {
    ghost use Rattle.std.specs.Prelude.{List, ◌≤◌, length};

    ghost Value = { List T };

    ghost view = { λ e. e.items.items };

    ghost invariant = { λ e. length e.items.items ≤ 255 };
}

impl<T> Entries<T> {
    /// Makes a list from a vector of at most 255 entries.
    pub fn from_vec(items: Vec<T>) -> Entries<T>
        requires { vec_len items ≤ 255 }
        ensures { result ≡ items.items }
    {
        Entries { items }
    }

    /// The entries in record order.
    pub fn as_slice(&self) -> &[T]
        ensures value { result.now ≡ self.now }
        ensures most { length result.now ≤ 255 }
    {
        &self.items
    }

    /// The number of entries.
    pub fn len(&self) -> u8
        ensures { result ≡ length self.now }
    {
        self.items.len() as u8
    }

    /// Whether the list is empty.
    pub fn is_empty(&self) -> bool
        ensures { IsTrue result ↔ (self.now ≡ []) }
    {
        self.items.is_empty()
    }
}

impl<T: Copy> Entries<T> {
    /// Replaces the entry at an index.
    pub fn set(&mut self, index: u8, entry: T)
        requires { index < length self.old }
        ensures { self.new ≡ set self.old index entry }
    {
        self.items[usize::from(index)] = entry;
    }

    /// Copies the list into new memory. `AllocError` if memory is refused.
    pub fn copied(&self, alloc: Global) -> Result<Entries<T>, AllocError>
        ensures { IfOk result (λ copy. copy ≡ self.now) }
    {
        let items = Vec::from_slice(alloc, &self.items)?;
        Ok(Entries { items })
    }
}
