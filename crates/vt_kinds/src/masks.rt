//! The working set, masks and containers (ISO 11783-6).

ghost use Rattle.std.specs.Prelude.{◌≡◌, IfOk};

use crate::entries::{Child, Entries, Language, MacroEntry};
use crate::id::ObjectId;
use std::alloc::{AllocError, Global};

/// A Working Set, type 0: the implement itself. An accepted pool has exactly one.
#[derive(Drop)]
pub struct WorkingSet {
    /// The colour number of the background.
    pub colour: u8,
    /// Whether the working set may be selected: stored, not applied.
    pub selectable: u8,
    /// The active mask, or NULL.
    pub active_mask: ObjectId,
    /// The child objects.
    pub children: Entries<Child>,
    /// The macros of the object's events.
    pub macros: Entries<MacroEntry>,
    /// The languages of the working set.
    pub languages: Entries<Language>,
}

impl WorkingSet {
    /// Copies the object into memory of its own.
    pub(crate) fn copied(&self, alloc: Global) -> Result<WorkingSet, AllocError>
        ensures { IfOk result (λ copy. copy ≡ self.now) }
    {
        Ok(WorkingSet {
            colour: self.colour,
            selectable: self.selectable,
            active_mask: self.active_mask,
            children: self.children.copied(alloc)?,
            macros: self.macros.copied(alloc)?,
            languages: self.languages.copied(alloc)?,
        })
    }
}

/// A Data Mask, type 1: a screen of the implement.
#[derive(Drop)]
pub struct DataMask {
    /// The colour number of the background.
    pub colour: u8,
    /// The soft key mask, or NULL.
    pub soft_key_mask: ObjectId,
    /// The child objects.
    pub children: Entries<Child>,
    /// The macros of the object's events.
    pub macros: Entries<MacroEntry>,
}

impl DataMask {
    /// Copies the object into memory of its own.
    pub(crate) fn copied(&self, alloc: Global) -> Result<DataMask, AllocError>
        ensures { IfOk result (λ copy. copy ≡ self.now) }
    {
        Ok(DataMask {
            colour: self.colour,
            soft_key_mask: self.soft_key_mask,
            children: self.children.copied(alloc)?,
            macros: self.macros.copied(alloc)?,
        })
    }
}

/// An Alarm Mask, type 2: a screen with priority over data masks.
#[derive(Drop)]
pub struct AlarmMask {
    /// The colour number of the background.
    pub colour: u8,
    /// The soft key mask, or NULL.
    pub soft_key_mask: ObjectId,
    /// The priority: the lowest number is shown first. Commands write 0 to 2; a record may have a greater number.
    pub priority: u8,
    /// The acoustic signal's number.
    pub acoustic: u8,
    /// The child objects.
    pub children: Entries<Child>,
    /// The macros of the object's events.
    pub macros: Entries<MacroEntry>,
}

impl AlarmMask {
    /// Copies the object into memory of its own.
    pub(crate) fn copied(&self, alloc: Global) -> Result<AlarmMask, AllocError>
        ensures { IfOk result (λ copy. copy ≡ self.now) }
    {
        Ok(AlarmMask {
            colour: self.colour,
            soft_key_mask: self.soft_key_mask,
            priority: self.priority,
            acoustic: self.acoustic,
            children: self.children.copied(alloc)?,
            macros: self.macros.copied(alloc)?,
        })
    }
}

/// A Container, type 3: objects that are moved, shown and hidden together.
#[derive(Drop)]
pub struct Container {
    /// The width in pixels.
    pub width: u16,
    /// The height in pixels.
    pub height: u16,
    /// 0 for shown, any other value for hidden.
    pub hidden: u8,
    /// The child objects.
    pub children: Entries<Child>,
    /// The macros of the object's events.
    pub macros: Entries<MacroEntry>,
}

impl Container {
    /// Copies the object into memory of its own.
    pub(crate) fn copied(&self, alloc: Global) -> Result<Container, AllocError>
        ensures { IfOk result (λ copy. copy ≡ self.now) }
    {
        Ok(Container {
            width: self.width,
            height: self.height,
            hidden: self.hidden,
            children: self.children.copied(alloc)?,
            macros: self.macros.copied(alloc)?,
        })
    }
}
