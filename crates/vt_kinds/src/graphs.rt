//! The output graphics (ISO 11783-6).

ghost use Rattle.std.specs.Prelude.{◌≡◌, IfOk};

use crate::entries::{Entries, MacroEntry};
use crate::id::ObjectId;
use std::alloc::{AllocError, Global};

/// A Meter, type 17 (Output Meter).
#[derive(Drop)]
pub struct Meter {
    /// The width in pixels.
    pub width: u16,
    /// The colour number of the needle.
    pub needle_colour: u8,
    /// The colour number of the border.
    pub border_colour: u8,
    /// The colour number of the arc.
    pub arc_colour: u8,
    /// The options: stored, not applied.
    pub options: u8,
    /// The number of ticks on the arc.
    pub ticks: u8,
    /// The start angle of the arc, in steps of 2 degrees.
    pub start: u8,
    /// The end angle of the arc, in steps of 2 degrees.
    pub end: u8,
    /// The value at the start.
    pub min: u16,
    /// The value at the end.
    pub max: u16,
    /// The Number Variable with the value, or NULL.
    pub variable: ObjectId,
    /// The shown value.
    pub value: u16,
    /// The macros of the object's events.
    pub macros: Entries<MacroEntry>,
}

impl Meter {
    /// Copies the object into memory of its own.
    pub(crate) fn copied(&self, alloc: Global) -> Result<Meter, AllocError>
        ensures { IfOk result (λ copy. copy ≡ self.now) }
    {
        Ok(Meter {
            width: self.width,
            needle_colour: self.needle_colour,
            border_colour: self.border_colour,
            arc_colour: self.arc_colour,
            options: self.options,
            ticks: self.ticks,
            start: self.start,
            end: self.end,
            min: self.min,
            max: self.max,
            variable: self.variable,
            value: self.value,
            macros: self.macros.copied(alloc)?,
        })
    }
}

/// A Linear Bar, type 18 (Output Linear Bar Graph).
#[derive(Drop)]
pub struct LinearBar {
    /// The width in pixels.
    pub width: u16,
    /// The height in pixels.
    pub height: u16,
    /// The colour number of the bar.
    pub colour: u8,
    /// The colour number of the target line.
    pub target_colour: u8,
    /// The options: stored, not applied.
    pub options: u8,
    /// The number of ticks.
    pub ticks: u8,
    /// The value of an empty bar.
    pub min: u16,
    /// The value of a full bar.
    pub max: u16,
    /// The Number Variable with the value, or NULL.
    pub variable: ObjectId,
    /// The shown value.
    pub value: u16,
    /// The Number Variable with the target, or NULL.
    pub target_variable: ObjectId,
    /// The shown target.
    pub target: u16,
    /// The macros of the object's events.
    pub macros: Entries<MacroEntry>,
}

impl LinearBar {
    /// Copies the object into memory of its own.
    pub(crate) fn copied(&self, alloc: Global) -> Result<LinearBar, AllocError>
        ensures { IfOk result (λ copy. copy ≡ self.now) }
    {
        Ok(LinearBar {
            width: self.width,
            height: self.height,
            colour: self.colour,
            target_colour: self.target_colour,
            options: self.options,
            ticks: self.ticks,
            min: self.min,
            max: self.max,
            variable: self.variable,
            value: self.value,
            target_variable: self.target_variable,
            target: self.target,
            macros: self.macros.copied(alloc)?,
        })
    }
}

/// An Arched Bar, type 19 (Output Arched Bar Graph).
#[derive(Drop)]
pub struct ArchedBar {
    /// The width in pixels.
    pub width: u16,
    /// The height in pixels.
    pub height: u16,
    /// The colour number of the bar.
    pub colour: u8,
    /// The colour number of the target line.
    pub target_colour: u8,
    /// The options: stored, not applied.
    pub options: u8,
    /// The start angle, in steps of 2 degrees.
    pub start: u8,
    /// The end angle, in steps of 2 degrees.
    pub end: u8,
    /// The width of the bar in pixels.
    pub bar_width: u16,
    /// The value of an empty bar.
    pub min: u16,
    /// The value of a full bar.
    pub max: u16,
    /// The Number Variable with the value, or NULL.
    pub variable: ObjectId,
    /// The shown value.
    pub value: u16,
    /// The Number Variable with the target, or NULL.
    pub target_variable: ObjectId,
    /// The shown target.
    pub target: u16,
    /// The macros of the object's events.
    pub macros: Entries<MacroEntry>,
}

impl ArchedBar {
    /// Copies the object into memory of its own.
    pub(crate) fn copied(&self, alloc: Global) -> Result<ArchedBar, AllocError>
        ensures { IfOk result (λ copy. copy ≡ self.now) }
    {
        Ok(ArchedBar {
            width: self.width,
            height: self.height,
            colour: self.colour,
            target_colour: self.target_colour,
            options: self.options,
            start: self.start,
            end: self.end,
            bar_width: self.bar_width,
            min: self.min,
            max: self.max,
            variable: self.variable,
            value: self.value,
            target_variable: self.target_variable,
            target: self.target,
            macros: self.macros.copied(alloc)?,
        })
    }
}
