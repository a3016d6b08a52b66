//! The output shapes (ISO 11783-6).

ghost use Rattle.std.specs.Prelude.{◌≡◌, IfOk};

use crate::entries::{Entries, MacroEntry, Point};
use crate::id::ObjectId;
use std::alloc::{AllocError, Global};

/// A Line, type 13 (Output Line).
#[derive(Drop)]
pub struct Line {
    /// The Line Attributes, or NULL.
    pub line_attributes: ObjectId,
    /// The width in pixels.
    pub width: u16,
    /// The height in pixels.
    pub height: u16,
    /// The direction: 0 from top left to bottom right, 1 from bottom left to top right.
    pub direction: u8,
    /// The macros of the object's events.
    pub macros: Entries<MacroEntry>,
}

impl Line {
    /// Copies the object into memory of its own.
    pub(crate) fn copied(&self, alloc: Global) -> Result<Line, AllocError>
        ensures { IfOk result (λ copy. copy ≡ self.now) }
    {
        Ok(Line {
            line_attributes: self.line_attributes,
            width: self.width,
            height: self.height,
            direction: self.direction,
            macros: self.macros.copied(alloc)?,
        })
    }
}

/// A Rectangle, type 14 (Output Rectangle).
#[derive(Drop)]
pub struct Rectangle {
    /// The Line Attributes, or NULL.
    pub line_attributes: ObjectId,
    /// The width in pixels.
    pub width: u16,
    /// The height in pixels.
    pub height: u16,
    /// The lines that are not drawn.
    pub suppression: u8,
    /// The Fill Attributes, or NULL.
    pub fill: ObjectId,
    /// The macros of the object's events.
    pub macros: Entries<MacroEntry>,
}

impl Rectangle {
    /// Copies the object into memory of its own.
    pub(crate) fn copied(&self, alloc: Global) -> Result<Rectangle, AllocError>
        ensures { IfOk result (λ copy. copy ≡ self.now) }
    {
        Ok(Rectangle {
            line_attributes: self.line_attributes,
            width: self.width,
            height: self.height,
            suppression: self.suppression,
            fill: self.fill,
            macros: self.macros.copied(alloc)?,
        })
    }
}

/// An Ellipse, type 15 (Output Ellipse).
#[derive(Drop)]
pub struct Ellipse {
    /// The Line Attributes, or NULL.
    pub line_attributes: ObjectId,
    /// The width in pixels.
    pub width: u16,
    /// The height in pixels.
    pub height: u16,
    /// The shape: closed, open, a segment or a section.
    pub ellipse_type: u8,
    /// The start angle, in steps of 2 degrees.
    pub start: u8,
    /// The end angle, in steps of 2 degrees.
    pub end: u8,
    /// The Fill Attributes, or NULL.
    pub fill: ObjectId,
    /// The macros of the object's events.
    pub macros: Entries<MacroEntry>,
}

impl Ellipse {
    /// Copies the object into memory of its own.
    pub(crate) fn copied(&self, alloc: Global) -> Result<Ellipse, AllocError>
        ensures { IfOk result (λ copy. copy ≡ self.now) }
    {
        Ok(Ellipse {
            line_attributes: self.line_attributes,
            width: self.width,
            height: self.height,
            ellipse_type: self.ellipse_type,
            start: self.start,
            end: self.end,
            fill: self.fill,
            macros: self.macros.copied(alloc)?,
        })
    }
}

/// A Polygon, type 16 (Output Polygon).
#[derive(Drop)]
pub struct Polygon {
    /// The width in pixels.
    pub width: u16,
    /// The height in pixels.
    pub height: u16,
    /// The Line Attributes, or NULL.
    pub line_attributes: ObjectId,
    /// The Fill Attributes, or NULL.
    pub fill: ObjectId,
    /// The shape: convex, concave, complex or open.
    pub polygon_type: u8,
    /// The corners.
    pub points: Entries<Point>,
    /// The macros of the object's events.
    pub macros: Entries<MacroEntry>,
}

impl Polygon {
    /// Copies the object into memory of its own.
    pub(crate) fn copied(&self, alloc: Global) -> Result<Polygon, AllocError>
        ensures { IfOk result (λ copy. copy ≡ self.now) }
    {
        Ok(Polygon {
            width: self.width,
            height: self.height,
            line_attributes: self.line_attributes,
            fill: self.fill,
            polygon_type: self.polygon_type,
            points: self.points.copied(alloc)?,
            macros: self.macros.copied(alloc)?,
        })
    }
}
