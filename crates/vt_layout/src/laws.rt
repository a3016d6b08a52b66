//! Theorems about the definitions of vt_layout: each is the contract of a function with an empty body.

ghost use Rattle.vt_layout.specs.Drawings.{DrawingsAreOne, ShownAreDrawn, DrawingsNeverStick, PathsAreChained};
ghost use Rattle.vt_layout.specs.LookUps.{DrawingsFindAll};
ghost use Rattle.vt_layout.specs.Screens.{ScreensAreOne, ScreensShowLooks};

/// The drawing of a mask is unique: the elements at all paths, in their order. It exists if the store is in order and has
/// no object with the ID NULL. docs/PROFILE.md, "The drawing".
pub fn drawings_are_one()
    ensures { DrawingsAreOne }
{}

/// The objects shown, for an action of the operator, are the elements of the drawing, however long. docs/PROFILE.md, "The
/// drawing".
pub fn shown_are_drawn()
    ensures { ShownAreDrawn }
{}

/// No drawing gets stuck: in a store in order, each reference of the working set, of the mask and its soft key mask, of
/// the objects in drawn lists, and of each element refers to an object of an allowed kind, or is NULL if NULL is allowed
/// there. docs/PROFILE.md, "What every store keeps".
pub fn drawings_never_stick()
    ensures { DrawingsNeverStick }
{}

/// A drawing finds all that it looks up, in a store in order. An active mask is a mask or NULL, and its soft key mask is
/// a Soft Key Mask or NULL. Each ID in a drawn list resolves to an object of an allowed kind, or is NULL or a pointer
/// with NULL if that is allowed there. Each element with a variable has the number or the text of its line.
/// docs/PROFILE.md, "The drawing".
pub fn drawings_find_all()
    ensures { DrawingsFindAll }
{}

/// The IDs on a path to an element, pointers too, are a chain of at most 32 inclusions, if the store is in order and has
/// no object with the ID NULL. docs/PROFILE.md, "Inclusions and chains".
pub fn paths_are_chained()
    ensures { PathsAreChained }
{}

/// The screen of a working set is unique. It exists if the store is in order and has no object with the ID NULL.
/// docs/PROFILE.md, "The drawing and the screen text".
pub fn screens_are_one()
    ensures { ScreensAreOne }
{}

/// Stores that look the same have the same screens: no text shows a colour, a font, or another field that the look of an
/// object leaves out. docs/PROFILE.md, "The drawing and the screen text".
pub fn screens_show_looks()
    ensures { ScreensShowLooks }
{}
