//! What was reached of a working set, and what was not.

ghost use Rattle.std.specs.Prelude.{◌≡◌, IfOk};
ghost use Rattle.log_reach.specs.Reports.{is_drawn};

use crate::reached::Reached;
use crate::shown_masks::ReachedMasks;
use crate::split::Split;
use check_text::{Label, Names};
use std::alloc::{AllocError, Global};
use std::fmt;
use vt_frames_text::Count;
use vt_objects::{Kind, Kinds, ObjectId};

/// An object of a pool.
#[derive(Clone, Copy, PartialEq, Eq)]
pub struct PoolObject {
    /// The ID.
    pub id: ObjectId,
    /// The kind. If several pools have the ID, the kind in the last of them.
    pub kind: Kind,
}

/// What was reached of the pools of a working set, and what was not. Each list is by rising ID.
#[derive(Drop)]
pub struct SetReach {
    /// The address of the working set.
    pub address: u8,
    /// How many commands were answered as done.
    pub done: u64,
    /// How many commands were answered with an error.
    pub refused: u64,
    /// The masks that were the active mask of the shown set.
    pub masks_shown: Vec<PoolObject>,
    /// The other masks.
    pub masks_never: Vec<PoolObject>,
    /// The objects that a shown mask or its soft keys drew.
    pub objects_drawn: Vec<PoolObject>,
    /// The other objects of the kinds that are drawn below a mask or a soft key mask.
    pub objects_never: Vec<PoolObject>,
    /// The macros that may have run.
    pub macros_reached: Vec<PoolObject>,
    /// The other macros.
    pub macros_never: Vec<PoolObject>,
}

impl SetReach {
    ghost use Rattle.log_reach.specs.Reports.{TellsOf};

    /// What was reached of a set.
    pub(crate) fn of_set(
        alloc: Global,
        address: u8,
        set: &Reached,
        shown_masks: &ReachedMasks,
    ) -> Result<SetReach, AllocError>
        ensures { IfOk result (TellsOf shown_masks.now (address, set.now)) }
    {
        let mut masks = Split::new(alloc);
        let mut objects = Split::new(alloc);
        let mut macros = Split::new(alloc);
        for (id, kind) in set.kinds.iter() {
            let was_shown = shown_masks.contains(address, *id);
            let was_drawn = set.drawn.contains(*id);
            let is_reached = set.macros.contains(*id);
            let object = PoolObject {
                id: *id,
                kind: *kind,
            };
            masks.put(&object, was_shown, Kinds::Masks.contains(*kind))?;
            objects.put(&object, was_drawn, is_drawn(*kind))?;
            macros.put(&object, is_reached, Kinds::Macros.contains(*kind))?;
        }
        Ok(SetReach {
            address,
            done: set.done,
            refused: set.refused,
            masks_shown: masks.reached,
            masks_never: masks.never,
            objects_drawn: objects.reached,
            objects_never: objects.never,
            macros_reached: macros.reached,
            macros_never: macros.never,
        })
    }
}

/// Whether objects of a kind are drawn below a mask or a soft key mask. A pointer is not: the object that it points to is.
fn is_drawn(kind: Kind) -> bool
    ensures { result ≡ is_drawn kind }
{
    Kinds::AllButPointers.contains(kind)
        && (Kinds::Keys.contains(kind) || Kinds::DrawnInWorkingSet.contains(kind))
}

/// What was reached of a working set, with the names of objects. Its `Display` writes a line for the commands, and below it one each for
/// masks, objects and macros.
#[derive(Clone, Copy, Drop)]
pub struct ReachText<'a> {
    /// What was reached of the working set.
    pub set: &'a SetReach,
    /// The names.
    pub names: &'a Names,
}

impl fmt::Display for ReachText<'_> {
    fn fmt<W: fmt::Write>(&self, f: &mut fmt::Formatter<W>) -> fmt::Result {
        let SetReach {
            address,
            done,
            refused,
            ..
        } = self.set;
        writeln!(
            f,
            "working set {address:02X}: {} done, {refused} refused",
            Count(*done, "command")
        )?;
        self.write_masks(f)?;
        self.write_objects(f)?;
        self.write_macros(f)
    }
}

impl ReachText<'_> {
    /// Writes the line of the masks.
    fn write_masks<W: fmt::Write>(&self, f: &mut fmt::Formatter<W>) -> fmt::Result {
        write!(f, "  masks shown: ")?;
        self.write_labels(self.set.masks_shown.as_slice(), f)?;
        if !self.set.masks_never.is_empty() {
            write!(f, "; never: ")?;
            self.write_labels(self.set.masks_never.as_slice(), f)?;
        }
        writeln!(f)
    }

    /// Writes the line of the objects.
    fn write_objects<W: fmt::Write>(&self, f: &mut fmt::Formatter<W>) -> fmt::Result {
        let drawn = self.set.objects_drawn.len();
        let all = drawn.saturating_add(self.set.objects_never.len());
        write!(f, "  objects drawn: {drawn} of {all}")?;
        self.write_never(self.set.objects_never.as_slice(), f)?;
        writeln!(f)
    }

    /// Writes the line of the macros.
    fn write_macros<W: fmt::Write>(&self, f: &mut fmt::Formatter<W>) -> fmt::Result {
        write!(f, "  macros reached:")?;
        self.write_ids(self.set.macros_reached.as_slice(), f)?;
        self.write_never(self.set.macros_never.as_slice(), f)?;
        writeln!(f)
    }

    /// Writes objects with their kinds and names, or `none`.
    fn write_labels<W: fmt::Write>(
        &self,
        objects: &[PoolObject],
        f: &mut fmt::Formatter<W>,
    ) -> fmt::Result {
        if objects.is_empty() {
            return write!(f, "none");
        }
        for (place, object) in objects.iter().enumerate() {
            if place > 0 {
                write!(f, ", ")?;
            }
            let label = Label {
                id: object.id,
                kind: Some(object.kind),
                name: self.names.get(object.id),
            };
            write!(f, "{label}")?;
        }
        Ok(())
    }

    /// Writes what was never reached, if there is anything.
    fn write_never<W: fmt::Write>(
        &self,
        objects: &[PoolObject],
        f: &mut fmt::Formatter<W>,
    ) -> fmt::Result {
        if objects.is_empty() {
            return Ok(());
        }
        write!(f, "; never:")?;
        self.write_ids(objects, f)
    }

    /// Writes the IDs of objects with their names, each behind a space, or ` none`.
    fn write_ids<W: fmt::Write>(
        &self,
        objects: &[PoolObject],
        f: &mut fmt::Formatter<W>,
    ) -> fmt::Result {
        if objects.is_empty() {
            return write!(f, " none");
        }
        for object in objects {
            write!(f, " {}", object.id.raw())?;
            if let Some(name) = self.names.get(object.id) {
                write!(f, " `{name}`")?;
            }
        }
        Ok(())
    }
}
