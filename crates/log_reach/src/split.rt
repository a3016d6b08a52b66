//! Objects by whether they were reached.

ghost use Rattle.std.specs.Prelude.{◌≡◌, ◌++◌, ◌&&◌, not, OnOk, []};
ghost use Rattle.log_reach.specs.Reports.{object_if};

use crate::report::PoolObject;
use std::alloc::{AllocError, Global};

/// Objects by whether they were reached.
#[derive(Drop)]
pub(crate) struct Split {
    pub(crate) reached: Vec<PoolObject>,
    /// The others that could be reached.
    pub(crate) never: Vec<PoolObject>,
}

impl Split {
    /// No objects. Does not allocate.
    pub(crate) fn new(alloc: Global) -> Split
        ensures reached { result.reached.items ≡ [] }
        ensures never { result.never.items ≡ [] }
    {
        Split {
            reached: Vec::new(alloc),
            never: Vec::new(alloc),
        }
    }

    /// Puts an object among those that were reached, or among the others if it could be.
    pub(crate) fn put(
        &mut self,
        object: &PoolObject,
        was_reached: bool,
        could_be: bool,
    ) -> Result<(), AllocError>
        ensures reached { OnOk result (self.new.reached.items ≡ self.old.reached.items ++ object_if was_reached object.now) }
        ensures never { OnOk result (self.new.never.items ≡ self.old.never.items ++ object_if (not was_reached && could_be) object.now) }
    {
        if was_reached {
            self.reached.push(*object)?;
        } else if could_be {
            self.never.push(*object)?;
        }
        Ok(())
    }
}
