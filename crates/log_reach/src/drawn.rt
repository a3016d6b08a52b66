//! The objects that were drawn.

ghost use Rattle.std.specs.Prelude.{◌≡◌, ℕ, false};
ghost use Rattle.log_reach.specs.DrawnObjects.{was_drawn};

use std::alloc::{AllocError, Global};
use std::collections::BTreeSet;
use vt_objects::ObjectId;

/// The objects of a working set that were drawn.
#[derive(Drop)]
pub(crate) struct Drawn {
    ids: BTreeSet<ObjectId>,
    /// For each object of the present pool, by rising ID, the number of the last drawing that had it, or 0.
    last: Vec<u64>,
    /// The number of the last drawing.
    drawing: u64,
}

impl Drawn {
    /// No objects, and no pool. Does not allocate.
    pub(crate) fn new(alloc: Global) -> Drawn
        ensures { (id : ℕ) → was_drawn result id ≡ false }
    {
        Drawn {
            ids: BTreeSet::new(alloc),
            last: Vec::new(alloc),
            drawing: 0,
        }
    }

    /// Begins with a pool of so many objects. Those that were drawn before stay.
    pub(crate) fn renew(&mut self, count: usize) -> Result<(), AllocError> {
        self.last.clear();
        self.last.resize(count, 0)
    }

    /// Begins a drawing, which has no object yet.
    pub(crate) fn begin(&mut self) {
        self.drawing = self.drawing.saturating_add(1);
    }

    /// Puts the object at an index of the pool into the drawing. Returns whether the drawing did not have it.
    pub(crate) fn put(&mut self, index: usize, id: ObjectId) -> Result<bool, AllocError> {
        let Some(last) = self.last.get_mut(index) else {
            return Ok(false);
        };
        if *last == self.drawing {
            return Ok(false);
        }
        if *last == 0 {
            self.ids.insert(id)?;
        }
        *last = self.drawing;
        Ok(true)
    }

    /// Whether an object was drawn.
    pub(crate) fn contains(&self, id: ObjectId) -> bool
        ensures { result ≡ was_drawn self.now id }
    {
        self.ids.contains(&id)
    }
}
