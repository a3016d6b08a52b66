//! Sets of IDs.

ghost use Rattle.std.specs.Prelude.{◌≡◌, ℕ, [], ◌∷◌, false, length, IfOk};

use std::alloc::{AllocError, Global};
use vt_objects::ObjectId;

/// A set of IDs, with a mark for each number.
#[derive(Drop)]
pub struct IdSet {
    marks: Vec<bool>,
    ghost each: { length marks.items ≡ 65536 },
}

impl IdSet {
    ghost use Rattle.check_needs.specs.Naming.{has, has_with};

    pub(crate) fn new(alloc: Global) -> Result<IdSet, AllocError>
        ensures { IfOk result (λ set. (id : ℕ) → has set id ≡ false) }
    {
        let marks = Vec::from_elem(alloc, false, 65_536)?;
        Ok(IdSet { marks })
    }

    pub(crate) fn contains(&self, id: ObjectId) -> bool
        ensures { result ≡ has self.now id }
    {
        self.marks[usize::from(id.raw())]
    }

    pub(crate) fn insert(&mut self, id: ObjectId)
        ensures { (other : ℕ) → has self.new other ≡ has_with self.old (id ∷ []) other }
    {
        self.marks[usize::from(id.raw())] = true;
    }
}
