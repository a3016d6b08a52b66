//! Levels of objects, which certify that no chain of inclusions is too long.

ghost use Rattle.std.specs.Prelude.{◌≡◌, IfOk, true, false, length};
ghost use Rattle.vt_stores.specs.Stores.{ObjectMap};
ghost use Rattle.vt_chains.specs.Depths.{ids_of, inclusions_of, AreDepths, IsClosed};
ghost use Rattle.vt_chains.specs.Inclusions.{IsShallow};
ghost use Rattle.vt_chains.specs.Limits.{terminal};
ghost use Rattle.vt_chains.specs.Certificates.{AreLevels, AreLevelsBut, HasLongChain, HasSameLevels};

use crate::chains::find_depths;
use crate::limits::TERMINAL_LIMITS;
use std::alloc::{AllocError, Global};
use std::mem;
use vt_kinds::ObjectId;
use vt_stores::Store;

/// A level for each object of a store, by rising ID. Each object is above those that it includes, so no chain is longer than
/// the greatest level. A change that keeps this need not look at other objects.
#[derive(Drop)]
pub struct Levels {
    pub(crate) levels: Vec<u8>,
    /// A spare buffer for new levels, so that changes do not allocate.
    pub(crate) spare: Vec<u8>,
}

impl Levels {
    /// Finds the levels of a store.
    pub fn of_store<S: Store>(alloc: Global, store: &S) -> Result<Levels, AllocError>
        requires closed { IsClosed (ids_of (S.contents store.now)) (inclusions_of (S.contents store.now)) }
        requires shallow { IsShallow terminal.inclusions (inclusions_of (S.contents store.now)) }
        ensures { IfOk result (AreLevels (S.contents store.now)) }
    {
        let mut levels = Vec::from_elem(alloc, 0, store.count())?;
        let spare = Vec::from_elem(alloc, 0, store.count())?;
        match find_depths(store, &mut levels, TERMINAL_LIMITS.inclusions) {
            Ok(()) => Ok(Levels { levels, spare }),
            Err(_chain) => unreachable!(),
        }
    }

    /// Makes the levels of a store from the depths of its objects.
    pub fn of_depths(alloc: Global, depths: Vec<u8>) -> Result<Levels, AllocError>
        ensures { IfOk result (λ levels. (store : ObjectMap) → AreDepths (ids_of store) (inclusions_of store) terminal.inclusions depths.items → AreLevels store levels) }
    {
        let spare = Vec::from_elem(alloc, 0, depths.len())?;
        Ok(Levels {
            levels: depths,
            spare,
        })
    }

    /// The level of each object, by rising ID.
    pub fn as_slice(&self) -> &[u8]
        ensures { result.now ≡ self.now.levels.items }
    {
        &self.levels
    }

    /// Updates the levels for a new inclusion in the store. Returns false if a chain is then too long; the levels are then
    /// unchanged.
    pub fn take_up<S: Store>(&mut self, store: &S, from: ObjectId, to: ObjectId) -> bool
        requires { AreLevelsBut (S.contents store.now) self.old from to }
        ensures short { result ≡ true → AreLevels (S.contents store.now) self.new }
        ensures long { result ≡ false → HasLongChain (S.contents store.now) }
        ensures kept { result ≡ false → HasSameLevels self.old self.new }
    {
        if self.falls(store, from, to) {
            return true;
        }
        self.search(store)
    }

    /// Whether the level falls with an inclusion, or one of its objects is missing.
    fn falls<S: Store>(&self, store: &S, from: ObjectId, to: ObjectId) -> bool
        requires { AreLevelsBut (S.contents store.now) self.now from to }
        ensures { result ≡ true → AreLevels (S.contents store.now) self.now }
    {
        let Some(above) = store.place(from) else {
            return true;
        };
        let Some(below) = store.place(to) else {
            return true;
        };
        self.levels[below] < self.levels[above]
    }

    /// Finds all levels again; false, with the levels unchanged, if a chain is too long.
    fn search<S: Store>(&mut self, store: &S) -> bool
        requires spare_length { length self.old.spare.items ≡ length (ids_of (S.contents store.now)) }
        requires levels { length self.old.levels.items ≡ length (ids_of (S.contents store.now)) }
        requires closed { IsClosed (ids_of (S.contents store.now)) (inclusions_of (S.contents store.now)) }
        ensures short { result ≡ true → AreLevels (S.contents store.now) self.new }
        ensures long { result ≡ false → HasLongChain (S.contents store.now) }
        ensures kept { result ≡ false → HasSameLevels self.old self.new }
    {
        match find_depths(store, &mut self.spare, TERMINAL_LIMITS.inclusions) {
            Ok(()) => {
                mem::swap(&mut self.levels, &mut self.spare);
                true
            }
            Err(_chain) => false,
        }
    }
}
