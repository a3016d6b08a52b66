//! The registry of working sets (ISO 11783-6).

ghost use Rattle.std.specs.Prelude.{◌≡◌, ◌≢◌, ◌<◌, ◌≤◌, None, Some, Ok, Err, [], length, slice_get, is_some, IsOk, IfErr, IfSome, IfNone, OnOk, OnErr, ◌==◌, if◌then◌else◌};
ghost use Rattle.std.specs.Option.{option_copied};
ghost use Rattle.vt_names.specs.Registry.{member_count, set_at, with_set, without, registering, joining, binding, preloaded, has_place, AreApart, IsUnnamed};
ghost use Rattle.vt_names.specs.declared.registry.RegistryFault.TheVariants as declared;

use crate::OutOfMemory;
use crate::name::Name;
use crate::set::{Members, Set};
use arrayvec::ArrayVec;
use indexmap::IndexMap;
use std::alloc::Global;
use std::marker::Model;
use thiserror::Error;

/// Why a message changes no working set.
#[derive(Clone, Copy, Debug, PartialEq, Eq, Error)]
pub enum RegistryFault {
    /// The master's address has no holder.
    #[error("no NAME holds the address of the master")]
    NotClaimed,
    /// There is no working set with the master's address.
    #[error("there is no working set of that address")]
    NotMaster,
    /// The working set already has all its members: its count less one.
    #[error("the working set has all its members already")]
    TooManyMembers,
    /// The memory for a new set was refused. A member message, or a master message for an existing set, allocates nothing.
    #[error("the memory for a working set was refused")]
    OutOfMemory,
}

/// The working sets. Contracts see them as a list in order of registration, and the capacity reserved for one
/// more, 1 or 0. No two sets have the same address.
///
/// docs/PROFILE.md, "Working sets".
pub struct Registry {
    sets: IndexMap<u8, Set>,
    // Memory for the members of the next set, from a closed set or reserved in advance.
    vacant: Option<Members>,
    alloc: Global,
}

// Written out, not derived: the drop is proved once here, and not in each crate above.
impl Drop for Registry {
    fn drop(self) {
        let Registry {
            sets: _sets,
            vacant: _vacant,
            alloc: _alloc,
        } = self;
    }
}

impl Model for Registry {
    ghost use Rattle.std.specs.Prelude.{min, is_some, if◌then◌else◌};
    ghost use Rattle.indexmap.specs.IndexMap.{values, spare};
    ghost use Rattle.vt_names.specs.Registry.{Registered, registered_code, AreFiled};

    ghost Value = { Registered };

    ghost coded = { registered_code };

    ghost view = { λ r. record { sets = values r.sets; capacity = if is_some r.vacant then min 1 (spare r.sets) else 0 } };

    ghost invariant = { λ r. AreFiled r.sets.entries };
}

impl Registry {
    /// Creates a registry without sets. Does not allocate.
    pub fn new(alloc: Global) -> Registry
        ensures { result.sets ≡ [] }
    {
        Registry {
            sets: IndexMap::new(alloc),
            vacant: None,
            alloc,
        }
    }

    /// Registers a set by a master message, with the holder of its address. An existing set keeps its
    /// position and loses its members, without an allocation. After an error the sets are unchanged.
    /// docs/PROFILE.md, "Working Set Master".
    pub fn master(
        &mut self,
        address: u8,
        holder: Option<Name>,
        count: u8,
    ) -> Result<(), RegistryFault>
        ensures not_claimed { IfNone holder (result ≡ Err declared.NotClaimed) }
        ensures claimed { IfSome holder (λ _. IfErr result (λ fault. fault ≡ declared.OutOfMemory)) }
        ensures there { IfSome holder (λ _. IfSome (set_at address self.old.sets) (λ _. IsOk result)) }
        ensures capacity { 0 < self.old.capacity → result ≢ Err declared.OutOfMemory }
        ensures sets { result ≢ Err declared.OutOfMemory → self.new.sets ≡ registering address holder count self.old.sets }
        ensures err { OnErr result (self.new.sets ≡ self.old.sets) }
    {
        let Some(name) = holder else {
            return Err(RegistryFault::NotClaimed);
        };
        if let Some(set) = self.sets.get_mut(&address) {
            set.restart(name, count);
            return Ok(());
        }
        self.add(address, Some(name), count)
            .map_err(|_| RegistryFault::OutOfMemory)
    }

    /// Adds a member by a member message. After an error the sets are unchanged. Does not allocate.
    /// docs/PROFILE.md, "Working Set Member".
    pub fn member(&mut self, address: u8, name: Name) -> Result<(), RegistryFault>
        ensures no_set { set_at address self.old.sets ≡ None → result ≡ Err declared.NotMaster }
        ensures set { IfSome (set_at address self.old.sets)
            (λ set. result ≡ (if has_place set then Ok tt else Err declared.TooManyMembers)) }
        ensures sets { self.new.sets ≡ joining (set_at address self.old.sets) name self.old.sets }
        ensures capacity { self.new.capacity ≡ self.old.capacity }
    {
        let Some(set) = self.sets.get_mut(&address) else {
            return Err(RegistryFault::NotMaster);
        };
        if !set.join(name) {
            return Err(RegistryFault::TooManyMembers);
        }
        Ok(())
    }

    /// Removes the set of an address, and returns false if there was none. The others keep their order.
    /// Does not allocate. docs/PROFILE.md, "Closing a set".
    pub fn close(&mut self, address: u8) -> bool
        ensures found { result ≡ is_some (set_at address self.old.sets) }
        ensures sets { self.new.sets ≡ without address self.old.sets }
        ensures capacity { self.old.capacity ≤ self.new.capacity }
    {
        // The contract of `len` says that no two sets have the same address.
        let _count = self.sets.len();
        let Some(set) = self.sets.shift_remove(&address) else {
            return false;
        };
        self.vacant = Some(set.into_members());
        true
    }

    /// The number of sets.
    pub fn len(&self) -> usize
        ensures count { result ≡ length self.now.sets }
        // No two sets have the same address.
        ensures apart { AreApart self.now.sets }
    {
        self.sets.len()
    }

    /// Whether there is no set.
    pub fn is_empty(&self) -> bool
        ensures { result ≡ (length self.now.sets == 0) }
    {
        self.sets.is_empty()
    }

    /// Returns the set at an index in the order of registration.
    pub fn at(&self, index: usize) -> Option<&Set>
        ensures { option_copied result ≡ slice_get self.now.sets index }
    {
        let (_, set) = self.sets.get_index(index)?;
        Some(set)
    }

    /// Returns the set of an address.
    pub fn get(&self, address: u8) -> Option<&Set>
        ensures { option_copied result ≡ set_at address self.now.sets }
    {
        self.sets.get(&address)
    }

    /// Adds a set without a NAME. The address must have no set yet. After an error the sets are unchanged.
    /// docs/PROFILE.md, "Preloaded sets".
    pub fn preload(&mut self, address: u8) -> Result<(), OutOfMemory>
        requires none { set_at address self.old.sets ≡ None }
        ensures ok { OnOk result (self.new.sets ≡ with_set (preloaded address) self.old.sets) }
        ensures err { OnErr result (self.new.sets ≡ self.old.sets) }
    {
        self.add(address, None, 1)
    }

    /// Gives a NAME to the set of an address. There must be a set, and it must have no NAME yet. Does not
    /// allocate. docs/PROFILE.md, "Preloaded sets".
    pub fn bind(&mut self, address: u8, name: Name)
        requires unnamed { IsUnnamed (set_at address self.old.sets) }
        ensures sets { self.new.sets ≡ binding (set_at address self.old.sets) name self.old.sets }
        ensures capacity { self.new.capacity ≡ self.old.capacity }
    {
        if let Some(set) = self.sets.get_mut(&address) {
            set.bind(name);
        }
    }

    /// Reserves capacity for one more set, so that the next `master` or `member` is not refused memory.
    /// The sets are unchanged.
    pub fn reserve(&mut self, _address: u8) -> Result<(), OutOfMemory>
        ensures ok { OnOk result (0 < self.new.capacity) }
        ensures sets { self.new.sets ≡ self.old.sets }
        ensures capacity { self.old.capacity ≤ self.new.capacity }
    {
        self.reserve_one()
    }

    // Inserts a set without members under its address.
    fn add(&mut self, address: u8, name: Option<Name>, count: u8) -> Result<(), OutOfMemory>
        ensures ok { OnOk result (self.new.sets ≡ with_set (record { address = address; name = name; count = member_count count; members = [] }) self.old.sets) }
        ensures err { OnErr result (self.new.sets ≡ self.old.sets) }
        ensures capacity { 0 < self.old.capacity → IsOk result }
    {
        self.reserve_one()?;
        let members = self.vacant.take().unwrap();
        self.sets
            .insert(address, Set::new(address, name, count, members))
            .unwrap();
        Ok(())
    }

    // Reserves capacity for one more set and for its members. After a refusal, memory reserved so far is kept.
    fn reserve_one(&mut self) -> Result<(), OutOfMemory>
        ensures ok { OnOk result (0 < self.new.capacity) }
        ensures sets { self.new.sets ≡ self.old.sets }
        ensures capacity { self.old.capacity ≤ self.new.capacity }
        ensures made { 0 < self.old.capacity → IsOk result }
    {
        if self.vacant.is_none() {
            self.vacant = Some(Box::new(self.alloc, ArrayVec::new())?);
        }
        self.sets.reserve(1)
    }
}
