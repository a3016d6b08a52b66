//! The working sets, with the time of the last frame of each address (docs/PROFILE.md, "Working sets", "Silence").

ghost use Rattle.std.specs.Prelude.{◌≡◌, ◌≢◌, ◌↔◌, true, ◌<◌, ◌≤◌, ℕ, None, Some, Ok, Err, [], length, slice_get, unwrap_or, IfErr, IfNone, IfSome, OnOk, OnErr, if◌then◌else◌};
ghost use Rattle.std.specs.Option.{option_copied};
ghost use Rattle.vt_names.specs.Registry.{set_at, with_set, without, registering, joining, binding, preloaded, has_place, AreApart, IsUnnamed};
ghost use Rattle.vt_names.specs.declared.registry.RegistryFault.TheVariants as declared;
ghost use Rattle.vt_can.specs.transport.FirstTimes.{IsFirstTime};
ghost use Rattle.vt_node.specs.Watches.{first_silent_of, is_silent, SomeAwaited, SomeSilent};
ghost use Rattle.vt_node.specs.Registries.{AreHeardSince, sooner};
ghost use Rattle.vt_node.specs.AddressFunctions.{with_at};
ghost use Rattle.vt_node.specs.Watches.{heard_of};

use crate::OutOfMemory;
use crate::watch::{SILENCE, Watch};
use std::alloc::Global;
use std::marker::Model;
use vt_can::earlier;
use vt_names::{Name, Registry, RegistryFault, Set};

/// The working sets, and the time of the last frame of each of the 256 addresses.
pub struct WatchedRegistry {
    registry: Registry,
    watch: Watch,
    // A lower bound of the times of last frames of sets. Most frame lines read nothing else.
    earliest: u64,
}

// Written out, not derived: the drop is proved once here, and not in each crate above.
impl Drop for WatchedRegistry {
    fn drop(self) {
        let WatchedRegistry {
            registry: _registry,
            watch: _watch,
            earliest: _earliest,
        } = self;
    }
}

impl Model for WatchedRegistry {
    ghost use Rattle.vt_node.specs.Registries.{Watched, watched_code, AreHeardSince};
    ghost use Rattle.vt_node.specs.Watches.{heard_of};

    ghost Value = { Watched };

    ghost coded = { watched_code };

    ghost view = { λ w. record { sets = w.registry.sets; capacity = w.registry.capacity; watch = w.watch } };

    ghost invariant = { λ w. AreHeardSince w.earliest (heard_of w.watch) w.registry.sets };
}

/// The result of a search of the sets.
#[derive(Clone, Copy)]
struct Found {
    /// The address of the first silent set.
    silent: Option<u8>,
    /// The earliest time of the last frame of a set.
    earliest: u64,
}

impl WatchedRegistry {
    /// Creates a registry without sets. Does not allocate.
    pub fn new(alloc: Global) -> WatchedRegistry
        ensures sets { result.sets ≡ [] }
        ensures heard { (address : ℕ) → heard_of result.watch address ≡ Some 0 }
    {
        WatchedRegistry {
            registry: Registry::new(alloc),
            watch: Watch::new(),
            earliest: u64::MAX,
        }
    }

    /// The number of sets.
    pub fn len(&self) -> usize
        ensures count { result ≡ length self.now.sets }
        // No two sets have the same address.
        ensures apart { AreApart self.now.sets }
    {
        self.registry.len()
    }

    /// Returns the set at an index in the order of registration.
    pub fn at(&self, index: usize) -> Option<&Set>
        ensures { option_copied result ≡ slice_get self.now.sets index }
    {
        self.registry.at(index)
    }

    /// Returns the set of an address.
    pub fn get(&self, address: u8) -> Option<&Set>
        ensures { option_copied result ≡ set_at address self.now.sets }
    {
        self.registry.get(address)
    }

    /// Reserves capacity for one more set, so that the next `master` or `member` is not refused memory.
    pub fn reserve(&mut self, address: u8) -> Result<(), OutOfMemory>
        ensures ok { OnOk result (0 < self.new.capacity) }
        ensures sets { self.new.sets ≡ self.old.sets }
        ensures watch { self.new.watch ≡ self.old.watch }
        ensures capacity { self.old.capacity ≤ self.new.capacity }
    {
        self.registry.reserve(address)
    }

    /// Registers a set by a master message, with the holder of its address. After an error the sets are unchanged.
    pub fn master(
        &mut self,
        address: u8,
        holder: Option<Name>,
        count: u8,
    ) -> Result<(), RegistryFault>
        ensures not_claimed { IfNone holder (result ≡ Err declared.NotClaimed) }
        ensures claimed { IfSome holder (λ _. IfErr result (λ fault. fault ≡ declared.OutOfMemory)) }
        ensures capacity { 0 < self.old.capacity → result ≢ Err declared.OutOfMemory }
        ensures sets { result ≢ Err declared.OutOfMemory → self.new.sets ≡ registering address holder count self.old.sets }
        ensures err { OnErr result (self.new.sets ≡ self.old.sets) }
        ensures watch { self.new.watch ≡ self.old.watch }
    {
        self.earliest = sooner(self.earliest, self.watch.last_heard(address));
        self.registry.master(address, holder, count)
    }

    /// Adds a member by a member message. After an error the sets are unchanged.
    pub fn member(&mut self, address: u8, name: Name) -> Result<(), RegistryFault>
        ensures no_set { set_at address self.old.sets ≡ None → result ≡ Err declared.NotMaster }
        ensures set { IfSome (set_at address self.old.sets) (λ set. result ≡ (if has_place set then Ok tt else Err declared.TooManyMembers)) }
        ensures sets { self.new.sets ≡ joining (set_at address self.old.sets) name self.old.sets }
        ensures watch { self.new.watch ≡ self.old.watch }
    {
        self.registry.member(address, name)
    }

    /// Adds a set without a NAME. The address must have no set yet. Its silence begins with the next frame line. After an
    /// error nothing is changed.
    pub fn preload(&mut self, address: u8) -> Result<(), OutOfMemory>
        requires none { set_at address self.old.sets ≡ None }
        ensures sets { OnOk result (self.new.sets ≡ with_set (preloaded address) self.old.sets) }
        ensures heard { OnOk result (heard_of self.new.watch ≡ with_at address None (heard_of self.old.watch)) }
        ensures err_sets { OnErr result (self.new.sets ≡ self.old.sets) }
        ensures err_heard { OnErr result (self.new.watch ≡ self.old.watch) }
    {
        self.registry.preload(address)?;
        self.watch.preload(address);
        Ok(())
    }

    /// Gives a NAME to the set of an address. There must be a set, and it must have no NAME yet.
    pub fn bind(&mut self, address: u8, name: Name)
        requires unnamed { IsUnnamed (set_at address self.old.sets) }
        ensures sets { self.new.sets ≡ binding (set_at address self.old.sets) name self.old.sets }
        ensures watch { self.new.watch ≡ self.old.watch }
    {
        self.registry.bind(address, name);
    }

    /// Removes the set of an address. The others keep their order.
    pub fn close(&mut self, address: u8)
        ensures sets { self.new.sets ≡ without address self.old.sets }
        ensures capacity { self.old.capacity ≤ self.new.capacity }
        ensures watch { self.new.watch ≡ self.old.watch }
    {
        self.registry.close(address);
    }

    /// Gives each address without a time the time of a frame line.
    pub fn begin(&mut self, now: u64)
        ensures heard { (address : ℕ) → heard_of self.new.watch address ≡ Some (unwrap_or (heard_of self.old.watch address) now) }
        ensures sets { self.new.sets ≡ self.old.sets }
        ensures capacity { self.new.capacity ≡ self.old.capacity }
    {
        self.earliest = self.earliest.min(now);
        self.watch.begin(now);
    }

    /// Records a frame from an address.
    pub fn note_frame(&mut self, address: u8, now: u64)
        ensures heard { heard_of self.new.watch ≡ with_at address (Some now) (heard_of self.old.watch) }
        ensures sets { self.new.sets ≡ self.old.sets }
        ensures capacity { self.new.capacity ≡ self.old.capacity }
    {
        self.earliest = self.earliest.min(now);
        self.watch.note_frame(address, now);
    }

    /// Whether an address would be silent at a frame line with the time `now`. docs/PROFILE.md, "Silence".
    pub fn is_silent_at(&self, address: u8, now: u64) -> bool
        ensures { result ≡ is_silent now (heard_of self.now.watch address) }
    {
        self.watch.is_silent(address, now)
    }

    /// Whether some address waits for the time of the next frame line, from which its silence counts.
    pub fn awaits(&self) -> bool
        ensures { (result ≡ true) ↔ SomeAwaited (heard_of self.now.watch) }
    {
        self.watch.awaits()
    }

    /// The first time at which a set is silent, or `None` if none ever is. docs/PROFILE.md, "Silence".
    pub fn silent_from(&self) -> Option<u64>
        ensures { IsFirstTime (SomeSilent (heard_of self.now.watch) self.now.sets) result }
    {
        let mut first = None;
        let mut place = self.registry.len();
        while place > 0 {
            place -= 1;
            if let Some(set) = self.registry.at(place) {
                first = earlier(first, self.watch.silent_from(set.address()));
            }
        }
        first
    }

    /// Returns the address of the first silent set in order of registration. Nothing is changed.
    pub fn first_silent(&mut self, now: u64) -> Option<u8>
        ensures found { result ≡ first_silent_of now (heard_of self.old.watch) self.old.sets }
        ensures same { self.new ≡ self.old }
    {
        if now.saturating_sub(self.earliest) <= SILENCE {
            return None;
        }
        let found = look(&self.registry, &self.watch, now);
        self.earliest = found.earliest;
        found.silent
    }
}

/// Searches all sets for the first silent one and for the earliest time.
fn look(registry: &Registry, watch: &Watch, now: u64) -> Found
    ensures silent { result.silent ≡ first_silent_of now (heard_of watch.now) registry.now.sets }
    ensures earliest { AreHeardSince result.earliest (heard_of watch.now) registry.now.sets }
{
    let mut found = Found {
        silent: None,
        earliest: u64::MAX,
    };
    let mut place = registry.len();
    while place > 0 {
        place -= 1;
        if let Some(set) = registry.at(place) {
            found = look_at(watch, set.address(), now, found);
        }
    }
    found
}

/// Extends the result of a search to the set of an address, which precedes the sets searched so far.
fn look_at(watch: &Watch, address: u8, now: u64, found: Found) -> Found
    ensures silent { result.silent ≡ (if is_silent now (heard_of watch.now address) then Some address else found.silent) }
    ensures earliest { result.earliest ≡ sooner found.earliest (heard_of watch.now address) }
{
    let earliest = sooner(found.earliest, watch.last_heard(address));
    let silent = if watch.is_silent(address, now) {
        Some(address)
    } else {
        found.silent
    };
    Found { silent, earliest }
}

/// The earlier of two times. The second one may be absent.
fn sooner(earliest: u64, heard: Option<u64>) -> u64
    ensures { result ≡ sooner earliest heard }
{
    match heard {
        Some(last) => earliest.min(last),
        None => earliest,
    }
}
