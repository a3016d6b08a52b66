//! A running working set with its object pool and event machine.

ghost use Rattle.std.specs.Prelude.{◌≡◌, ◌≤◌, ◌⊎◌, ℕ, [], ◌∷◌, Some, IfOk, true, false, length};
ghost use Rattle.std.specs.Option.{option_map};
ghost use Rattle.std.specs.FinMap as finite;
ghost use Rattle.vt_kinds.specs.declared.kind.Kind.TheVariants as kinds;
ghost use Rattle.vt_kinds.specs.Records.{seen};
ghost use Rattle.vt_stores.specs.Stores.{map_of};
ghost use Rattle.vt_chains.specs.Depths.{ids_of};
ghost use Rattle.vt_verify.specs.Budgets.{budget};
ghost use Rattle.vt_verify.specs.Rules.{working_sets};
ghost use Rattle.vt_verify.specs.Triggers.{listing};
ghost use Rattle.vt_effects.specs.Effects.{kind_in};
ghost use Rattle.vt_macros.specs.AudioOfRuns.{audio_after};
ghost use Rattle.vt_macros.specs.Machines.{event_commands};
ghost use Rattle.vt_effects.specs.Soundness.{shape_in};
ghost use Rattle.vt_commands.specs.Events as events;
ghost use Rattle.vt_macros.specs.NestedRuns.{CanRun};
ghost use Rattle.vt_macros.specs.QuietMacros.{KeepsLook, RunsKeepLook};
ghost use Rattle.vt_machine.specs.OperatorActions.{HasActed};
ghost use Rattle.vt_shown.specs.ShownElements.{IsShown, soft_key_mask_of};
ghost use Rattle.vt_effects.specs.Soundness.{IsSound};
ghost use Rattle.vt_machine.specs.SetStates.{HasRun, Applied, IsActive, working_set_in, active_in, after_run, audio_after_command, fresh_set, renewed};

use crate::kept::{kept_input, kept_key};
use crate::working_set::working_set;
use std::alloc::{AllocError, Global};
use std::marker::Model;
use vt_chains::Levels;
use vt_effects::{execute, keeps_look};
use vt_macros::{Audio, Index, active_mask, events_of, raise, raise_all};
use vt_objects::{Command, Event, Object, ObjectId, Raised, SortedStore, Store};
use vt_shown::{search_shown, soft_key_mask};
use vt_verify::{Accepted, AcceptedParts};

/// The key that the operator holds.
#[derive(Clone, Copy, PartialEq, Eq)]
pub(crate) struct HeldKey {
    /// The Key or Button.
    pub(crate) id: ObjectId,
    /// The active mask at the press.
    pub(crate) mask: ObjectId,
}

/// The result of a command.
#[derive(Clone, Copy, PartialEq, Eq)]
pub enum Outcome {
    /// The command is done. `steps` counts its own step and one for each command of the macros that it triggers.
    Done { steps: u32 },
    /// The command is refused with this error byte, and nothing has changed.
    Refused { bits: u8 },
}

/// The present object pool of a working set, with the held key and the selected input. Its macros run to their end: each
/// event takes at most the steps in the pool's report, a call at most the sum for its events, and `apply` one more for
/// its command. After construction no call allocates, except `renew` and `renew_from`, which construct another, and
/// `replacement`, which copies an update (ISO 11783-6; docs/PROFILE.md, "Runs", "Steps").
pub struct Live<S: Store> {
    pub(crate) store: S,
    levels: Levels,
    index: Index,
    working_set: ObjectId,
    /// A mark for each object.
    marks: Vec<bool>,
    /// Whether the marks hold: the active mask shows each marked object. They do so until a call changes what the text of a
    /// screen shows.
    pub(crate) are_marked: bool,
    /// Whether the marks, where they hold, are whole: the marked objects are all that the active mask shows.
    all_marked: bool,
    pub(crate) key: Option<HeldKey>,
    pub(crate) input: Option<ObjectId>,
    /// The audio commands that are done.
    audio: Audio,
}

// Written by hand, so that the crates above need not prove it again.
impl<S: Store> Drop for Live<S> {
    fn drop(self) {
        let Live {
            store: _store,
            levels: _levels,
            index: _index,
            working_set: _working_set,
            marks: _marks,
            are_marked: _are_marked,
            all_marked: _all_marked,
            key: _key,
            input: _input,
            audio: _audio,
        } = self;
    }
}

impl<S: Store> Model for Live<S> {
    ghost use Rattle.std.specs.Prelude.{◌≡◌, Some, true};
    ghost use Rattle.vt_kinds.specs.declared.kind.Kind.TheVariants as kinds;
    ghost use Rattle.vt_effects.specs.Effects.{kind_in};
    ghost use Rattle.vt_machine.specs.SetStates.{HasMarks, SetState, state_code, holds_key};
    ghost use Rattle.vt_macros.specs.NestedRuns.{CanRun};

    ghost Value = { SetState };

    ghost coded = { state_code };

    ghost view = { λ a. record { objects = S.contents a.store; key = a.key; input = a.input; audio = a.audio } };

    ghost invariant = { λ a. CanRun a.index (S.contents a.store) a.levels × (kind_in (S.contents a.store) a.working_set ≡ Some kinds.WorkingSet)
        × HasMarks (S.contents a.store) a.are_marked a.all_marked a.marks.items
        × (holds_key (S.contents a.store) a.key ≡ true) };
}

impl<S: Store> Live<S> {
    /// A working set with the objects of an accepted pool. No key is held, and no input is selected. `OutOfMemory` if an
    /// allocation is refused.
    pub fn new(alloc: Global, accepted: &Accepted) -> Result<Live<S>, AllocError>
        ensures { IfOk result (λ live. live ≡ fresh_set (map_of accepted.now)) }
    {
        let store = S::from_objects(alloc, accepted.objects())?;
        let levels = Levels::of_store(alloc, &store)?;
        let mut index = Index::new(alloc, accepted)?;
        index.find_quiet(&store, accepted.by_rank());
        let working_set = working_set_of(accepted);
        Live::of_parts(alloc, store, levels, index, working_set)
    }

    /// A working set of these parts, with no held key and no selected input.
    fn of_parts(
        alloc: Global,
        store: S,
        levels: Levels,
        index: Index,
        working_set: ObjectId,
    ) -> Result<Live<S>, AllocError>
        requires runs { CanRun index (S.contents store) levels }
        requires set { kind_in (S.contents store) working_set ≡ Some kinds.WorkingSet }
        ensures { IfOk result (λ live. live ≡ fresh_set (S.contents store)) }
    {
        let marks = Vec::from_elem(alloc, false, store.count())?;
        Ok(Live {
            store,
            levels,
            index,
            working_set,
            marks,
            are_marked: false,
            all_marked: false,
            key: None,
            input: None,
            audio: Audio::new(),
        })
    }

    /// The working set with the objects of an accepted update of its store. Keeps the held key and the selected input if
    /// their objects are still of the same kind. This working set is unchanged, also if an allocation is refused
    /// (`OutOfMemory`).
    pub fn renew(&self, accepted: &Accepted) -> Result<Live<S>, AllocError>
        ensures { IfOk result (λ live. live ≡ renewed self.now (map_of accepted.now)) }
    {
        let live = Live::new(self.allocator(), accepted)?;
        Ok(live.keeping(self))
    }

    /// This working set with the held key and the selected input of `old`, each if its object is of the same kind in
    /// both, and with its audio commands.
    fn keeping(mut self, old: &Live<S>) -> Live<S>
        ensures { result ≡ renewed old.now self.objects }
    {
        let key = kept_key(&old.store, &self.store, old.key);
        let input = kept_input(&old.store, &self.store, old.input);
        self.key = key;
        self.input = input;
        self.audio = old.audio;
        self
    }

    pub(crate) fn allocator(&self) -> Global {
        *self.marks.allocator()
    }

    /// The objects of the working set.
    pub fn store(&self) -> &S
        ensures objects { S.contents result.now ≡ self.now.objects }
        // The references and chains of the objects are in order.
        ensures sound { IsSound self.now.objects }
    {
        &self.store
    }

    /// The object of an ID, or `None` if it is missing.
    pub fn get(&self, id: ObjectId) -> Option<&Object<Vec<u8>>>
        ensures { option_map (λ o. seen o.now) result ≡ finite.get self.now.objects id }
    {
        self.store.get(id)
    }

    /// The Working Set object, on which the events of its activation are raised.
    pub fn working_set(&self) -> ObjectId
        ensures set { result ≡ working_set_in self.now.objects }
        ensures kind { kind_in self.now.objects result ≡ Some kinds.WorkingSet }
    {
        self.working_set
    }

    /// The active mask of the working set, or NULL.
    pub fn active_mask(&self) -> ObjectId
        ensures mask { IsActive self.now.objects result }
        ensures active { result ≡ active_in self.now.objects }
        // There is exactly one working set.
        ensures one { working_sets (shape_in self.now.objects) ≡ 1 }
    {
        active_mask(&self.store, self.working_set)
    }

    /// The soft key mask of the active mask, or NULL.
    pub fn soft_key_mask(&self) -> ObjectId
        ensures mask { (mask : ℕ) × IsActive self.now.objects mask × (result ≡ soft_key_mask_of (finite.get self.now.objects mask)) }
        ensures active { result ≡ soft_key_mask_of (finite.get self.now.objects (active_in self.now.objects)) }
    {
        soft_key_mask(&self.store, self.active_mask())
    }

    /// The audio commands that are done, by the implement and in macros. An update of the pool keeps them.
    pub fn audio(&self) -> Audio
        ensures { result ≡ self.now.audio }
    {
        self.audio
    }

    /// Raises an event of an object, by its number: runs the macros listed for it, and those of the events that their
    /// commands raise. Returns the number of steps, which is 0 for a missing object and for a number above 26. Event 0 of a
    /// macro runs the macro itself.
    pub fn raise(&mut self, id: ObjectId, event: u8) -> u32
        ensures run { HasRun self.old.objects (event_commands (shape_in self.old.objects) (listing id event)) (budget (shape_in self.old.objects) id event) result self.new.objects }
        ensures kept { self.new ≡ after_run self.old self.new.objects self.new.audio }
        ensures audio { self.new.audio ≡ audio_after (budget (shape_in self.old.objects) id event) self.old.audio self.old.objects (event_commands (shape_in self.old.objects) (listing id event)) }
    {
        self.are_marked &= self.index.is_quiet_at(id, event);
        raise(
            &self.index,
            &mut self.store,
            &mut self.levels,
            &mut self.audio,
            id,
            event,
        )
    }

    /// Raises events, one after the other. Returns the number of steps.
    pub(crate) fn raise_all(&mut self, raised: &[Raised]) -> u32
        requires { length raised.now ≤ 3 }
        ensures { HasActed self.old raised.now result self.new }
    {
        self.are_marked &= self.index.are_quiet(raised);
        raise_all(
            &self.index,
            &mut self.store,
            &mut self.levels,
            &mut self.audio,
            raised,
        )
    }

    /// Whether the active mask shows an object.
    pub(crate) fn shows(&mut self, id: ObjectId) -> bool
        ensures shown { result ≡ true → IsShown self.old.objects (active_in self.old.objects) id }
        ensures not_shown { result ≡ false → IsShown self.old.objects (active_in self.old.objects) id → ⊥ }
        ensures same { self.new ≡ self.old }
    {
        let Some(index) = self.store.place(id) else {
            return false;
        };
        if self.are_marked && self.all_marked {
            return self.marks[index];
        }
        if self.are_marked && self.marks[index] {
            return true;
        }
        let mask = self.active_mask();
        let sought = self.sought(index);
        let marks = &mut self.marks;
        let is_found = search_shown(&self.store, self.levels.as_slice(), marks, mask, sought);
        self.are_marked = true;
        self.all_marked = !is_found;
        self.marks[index]
    }

    /// The index to search for: at first that of the object asked for. A second search while the look stays is for no object,
    /// and so marks all objects shown.
    fn sought(&self, index: usize) -> usize
        ensures { (result ≡ index) ⊎ (length (ids_of self.now.objects) ≤ result) }
    {
        if self.are_marked {
            return self.store.count();
        }
        index
    }

    /// Executes a command, and runs the macros of the events that it raises. Delete Object Pool changes nothing here: the
    /// terminal handles it.
    pub fn apply(&mut self, command: &Command<'_>) -> Outcome
        ensures applied { Applied self.old.objects command.now result self.new.objects }
        ensures kept { self.new ≡ after_run self.old self.new.objects self.new.audio }
        ensures audio { self.new.audio ≡ audio_after_command command.now self.old }
    {
        self.are_marked &= self.keeps_look(command);
        let raised = events_of(&self.store, command);
        match execute(&mut self.store, &mut self.levels, command) {
            Ok(()) => {
                self.audio.note(command);
                let steps = raise_all(
                    &self.index,
                    &mut self.store,
                    &mut self.levels,
                    &mut self.audio,
                    &raised,
                );
                Outcome::Done { steps: steps + 1 }
            }
            Err(bits) => Outcome::Refused { bits },
        }
    }

    /// Whether a command and the macros of its events leave unchanged what the text of a screen shows. If true, the screen is
    /// the same after `apply`. docs/PROFILE.md, "The drawing and the screen text".
    pub fn keeps_look(&self, command: &Command<'_>) -> bool
        ensures { result ≡ true → KeepsLook self.now.objects command.now }
    {
        if !keeps_look(&self.store, command) {
            return false;
        }
        let raised = events_of(&self.store, command);
        self.index.are_quiet(&raised)
    }

    /// Whether the macros of an event leave unchanged what the text of a screen shows. docs/PROFILE.md, "The drawing and the
    /// screen text".
    pub fn keeps_look_at(&self, id: ObjectId, event: Event) -> bool
        ensures { result ≡ true → RunsKeepLook self.now.objects (events.raise id event ∷ []) }
    {
        self.index.are_quiet(&[Raised { id, event }])
    }
}

impl Live<SortedStore> {
    /// Like `new`, but takes over the verifier's results: copies no object and searches no chain again.
    pub fn from_accepted(alloc: Global, accepted: Accepted) -> Result<Live<SortedStore>, AllocError>
        ensures { IfOk result (λ live. live ≡ fresh_set (map_of accepted)) }
    {
        let commands = Index::of_commands(alloc, &accepted)?;
        let order = Vec::from_slice(alloc, accepted.by_rank())?;
        let working_set = working_set_of(&accepted);
        let AcceptedParts {
            objects,
            depths,
            listings,
        } = accepted.into_parts();
        let levels = Levels::of_depths(alloc, depths)?;
        let mut index = commands.with_listings(listings);
        index.find_quiet(&objects, &order);
        Live::of_parts(alloc, objects, levels, index, working_set)
    }

    /// Like `renew`, but takes over the verifier's results.
    pub fn renew_from(&self, accepted: Accepted) -> Result<Live<SortedStore>, AllocError>
        ensures { IfOk result (λ live. live ≡ renewed self.now (map_of accepted)) }
    {
        let live = Live::from_accepted(self.allocator(), accepted)?;
        Ok(live.keeping(self))
    }
}

/// The working set of an accepted pool.
fn working_set_of(accepted: &Accepted) -> ObjectId
    ensures { kind_in (map_of accepted.now) result ≡ Some kinds.WorkingSet }
{
    match working_set(accepted.objects()) {
        Some(id) => id,
        None => unreachable!(),
    }
}
