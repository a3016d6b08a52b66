//! The terminal: its state and its public calls.

ghost use Rattle.std.specs.Prelude.{◌≡◌, ◌≢◌, ◌≤◌, ◌++◌, ◌<◌, ℕ, [], ◌∷◌, None, Some, true, false, is_some, IsOk, IfOk, IfErr, OnOk, OnErr, length, take};
ghost use Rattle.std.specs.Option.{option_map};
ghost use Rattle.vt_names.specs.Registry.{set_at};
ghost use Rattle.vt_node.specs.Profile.{standard};
ghost use Rattle.vt_stores.specs.Stores.{map_of};
ghost use Rattle.vt_server.specs.state.AddressStates.{empty};
ghost use Rattle.vt_server.specs.shown.Screens.{GainsScreenOf, KeepsScreen, redraws};
ghost use Rattle.vt_server.specs.States.{state_of, TakesInput, TakesInputs};
ghost use Rattle.vt_server.specs.message.UploadEnds.{TellsEndAfter, upload_end};
ghost use Rattle.vt_server.specs.Steps.{preloading};

use crate::OutOfMemory;
use crate::held_pool::HeldPool;
use crate::input::Input;
use crate::output::Output;
use crate::pools::PoolTable;
use crate::upload_end::UploadEnd;
use std::alloc::Global;
use thiserror::Error;
use vt_layout::draw;
use vt_machine::Live;
use vt_names::Name;
use vt_node::{Node, Profile, WatchedRegistry};
use vt_objects::SortedStore;
use vt_verify::Accepted;

/// A terminal at its own address: its working sets, their pools, the address claims received, and the shown working set.
pub struct Terminal {
    pub(crate) alloc: Global,
    pub(crate) node: Node,
    pub(crate) profile: Profile,
    pub(crate) registry: WatchedRegistry,
    pub(crate) contents: PoolTable,
    // The addresses of the selected set and of the shown set.
    pub(crate) selected: Option<u8>,
    pub(crate) shown: Option<u8>,
    // Whether a lower NAME has claimed the own address.
    pub(crate) lost: bool,
    // Whether the screen may differ from the one before the last call of `step` or `run` that took an input.
    pub(crate) redraws: bool,
    // The latest time so far, in microseconds.
    pub(crate) time: u64,
    // How the upload ended that the last frame ended. Right only if it ended one.
    pub(crate) upload_end: Option<UploadEnd>,
}

// Written out and not derived, so that the drop of all fields is proved once, here, and not in each crate that drops a terminal.
impl Drop for Terminal {
    fn drop(self) {
        let Terminal {
            alloc: _alloc,
            node: _node,
            profile: _profile,
            registry: _registry,
            contents: _contents,
            selected: _selected,
            shown: _shown,
            lost: _lost,
            redraws: _redraws,
            time: _time,
            upload_end: _upload_end,
        } = self;
    }
}

/// The memory for an input of a run was refused. All inputs before it are done, and none from it on.
#[derive(Clone, Copy, Debug, PartialEq, Eq, Error)]
#[error("the memory for input {at} was refused")]
pub struct RunFault {
    /// The index of that input.
    pub at: usize,
}

impl Terminal {
    /// A terminal without working sets, at address `own` (at most 253), with its NAME and the standard profile. Does not
    /// allocate.
    pub fn new(alloc: Global, own: u8, name: Name) -> Terminal
        requires { own ≤ 253 }
        ensures claims { (state_of result).claims ≡ record { own = own; name = name; addresses = [] } }
        ensures profile { (state_of result).profile ≡ standard }
        ensures sets { (state_of result).sets ≡ [] }
        ensures places { (address : ℕ) → (state_of result).places address ≡ empty }
        ensures selected { (state_of result).selected ≡ None }
        ensures shown { (state_of result).shown ≡ None }
        ensures lost { (state_of result).lost ≡ false }
        ensures now { (state_of result).now ≡ 0 }
        ensures redraws { redraws result ≡ true }
    {
        Terminal::new_with(alloc, own, name, Profile::standard())
    }

    /// A terminal like that of `new`, with other answers to requests for its technical data. docs/PROFILE.md, "Other messages".
    pub fn new_with(alloc: Global, own: u8, name: Name, profile: Profile) -> Terminal
        requires { own ≤ 253 }
        ensures profile { (state_of result).profile ≡ profile }
        ensures claims { (state_of result).claims ≡ record { own = own; name = name; addresses = [] } }
        ensures sets { (state_of result).sets ≡ [] }
        ensures places { (address : ℕ) → (state_of result).places address ≡ empty }
        ensures selected { (state_of result).selected ≡ None }
        ensures shown { (state_of result).shown ≡ None }
        ensures lost { (state_of result).lost ≡ false }
        ensures now { (state_of result).now ≡ 0 }
        ensures redraws { redraws result ≡ true }
    {
        Terminal {
            alloc,
            node: Node::new(alloc, own, name),
            profile,
            registry: WatchedRegistry::new(alloc),
            contents: PoolTable::new(),
            selected: None,
            shown: None,
            lost: false,
            redraws: true,
            time: 0,
            upload_end: None,
        }
    }

    /// Whether an address has a working set, with a pool or without.
    pub fn registered(&self, address: u8) -> bool
        ensures { result ≡ is_some (set_at address (state_of self.now).sets) }
    {
        self.registry.get(address).is_some()
    }

    /// The object pool of the working set at an address, if it has one.
    pub fn set(&self, address: u8) -> Option<&Live<SortedStore>>
        ensures { option_map (λ live. live.now) result ≡ ((state_of self.now).places address).content.pool }
    {
        self.contents.pool(address)
    }

    /// The address of the shown working set, if one is shown. docs/PROFILE.md, "The shown set and the selected set".
    pub fn shown(&self) -> Option<u8>
        ensures { result ≡ (state_of self.now).shown }
    {
        self.shown
    }

    /// Whether the screen may differ from the one before the last call of `step` or `run` that took an input, so that it has to
    /// be drawn again. Also true after `new` and after a successful `preload`. A call that takes no input, because memory was
    /// refused or there is none, leaves it as it was.
    pub fn redraws(&self) -> bool
        ensures { result ≡ redraws self.now }
    {
        self.redraws
    }

    /// Appends the screen of the shown working set as text, or `screen none` if no set is shown. After `OutOfMemory` the vector
    /// is unchanged. docs/PROFILE.md, "The drawing and the screen text".
    pub fn screen(&self, out: &mut Vec<u8>) -> Result<(), OutOfMemory>
        ensures ok { OnOk result (GainsScreenOf (state_of self.now) out.old.items out.new.items) }
        ensures err { OnErr result (out.new.items ≡ out.old.items) }
    {
        match self.shown_pool() {
            Some((address, live)) => draw(self.alloc, address, live, out),
            None => out.extend_from_slice(b"screen none\n"),
        }
    }

    /// Adds a working set without a NAME, with the objects of an accepted pool, and chooses the shown set. The address must be at
    /// most 253, must not be the terminal's own, and must have no set yet. No event is raised, and nothing is sent. After
    /// `OutOfMemory` the terminal is unchanged. docs/PROFILE.md, "Preloaded sets".
    pub fn preload(&mut self, address: u8, pool: &Accepted) -> Result<(), OutOfMemory>
        requires none { set_at address (state_of self.old).sets ≡ None }
        requires claimed { address ≤ 253 }
        requires other { address ≢ (state_of self.old).claims.own }
        ensures ok { OnOk result (state_of self.new ≡ preloading (state_of self.old) address (map_of pool.now)) }
        ensures err { OnErr result (state_of self.new ≡ state_of self.old) }
        ensures redraws { OnOk result (redraws self.new ≡ true) }
        ensures err_redraws { OnErr result (redraws self.new ≡ redraws self.old) }
    {
        let live = Live::new(self.alloc, pool)?;
        let boxed = Box::new(self.alloc, live)?;
        let held = HeldPool::new(boxed);
        self.registry.preload(address)?;
        self.contents.put(address, held);
        self.choose();
        self.redraws = true;
        Ok(())
    }

    /// Processes one input and appends its outputs, at most 1,024. After `OutOfMemory` the terminal and the outputs are
    /// unchanged. docs/PROFILE.md, "The order of a step".
    pub fn step(&mut self, input: &Input<'_>, outputs: &mut Vec<Output>) -> Result<(), OutOfMemory>
        ensures ok { OnOk result (TakesInput (state_of self.old) input.now (state_of self.new) outputs.old.items outputs.new.items) }
        ensures err { OnErr result (state_of self.new ≡ state_of self.old) }
        ensures err_sent { OnErr result (outputs.new.items ≡ outputs.old.items) }
        ensures err_redraws { OnErr result (redraws self.new ≡ redraws self.old) }
        // A terminal that lost its address needs no memory.
        ensures lost { (state_of self.old).lost ≡ true → IsOk result }
        // If `redraws` is false afterwards, the text of the screen is the same.
        ensures same { OnOk result (redraws self.new ≡ false → KeepsScreen (state_of self.old) (state_of self.new)) }
        ensures told { OnOk result (TellsEndAfter (state_of self.old) input.now (upload_end self.new)) }
    {
        match input {
            Input::Frame { time, frame } => self.step_frame(*time, frame, outputs),
            Input::Operator(action) => self.operate(action, outputs),
        }
    }

    /// Processes inputs in order and appends their outputs. After a `RunFault` the terminal and the outputs are those after the
    /// inputs before the faulty one. `redraws` covers all inputs done.
    pub fn run(&mut self, inputs: &[Input<'_>], outputs: &mut Vec<Output>) -> Result<(), RunFault>
        ensures ok { OnOk result (TakesInputs (state_of self.old) inputs.now (state_of self.new) outputs.old.items outputs.new.items) }
        ensures within { IfErr result (λ fault. fault.at < length inputs.now) }
        ensures fault { IfErr result (λ fault. TakesInputs (state_of self.old) (take fault.at inputs.now) (state_of self.new) outputs.old.items outputs.new.items) }
        // A terminal that lost its address needs no memory.
        ensures lost { (state_of self.old).lost ≡ true → IsOk result }
        // If `redraws` is false afterwards, the text of the screen is the same as before all of them.
        ensures same { redraws self.new ≡ false → KeepsScreen (state_of self.old) (state_of self.new) }
        // If no input was done, `redraws` is unchanged.
        ensures err_redraws { IfErr result (λ fault. fault.at ≡ 0 → redraws self.new ≡ redraws self.old) }
    {
        let mut redraws = false;
        for (at, input) in inputs.iter().enumerate() {
            match self.step(input, outputs) {
                Ok(()) => redraws |= self.redraws,
                Err(_) => {
                    self.redraws |= redraws;
                    return Err(RunFault { at });
                }
            }
        }
        self.redraws |= redraws;
        Ok(())
    }
}
