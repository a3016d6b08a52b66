//! The replay of a log to a new terminal, and what is shown after it.

ghost use Rattle.std.specs.Prelude.{◌≡◌, ◌≢◌, IfOk, IfErr, IfSome, IsErrOf, OnOk};
ghost use Rattle.vt_server.specs.States.{state_of};
ghost use Rattle.draw_gallery.specs.StatesLeft.{HasNothingShown, IsLoaded, IsPoolShown, IsStart, LeavesNothing, LeavesPool, new_state};

use crate::bytes::bytes_of;
use crate::fault::StateFault;
use std::alloc::Global;
use std::io;
use vt_can::assigned::TERMINAL_ADDRESS;
use vt_judge::judge;
use vt_logs::{Source, Stream, replay};
use vt_names::{Name, TERMINAL_NAME};
use vt_server::Terminal;

/// A working set that is there from the start.
#[derive(Clone, Copy, PartialEq, Eq)]
pub struct GivenSet<'a> {
    /// The bytes of its pool.
    pub pool: &'a [u8],
    /// Its address.
    pub owner: u8,
}

/// Replays a log to its end on a new terminal, with the set if there is one. Returns the records of the objects of the working set
/// that is shown then. Faulty lines are skipped.
pub fn pool_left<R: Source>(
    alloc: Global,
    set: Option<GivenSet<'_>>,
    log: &mut R,
) -> Result<Vec<u8>, StateFault>
    ensures pool { IfOk result (λ bytes. IfSome (R.remaining log.old) (λ input. LeavesPool set.entry input bytes.items)) }
    ensures nothing { IsErrOf result StateFault.NothingShown → IfSome (R.remaining log.old) (LeavesNothing set.entry) }
{
    // One way out of this body, since the end of a terminal takes a copy of it on the stack for each.
    let mut terminal = Terminal::new(alloc, TERMINAL_ADDRESS, Name::from_raw(TERMINAL_NAME));
    pool_left_on(alloc, set, log, &mut terminal)
}

/// Replays a log on a terminal that has received no input.
fn pool_left_on<R: Source>(
    alloc: Global,
    set: Option<GivenSet<'_>>,
    log: &mut R,
    terminal: &mut Terminal,
) -> Result<Vec<u8>, StateFault>
    requires { state_of terminal.old ≡ new_state }
    ensures pool { IfOk result (λ bytes. IfSome (R.remaining log.old) (λ input. LeavesPool set.entry input bytes.items)) }
    ensures nothing { IsErrOf result StateFault.NothingShown → IfSome (R.remaining log.old) (LeavesNothing set.entry) }
{
    start(alloc, set, terminal)?;
    let mut nowhere = Stream::new(io::sink());
    replay(alloc, log, &mut nowhere, terminal)?;
    pool_shown(alloc, terminal)
}

/// Adds the set to a new terminal, if there is one.
fn start(
    alloc: Global,
    set: Option<GivenSet<'_>>,
    terminal: &mut Terminal,
) -> Result<(), StateFault>
    requires { state_of terminal.old ≡ new_state }
    ensures start { OnOk result (IsStart set.entry (state_of terminal.new)) }
    ensures other { IfErr result (λ why. why ≢ StateFault.NothingShown) }
{
    match set {
        Some(set) => load(alloc, set, terminal),
        None => Ok(()),
    }
}

/// Adds a set to a new terminal.
fn load(alloc: Global, set: GivenSet<'_>, terminal: &mut Terminal) -> Result<(), StateFault>
    requires { state_of terminal.old ≡ new_state }
    ensures set { OnOk result (IsLoaded set.entry (state_of terminal.new)) }
    ensures other { IfErr result (λ why. why ≢ StateFault.NothingShown) }
{
    let GivenSet { pool, owner } = set;
    if owner > 253 || owner == TERMINAL_ADDRESS {
        return Err(StateFault::Owner);
    }
    let pool = match judge(alloc, pool) {
        Ok(pool) => pool,
        Err(refusal) if refusal.wants_memory() => return Err(StateFault::Memory),
        Err(_) => return Err(StateFault::Pool),
    };
    terminal.preload(owner, &pool)?;
    Ok(())
}

/// The records of the objects of the working set that a terminal shows.
fn pool_shown(alloc: Global, terminal: &Terminal) -> Result<Vec<u8>, StateFault>
    ensures pool { IfOk result (λ bytes. IsPoolShown (state_of terminal.now) bytes.items) }
    ensures nothing { IsErrOf result StateFault.NothingShown → HasNothingShown (state_of terminal.now) }
{
    let Some(address) = terminal.shown() else {
        return Err(StateFault::NothingShown);
    };
    let Some(live) = terminal.set(address) else {
        return Err(StateFault::NothingShown);
    };
    Ok(bytes_of(alloc, live.store())?)
}
