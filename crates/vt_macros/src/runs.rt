//! Runs of the macros of events, and of the events raised by their commands (docs/PROFILE.md, "Runs").

ghost use Rattle.std.specs.Prelude.{◌≡◌, ◌<◌, ◌^◌, None, ◌∷◌, [], sum_by};
ghost use Rattle.std.specs.List.{AllByRecursion};
ghost use Rattle.vt_verify.specs.Budgets.{budget, cost};
ghost use Rattle.vt_verify.specs.Macros.{commands};
ghost use Rattle.vt_verify.specs.Triggers.{listing};
ghost use Rattle.vt_macros.specs.Machines.{fault, event_commands, joined_all, total_budget};
ghost use Rattle.vt_effects.specs.Soundness.{shape_in};
ghost use Rattle.vt_macros.specs.NestedRuns.{CanRun, HaveRun, commands_at, cost_on_store};

use crate::audio::Audio;
use crate::index::{Index, Span};
use crate::raising::events_of;
use vt_chains::Levels;
use vt_effects::execute;
use vt_objects::{Command, ObjectId, Raised, Store};

/// Runs the macros of events, one event after the other. Returns the number of steps: one for each command.
#[cycle(run)]
pub fn raise_all<S: Store>(
    index: &Index,
    store: &mut S,
    levels: &mut Levels,
    audio: &mut Audio,
    raised: &[Raised],
) -> u32
    requires can { CanRun index.now (S.contents store.old) levels.old }
    requires small { total_budget (shape_in (S.contents store.old)) raised.now < 2 ^ 32 }
    ensures { HaveRun index.now (S.contents store.old) audio.old (joined_all (shape_in (S.contents store.old)) raised.now) (total_budget (shape_in (S.contents store.old)) raised.now) result (S.contents store.new) audio.new levels.new }
{
    let mut steps = 0u32;
    for event in raised {
        steps += raise(index, store, levels, audio, event.id, event.event.number());
    }
    steps
}

/// Runs the macros of an event, in the order of its list. Returns the number of steps.
#[cycle(run)]
pub fn raise<S: Store>(
    index: &Index,
    store: &mut S,
    levels: &mut Levels,
    audio: &mut Audio,
    id: ObjectId,
    event: u8,
) -> u32
    requires { CanRun index.now (S.contents store.old) levels.old }
    ensures { HaveRun index.now (S.contents store.old) audio.old (event_commands (shape_in (S.contents store.old)) (listing id event)) (budget (shape_in (S.contents store.old)) id event) result (S.contents store.new) audio.new levels.new }
{
    let mut steps = 0u32;
    for macro_id in index.macros_at(id, event) {
        steps += run_macro(index, store, levels, audio, *macro_id);
    }
    steps
}

/// Runs the commands of a macro. Returns the number of steps.
#[cycle(run)]
fn run_macro<S: Store>(
    index: &Index,
    store: &mut S,
    levels: &mut Levels,
    audio: &mut Audio,
    id: u8,
) -> u32
    requires { CanRun index.now (S.contents store.old) levels.old }
    ensures { HaveRun index.now (S.contents store.old) audio.old (commands (shape_in (S.contents store.old)) id) (cost (shape_in (S.contents store.old)) id) result (S.contents store.new) audio.new levels.new }
{
    let mut steps = 0u32;
    for piece in index.pieces(id) {
        steps += run_piece(index, store, levels, audio, piece);
    }
    steps
}

/// Runs the macro command at a range of the macros' bytes. Returns the number of steps.
#[cycle(run)]
fn run_piece<S: Store>(
    index: &Index,
    store: &mut S,
    levels: &mut Levels,
    audio: &mut Audio,
    piece: &Span,
) -> u32
    requires can { CanRun index.now (S.contents store.old) levels.old }
    requires fault { AllByRecursion (λ command. fault (shape_in (S.contents store.old)) command ≡ None) (commands_at index.now piece.now) }
    requires small { sum_by (cost_on_store (S.contents store.old)) (commands_at index.now piece.now) < 2 ^ 32 }
    ensures { HaveRun index.now (S.contents store.old) audio.old (commands_at index.now piece.now) (sum_by (cost_on_store (S.contents store.old)) (commands_at index.now piece.now)) result (S.contents store.new) audio.new levels.new }
{
    match index.command(piece) {
        Some(command) => take(index, store, levels, audio, &command),
        None => 0,
    }
}

/// Does a command, notes it if it is an audio command, and runs the macros of its events. A refused command raises no
/// event. Returns the number of steps.
#[cycle(run)]
fn take<S: Store>(
    index: &Index,
    store: &mut S,
    levels: &mut Levels,
    audio: &mut Audio,
    command: &Command<'_>,
) -> u32
    requires can { CanRun index.now (S.contents store.old) levels.old }
    requires fault { fault (shape_in (S.contents store.old)) command.now ≡ None }
    requires small { cost_on_store (S.contents store.old) command.now < 2 ^ 32 }
    ensures { HaveRun index.now (S.contents store.old) audio.old (command.now ∷ []) (cost_on_store (S.contents store.old) command.now) result (S.contents store.new) audio.new levels.new }
{
    let raised = events_of(store, command);
    match execute(store, levels, command) {
        Ok(()) => {
            audio.note(command);
            raise_all(index, store, levels, audio, &raised) + 1
        }
        Err(_error) => 1,
    }
}
