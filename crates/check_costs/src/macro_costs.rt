//! The costs of macros, with the shares of their commands.

ghost use Rattle.std.specs.Prelude.{◌≡◌, ◌++◌, None, map, IfOk, OnOk, IsTrue, is_some};
ghost use Rattle.std.specs.List.{flat_map};
ghost use Rattle.std.specs.Option.{option_to_list};
ghost use Rattle.vt_commands.specs.Pieces.{cut};
ghost use Rattle.vt_stores.specs.Shapes.{shape_of};
ghost use Rattle.vt_verify.specs.Budgets.{cost, command_cost};
ghost use Rattle.vt_verify.specs.Macros.{pieces_of};
ghost use Rattle.vt_verify.specs.Rules as rules;
ghost use Rattle.vt_verify.specs.Triggers.{listing};
ghost use Rattle.check_costs.specs.CostedPools.{IsCosted};
ghost use Rattle.check_costs.specs.Shares as shares;
ghost use Rattle.check_costs.specs.Shares.{IsCostliestHide, hide_by, piece_shares, command_shares, event_shares, macro_shares, row_of, macro_row, function_of, counted};

use crate::costed_pool::CostedPool;
use crate::costliest::steps_of;
use crate::share::{EventCost, MOST_STEPS, MacroCost, Share};
use std::alloc::{AllocError, Global};
use vt_objects::laws::cut_is_one;
use vt_objects::{Command, ObjectId, row_events, split_command};
use vt_verify::{macro_bytes, macro_command};

/// The cost of a macro, with the shares of its commands. `hide` is the costliest Hide event of a mask.
pub(crate) fn macro_cost(
    alloc: Global,
    pool: &CostedPool<'_>,
    hide: &Option<EventCost>,
    id: u8,
) -> Result<MacroCost, AllocError>
    requires pool { IsCosted pool.now }
    requires whole { rules.cut_short (shape_of pool.now.objects.now) ≡ None }
    requires hide { IsCostliestHide (shape_of pool.now.objects.now) hide.now }
    ensures { IfOk result (λ m. row_of m ≡ macro_row (shape_of pool.now.objects.now) hide.now id) }
{
    Ok(MacroCost {
        id,
        steps: pool.steps[usize::from(id)],
        shares: shares_of(alloc, pool, hide, ObjectId::from_raw(u16::from(id)))?,
    })
}

/// The shares of a macro's commands. None if there is no such macro.
fn shares_of(
    alloc: Global,
    pool: &CostedPool<'_>,
    hide: &Option<EventCost>,
    id: ObjectId,
) -> Result<Vec<Share>, AllocError>
    requires pool { IsCosted pool.now }
    requires whole { rules.cut_short (shape_of pool.now.objects.now) ≡ None }
    requires hide { IsCostliestHide (shape_of pool.now.objects.now) hide.now }
    ensures { IfOk result (λ found. found.items ≡ macro_shares (shape_of pool.now.objects.now) hide.now id) }
{
    let mut shares = Vec::new(alloc);
    match macro_bytes(pool.objects, id) {
        Some(bytes) => {
            put_shares(pool, hide, bytes, &mut shares)?;
            Ok(shares)
        }
        None => Ok(shares),
    }
}

/// Appends the shares of a macro's commands.
fn put_shares(
    pool: &CostedPool<'_>,
    hide: &Option<EventCost>,
    bytes: &[u8],
    shares: &mut Vec<Share>,
) -> Result<(), AllocError>
    requires pool { IsCosted pool.now }
    requires whole { IsTrue (is_some (cut bytes.now)) }
    requires hide { IsCostliestHide (shape_of pool.now.objects.now) hide.now }
    ensures { OnOk result (shares.new.items ≡ shares.old.items ++ flat_map (piece_shares (shape_of pool.now.objects.now) hide.now) (pieces_of (0, bytes.now))) }
{
    // The remaining bytes are cut into the same commands as in the whole.
    cut_is_one();
    let mut rest = bytes;
    while let Some((piece, next)) = split_command(rest) {
        put_piece(pool, hide, bytes.len() - rest.len(), piece, shares)?;
        rest = next;
    }
    Ok(())
}

/// Appends the shares of one macro command, which begins at an offset of the macro's bytes. Bytes that are no command have none.
fn put_piece(
    pool: &CostedPool<'_>,
    hide: &Option<EventCost>,
    at: usize,
    piece: &[u8],
    shares: &mut Vec<Share>,
) -> Result<(), AllocError>
    requires pool { IsCosted pool.now }
    requires hide { IsCostliestHide (shape_of pool.now.objects.now) hide.now }
    ensures { OnOk result (shares.new.items ≡ shares.old.items ++ piece_shares (shape_of pool.now.objects.now) hide.now (record { id = 0; at = at; bytes = piece.now })) }
{
    match macro_command(piece) {
        Some(command) => put_command(pool, hide, at, function_of(piece), &command, shares),
        None => Ok(()),
    }
}

/// The function of a macro command: its first byte.
fn function_of(piece: &[u8]) -> u8
    ensures { result ≡ function_of piece.now }
{
    match piece.first() {
        Some(function) => *function,
        None => 0,
    }
}

/// Appends a command, and the events that it may raise.
fn put_command(
    pool: &CostedPool<'_>,
    hide: &Option<EventCost>,
    at: usize,
    function: u8,
    command: &Command<'_>,
    shares: &mut Vec<Share>,
) -> Result<(), AllocError>
    requires pool { IsCosted pool.now }
    requires hide { IsCostliestHide (shape_of pool.now.objects.now) hide.now }
    ensures { OnOk result (shares.new.items ≡ shares.old.items ++ command_shares (shape_of pool.now.objects.now) hide.now at function command.now) }
{
    let steps = command_steps(pool, hide, command);
    shares.push(Share::Command {
        at,
        function,
        steps,
    })?;
    put_hide(hide, command, shares)?;
    for raised in row_events(command) {
        put_event(pool, raised.id, raised.event.number(), shares)?;
    }
    Ok(())
}

/// The steps of a command: one, and those of the events that it may raise.
fn command_steps(pool: &CostedPool<'_>, hide: &Option<EventCost>, command: &Command<'_>) -> u64
    requires pool { IsCosted pool.now }
    requires hide { IsCostliestHide (shape_of pool.now.objects.now) hide.now }
    ensures { result ≡ counted (command_cost (cost (shape_of pool.now.objects.now)) (shape_of pool.now.objects.now) command.now) }
{
    let mut steps = hide_steps(hide, command).saturating_add(1).min(MOST_STEPS);
    for raised in row_events(command) {
        let event = pool.event_cost(raised.id, raised.event.number());
        steps = steps.saturating_add(event.steps).min(MOST_STEPS);
    }
    steps
}

/// The steps of the costliest Hide event, if the command may hide a mask, or else 0.
fn hide_steps(hide: &Option<EventCost>, command: &Command<'_>) -> u64
    ensures { result ≡ shares.steps_of (hide_by command.now hide.now) }
{
    if let Command::ChangeActiveMask { .. } = command {
        steps_of(hide)
    } else {
        0
    }
}

/// Appends the costliest Hide event, if the command may hide a mask.
fn put_hide(
    hide: &Option<EventCost>,
    command: &Command<'_>,
    shares: &mut Vec<Share>,
) -> Result<(), AllocError>
    ensures { OnOk result (shares.new.items ≡ shares.old.items ++ map Share.MayHide (option_to_list (hide_by command.now hide.now))) }
{
    if let Command::ChangeActiveMask { .. } = command
        && let Some(event) = hide
    {
        shares.push(Share::MayHide(*event))?;
    }
    Ok(())
}

/// Appends an event, if macros run at it.
fn put_event(
    pool: &CostedPool<'_>,
    id: ObjectId,
    event: u8,
    shares: &mut Vec<Share>,
) -> Result<(), AllocError>
    requires { IsCosted pool.now }
    ensures { OnOk result (shares.new.items ≡ shares.old.items ++ event_shares (shape_of pool.now.objects.now) (listing id event)) }
{
    if pool.triggers.macros_at(id, event).is_empty() {
        return Ok(());
    }
    shares.push(Share::Raises(pool.event_cost(id, event)))?;
    Ok(())
}
