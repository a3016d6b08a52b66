//! The dearest way: at each event its costliest macro, in this macro the costliest command, and after this command the costliest
//! event. Among equals it is the first.

use crate::costs::parts::{end_line, write_event, write_macro, write_steps};
use check_costs::{Breakdown, MacroCost, Share};
use check_text::{CheckedPool, CommandText};
use std::io::{self, Write};
use vt_objects::ObjectId;

/// Writes the dearest way of a breakdown, if it takes a step.
pub(crate) fn write_way<W: Write>(
    source: &CheckedPool<'_>,
    breakdown: &Breakdown,
    out: &mut W,
) -> io::Result<()> {
    let mut id = breakdown.event.id;
    let mut event = breakdown.event.event;
    let mut steps = breakdown.event.steps;
    if steps > 0 {
        writeln!(out, "dearest way:")?;
    }
    // Each macro of the way triggers the next, so none comes twice.
    for _ in 0..breakdown.macros.len() {
        if steps == 0 {
            return Ok(());
        }
        write_steps(steps, out)?;
        write_event(source, id, event, out)?;
        end_line(steps, out)?;
        let index = costliest_macro(breakdown, id, event);
        let Some(cost) = breakdown.macros.get(index) else {
            return Ok(());
        };
        let shares = cost.shares.as_slice();
        let command = costliest_command(shares);
        write_command(source, cost, command, out)?;
        steps = 0;
        match shares.get(costliest_event(shares, command)) {
            Some(Share::MayHide(raised) | Share::Raises(raised)) => {
                id = raised.id;
                event = raised.event;
                steps = raised.steps;
            }
            Some(Share::Command { .. }) | None => {}
        }
    }
    Ok(())
}

/// Writes a macro of the way with its costliest command, by its index in the shares.
fn write_command<W: Write>(
    source: &CheckedPool<'_>,
    cost: &MacroCost,
    command: usize,
    out: &mut W,
) -> io::Result<()> {
    write_steps(cost.steps, out)?;
    write!(out, "  ")?;
    write_macro(source, cost.id, out)?;
    if let Some(Share::Command { at, function, .. }) = cost.shares.get(command) {
        let command = CommandText {
            at: *at,
            function: *function,
        };
        write!(out, ", {command}")?;
    }
    end_line(cost.steps, out)
}

/// The index of the costliest macro that runs at an event; the number of macros if none takes a step.
fn costliest_macro(breakdown: &Breakdown, id: ObjectId, event: u8) -> usize {
    let mut found = breakdown.macros.len();
    let mut most = 0;
    for listed in breakdown.listings.at(id, event) {
        for (index, cost) in breakdown.macros.iter().enumerate() {
            if cost.id == *listed && cost.steps > most {
                found = index;
                most = cost.steps;
            }
        }
    }
    found
}

/// The index of the costliest command; 0 if there is none.
fn costliest_command(shares: &[Share]) -> usize {
    let mut found = 0;
    let mut most = 0;
    for (index, share) in shares.iter().enumerate() {
        if let Share::Command { steps, .. } = share {
            if *steps > most {
                found = index;
                most = *steps;
            }
        }
    }
    found
}

/// The index of the costliest event behind the command at an index; the number of shares if none takes a step.
fn costliest_event(shares: &[Share], command: usize) -> usize {
    let mut found = shares.len();
    let mut most = 0;
    let mut is_behind = false;
    for (index, share) in shares.iter().enumerate() {
        match share {
            Share::Command { .. } => is_behind = index == command,
            Share::MayHide(event) | Share::Raises(event) => {
                if is_behind && event.steps > most {
                    found = index;
                    most = event.steps;
                }
            }
        }
    }
    found
}
