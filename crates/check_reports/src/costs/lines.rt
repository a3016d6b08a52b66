//! The lines of a breakdown.

use crate::costs::parts::{end_line, write_event, write_listed, write_macro, write_steps};
use crate::costs::way::write_way;
use check_costs::{Breakdown, EventCost, MacroCost, Share};
use check_text::{CheckedPool, CommandText};
use std::io::{self, Write};

/// Writes the event with its macros, then each macro that it can run with the shares of its commands, and then the dearest way.
pub(crate) fn write_breakdown<W: Write>(
    source: &CheckedPool<'_>,
    breakdown: &Breakdown,
    out: &mut W,
) -> io::Result<()> {
    write_listing(source, breakdown, out)?;
    for cost in breakdown.macros.iter() {
        write_shares(source, breakdown, cost, out)?;
    }
    write_way(source, breakdown, out)
}

/// Writes the event with its macros.
fn write_listing<W: Write>(
    source: &CheckedPool<'_>,
    breakdown: &Breakdown,
    out: &mut W,
) -> io::Result<()> {
    let event = &breakdown.event;
    write_steps(event.steps, out)?;
    write_event(source, event.id, event.event, out)?;
    end_line(event.steps, out)?;
    for id in breakdown.listings.at(event.id, event.event) {
        let steps = steps_of(breakdown, *id);
        write_steps(steps, out)?;
        write!(out, "  ")?;
        write_macro(source, *id, out)?;
        end_line(steps, out)?;
    }
    Ok(())
}

/// Writes a macro with the shares of its commands.
fn write_shares<W: Write>(
    source: &CheckedPool<'_>,
    breakdown: &Breakdown,
    cost: &MacroCost,
    out: &mut W,
) -> io::Result<()> {
    write_steps(cost.steps, out)?;
    write_macro(source, cost.id, out)?;
    write!(out, ":")?;
    end_line(cost.steps, out)?;
    for share in cost.shares.iter() {
        match share {
            Share::Command {
                at,
                function,
                steps,
            } => {
                write_steps(*steps, out)?;
                let command = CommandText {
                    at: *at,
                    function: *function,
                };
                write!(out, "  {command}")?;
                end_line(*steps, out)?;
            }
            Share::MayHide(event) => write_raised(source, breakdown, "may raise", event, out)?,
            Share::Raises(event) => write_raised(source, breakdown, "raises", event, out)?,
        }
    }
    Ok(())
}

/// Writes an event that a command raises, with the macros that run there.
fn write_raised<W: Write>(
    source: &CheckedPool<'_>,
    breakdown: &Breakdown,
    verb: &str,
    event: &EventCost,
    out: &mut W,
) -> io::Result<()> {
    write_steps(event.steps, out)?;
    write!(out, "    {verb} ")?;
    write_event(source, event.id, event.event, out)?;
    write_listed(breakdown, event, out)?;
    end_line(event.steps, out)
}

/// The steps of a macro; 0 if it is missing.
fn steps_of(breakdown: &Breakdown, id: u8) -> u64 {
    for cost in breakdown.macros.iter() {
        if cost.id == id {
            return cost.steps;
        }
    }
    0
}
