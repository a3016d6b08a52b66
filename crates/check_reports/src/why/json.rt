//! Costs as lines of JSON.

use check_costs::{Breakdown, EventCost, MacroCost, Share};
use check_json::label_value;
use check_text::{CheckedPool, CommandText, event_name};
use serde_json::Value;
use std::alloc::{AllocError, Global};
use std::io::{self, Write};
use vt_cli::JsonLine;
use vt_objects::ObjectId;

/// An event with its steps.
pub(crate) fn event_json(
    alloc: Global,
    source: &CheckedPool<'_>,
    cost: &EventCost,
) -> Result<JsonLine, AllocError> {
    let mut line = JsonLine::new(alloc);
    line.put_number("event", u64::from(cost.event))?;
    line.put_text("event_name", event_name(cost.event))?;
    line.put("object", label_value(alloc, source.label(cost.id))?)?;
    line.put_number("steps", cost.steps)?;
    Ok(line)
}

/// Writes a line for the event with its macros, and one for each macro that it can run.
pub(crate) fn write_breakdown_json<W: Write>(
    alloc: Global,
    source: &CheckedPool<'_>,
    breakdown: &Breakdown,
    out: &mut W,
) -> io::Result<()> {
    listed_event(alloc, source, breakdown, &breakdown.event)?.write(out)?;
    for cost in breakdown.macros.iter() {
        let id = ObjectId::from_raw(u16::from(cost.id));
        let mut line = JsonLine::new(alloc);
        line.put("commands", commands_value(alloc, source, breakdown, cost)?)?;
        line.put("macro", label_value(alloc, source.label(id))?)?;
        line.put_number("steps", cost.steps)?;
        line.write(out)?;
    }
    Ok(())
}

/// An event with its steps and the IDs of the macros that run at it.
fn listed_event(
    alloc: Global,
    source: &CheckedPool<'_>,
    breakdown: &Breakdown,
    cost: &EventCost,
) -> Result<JsonLine, AllocError> {
    let mut line = event_json(alloc, source, cost)?;
    let mut macros = Vec::new(alloc);
    for id in breakdown.listings.at(cost.id, cost.event) {
        macros.push(Value::from(u64::from(*id)))?;
    }
    line.put("macros", Value::Array(macros))?;
    Ok(line)
}

/// The commands of a macro, each with the events that it raises.
fn commands_value(
    alloc: Global,
    source: &CheckedPool<'_>,
    breakdown: &Breakdown,
    cost: &MacroCost,
) -> Result<Value, AllocError> {
    let mut commands = Vec::new(alloc);
    // The events behind the last command so far, which come first from the back.
    let mut raised = Vec::new(alloc);
    for share in cost.shares.iter().rev() {
        match share {
            Share::Command {
                at,
                function,
                steps,
            } => {
                raised.reverse();
                let text = CommandText {
                    at: *at,
                    function: *function,
                };
                let mut command = JsonLine::new(alloc);
                command.put_number("at", *at as u64)?;
                command.put_text("command", text)?;
                command.put("raises", Value::Array(raised))?;
                command.put_number("steps", *steps)?;
                commands.push(command.into_value())?;
                raised = Vec::new(alloc);
            }
            Share::MayHide(event) | Share::Raises(event) => {
                let mut value = listed_event(alloc, source, breakdown, event)?;
                value.put("is_certain", Value::Bool(matches!(share, Share::Raises(_))))?;
                raised.push(value.into_value())?;
            }
        }
    }
    commands.reverse();
    Ok(Value::Array(commands))
}
