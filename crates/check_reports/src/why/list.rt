//! The events that cost a step.

use crate::costs::parts::{end_line, write_event, write_steps};
use crate::why::json::event_json;
use check_costs::EventCost;
use check_options::{LineFormat, WhyOptions};
use check_text::CheckedPool;
use std::alloc::{AllocError, Global};
use std::cmp::Reverse;
use std::io::{self, Write};
use vt_objects::ObjectId;

/// Writes the events that cost a step, of an object or of all, the dearest first. Returns the greatest cost.
pub(crate) fn write_list<W: Write>(
    alloc: Global,
    options: &WhyOptions<'_>,
    source: &CheckedPool<'_>,
    costs: &[EventCost],
    object: Option<ObjectId>,
    out: &mut W,
) -> io::Result<u64> {
    let listed = listed_costs(alloc, costs, object)?;
    let most = options.most.map_or(listed.len(), |most| most as usize);
    for cost in listed.iter().take(most) {
        match options.format {
            LineFormat::Text => write_cost(source, cost, out)?,
            LineFormat::Json => event_json(alloc, source, cost)?.write(out)?,
        }
    }
    if options.format == LineFormat::Text {
        write_rest(listed.len(), most, out)?;
    }
    Ok(listed.first().map_or(0, |dearest| dearest.steps))
}

/// Writes the events that cost a step as lines of JSON, the dearest first.
pub(crate) fn put_list<W: Write>(
    alloc: Global,
    source: &CheckedPool<'_>,
    costs: &[EventCost],
    out: &mut W,
) -> io::Result<()> {
    let listed = listed_costs(alloc, costs, None)?;
    for cost in listed.iter() {
        event_json(alloc, source, cost)?.write(out)?;
    }
    Ok(())
}

/// The costs of the events that cost a step, the dearest first.
fn listed_costs(
    alloc: Global,
    costs: &[EventCost],
    object: Option<ObjectId>,
) -> Result<Vec<EventCost>, AllocError> {
    let mut listed = Vec::new(alloc);
    for cost in costs {
        if cost.steps > 0 && is_of(&object, cost.id) {
            listed.push(*cost)?;
        }
    }
    listed.sort_by_key(|cost| Reverse(cost.steps))?;
    Ok(listed)
}

/// Whether an event is one of an object, if one is given.
fn is_of(object: &Option<ObjectId>, id: ObjectId) -> bool {
    match object {
        None => true,
        Some(object) => *object == id,
    }
}

/// Writes an event with its steps.
fn write_cost<W: Write>(source: &CheckedPool<'_>, cost: &EventCost, out: &mut W) -> io::Result<()> {
    write_steps(cost.steps, out)?;
    write_event(source, cost.id, cost.event, out)?;
    end_line(cost.steps, out)
}

/// Writes how many events have no line, or that there are none.
fn write_rest<W: Write>(count: usize, most: usize, out: &mut W) -> io::Result<()> {
    if count == 0 {
        return writeln!(out, "no event costs a step");
    }
    match count.saturating_sub(most) {
        0 => Ok(()),
        rest => writeln!(out, "not shown: {rest}"),
    }
}
