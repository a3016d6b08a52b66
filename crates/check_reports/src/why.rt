//! The subcommand `why`.

mod json;
mod list;
mod object;

use crate::costs::lines::write_breakdown;
use crate::costs::parts::is_over;
use crate::why::json::write_breakdown_json;
use crate::why::list::{put_list, write_list};
use crate::why::object::object_of;
use check_costs::{break_down, event_costs};
use check_inspect::Finding;
use check_json::item_json;
use check_options::{LineFormat, Question, WhyOptions};
use check_text::{CheckedPool, Item, MessageStyle, is_whole, put_message};
use std::alloc::Global;
use std::io::{self, Write};
use vt_cli::{InspectedFile, Open, Status, read_names};
use vt_objects::ObjectId;

/// What is told about costs.
#[derive(Clone, Copy)]
enum Answer {
    /// No cost is known.
    Unknown,
    /// The costs are told, and the greatest is this one.
    Told(u64),
}

/// Prints what an event of a pool can cost, and why, or which events cost a step. `errors` receives a sentence for each file that cannot
/// be read, for an object that is not there, and for a pool that is not read to its end. An error is returned if `out` cannot be written or
/// memory is refused.
pub fn run_why<F: Open, W: Write, E: Write>(
    alloc: Global,
    options: &WhyOptions<'_>,
    style: MessageStyle,
    files: &mut F,
    out: &mut W,
    errors: &mut E,
) -> io::Result<Status> {
    let Some(names) = read_names(alloc, options.names.as_slice(), files, errors)? else {
        return Ok(Status::NotJudged);
    };
    let Some(pool) = InspectedFile::read(alloc, options.pool, files, errors)? else {
        return Ok(Status::NotJudged);
    };
    let source = pool.named(&names);
    let is_judged = is_whole(source.inspection, options.pool, errors);
    let Some(answer) = write_answer(alloc, options, &source, out, errors)? else {
        return Ok(Status::NotJudged);
    };
    match answer {
        Answer::Unknown => {
            put_unknown(alloc, &source, options.format, style, out)?;
            Ok(Status::NotJudged)
        }
        Answer::Told(_) if !is_judged => Ok(Status::NotJudged),
        Answer::Told(steps) if is_over(steps) => Ok(Status::Found),
        Answer::Told(_) => Ok(Status::Clean),
    }
}

/// Writes the events that cost a step as lines of JSON, the dearest first. Returns whether costs are known: no line is written if macros end
/// inside a command, or trigger each other in a circle.
pub fn put_costs<W: Write>(
    alloc: Global,
    source: &CheckedPool<'_>,
    out: &mut W,
) -> io::Result<bool> {
    let Some(costs) = event_costs(alloc, &source.inspection.objects)? else {
        return Ok(false);
    };
    put_list(alloc, source, costs.as_slice(), out)?;
    Ok(true)
}

/// Writes the answer to the question of the options. `None` if the object is not there: then `errors` receives the reason.
fn write_answer<W: Write, E: Write>(
    alloc: Global,
    options: &WhyOptions<'_>,
    source: &CheckedPool<'_>,
    out: &mut W,
    errors: &mut E,
) -> io::Result<Option<Answer>> {
    let answer = match &options.question {
        Question::Pool => tell_list(alloc, options, source, None, out)?,
        Question::Object(word) => match object_of(source, word, errors) {
            Some(id) => tell_list(alloc, options, source, Some(id), out)?,
            None => return Ok(None),
        },
        Question::Event(word, event) => match object_of(source, word, errors) {
            Some(id) => tell_event(alloc, options.format, source, id, *event, out)?,
            None => return Ok(None),
        },
    };
    Ok(Some(answer))
}

/// Writes the events that cost a step, of an object or of all.
fn tell_list<W: Write>(
    alloc: Global,
    options: &WhyOptions<'_>,
    source: &CheckedPool<'_>,
    object: Option<ObjectId>,
    out: &mut W,
) -> io::Result<Answer> {
    let Some(costs) = event_costs(alloc, &source.inspection.objects)? else {
        return Ok(Answer::Unknown);
    };
    let steps = write_list(alloc, options, source, costs.as_slice(), object, out)?;
    Ok(Answer::Told(steps))
}

/// Writes why an event costs what it costs.
fn tell_event<W: Write>(
    alloc: Global,
    format: LineFormat,
    source: &CheckedPool<'_>,
    id: ObjectId,
    event: u8,
    out: &mut W,
) -> io::Result<Answer> {
    let Some(breakdown) = break_down(alloc, &source.inspection.objects, id, event)? else {
        return Ok(Answer::Unknown);
    };
    match format {
        LineFormat::Text => write_breakdown(source, &breakdown, out)?,
        LineFormat::Json => write_breakdown_json(alloc, source, &breakdown, out)?,
    }
    Ok(Answer::Told(breakdown.event.steps))
}

/// Prints why no costs are known: macros that end inside a command, or circles of macros.
fn put_unknown<W: Write>(
    alloc: Global,
    source: &CheckedPool<'_>,
    format: LineFormat,
    style: MessageStyle,
    out: &mut W,
) -> io::Result<()> {
    for finding in source.inspection.findings.iter() {
        if matches!(
            finding,
            Finding::MacroBytes { .. } | Finding::MacroCircle { .. }
        ) {
            put_item(alloc, source, Item::Finding(finding), format, style, out)?;
        }
    }
    for note in source.inspection.notes.iter() {
        put_item(alloc, source, Item::Note(*note), format, style, out)?;
    }
    Ok(())
}

/// Prints a finding or a note as `check` does.
fn put_item<W: Write>(
    alloc: Global,
    source: &CheckedPool<'_>,
    item: Item<'_>,
    format: LineFormat,
    style: MessageStyle,
    out: &mut W,
) -> io::Result<()> {
    let message = source.message(alloc, item)?;
    match format {
        LineFormat::Text => put_message(&message, style, out),
        LineFormat::Json => {
            let line = item_json(alloc, source, &message, item)?;
            writeln!(out, "{line}")
        }
    }
}
