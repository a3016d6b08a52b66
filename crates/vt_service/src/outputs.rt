//! Outputs and events as lines.

ghost use Rattle.std.specs.Prelude.{◌≡◌, ◌++◌, [], Some, map, IfOk, OnOk};
ghost use Rattle.serde_json.specs.View.{view};
ghost use Rattle.vt_server.specs.declared.output.Output.TheVariants as outputs;
ghost use Rattle.vt_session.specs.Items.{item_value};
ghost use Rattle.vt_session.specs.Outputs.{Sent};
ghost use Rattle.vt_session.specs.Sessions.{Stays, waiting};
ghost use Rattle.vt_service.specs.Lines.{item_data, lines_data};

use crate::cells::{Cell, object_of};
use crate::events::event_value;
use crate::service::push_line;
use serde_json::Value;
use std::alloc::{AllocError, Global};
use vt_can::{Frame, write_frame};
use vt_logs::refusal_name;
use vt_server::{OperatorFault, Output};
use vt_session::Session;
use vt_session::outputs::{HostItem, latest, next};

/// Removes all outputs and events that wait, and appends a line for each.
pub(crate) fn take_outputs(session: &mut Session, lines: &mut Vec<String>) -> Result<(), AllocError>
    ensures lines { OnOk result (lines_data lines.new.items ≡ lines_data lines.old.items ++ map (λ item. Some (item_data item)) (waiting session.old)) }
    ensures taken { OnOk result (waiting session.new ≡ []) }
    ensures stays { Stays session.old session.new }
{
    let alloc = *lines.allocator();
    while next(session) != 0 {
        if let Some(item) = latest(session) {
            let value = item_json(alloc, &item)?;
            push_line(lines, &value)?;
        }
    }
    Ok(())
}

/// An output or an event.
fn item_json(alloc: Global, item: &HostItem<'_>) -> Result<Value, AllocError>
    ensures { IfOk result (λ v. view v ≡ item_data (item_value item.now)) }
{
    match item {
        HostItem::Sent(output) => output_json(alloc, output),
        HostItem::Told(event) => event_value(alloc, *event),
    }
}

fn output_json(alloc: Global, output: &Output) -> Result<Value, AllocError>
    ensures { IfOk result (λ v. view v ≡ item_data (Sent output.now)) }
{
    match output {
        Output::Frame(frame) => frame_json(alloc, frame),
        Output::Refused(fault) => refusal_json(alloc, *fault),
    }
}

fn frame_json(alloc: Global, frame: &Frame) -> Result<Value, AllocError>
    ensures { IfOk result (λ v. view v ≡ item_data (Sent (outputs.Frame frame.now))) }
{
    let text = String::from_utf8_lossy(alloc, write_frame(frame).as_slice())?;
    object_of(alloc, &[("send", Cell::Text(&text))])
}

fn refusal_json(alloc: Global, fault: OperatorFault) -> Result<Value, AllocError>
    ensures { IfOk result (λ v. view v ≡ item_data (Sent (outputs.Refused fault))) }
{
    object_of(alloc, &[("refused", Cell::Text(refusal_name(fault)))])
}
