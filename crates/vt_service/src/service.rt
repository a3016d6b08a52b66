//! The lines of a service.

ghost use Rattle.std.specs.Prelude.{◌≡◌, ◌++◌, ◌≤◌, ◌∷◌, [], Some, OnOk};
ghost use Rattle.serde_json.specs.Data.{depth};
ghost use Rattle.serde_json.specs.View.{view};
ghost use Rattle.vt_can.specs.Assigned.{NULL_ADDRESS};
ghost use Rattle.vt_node.specs.Profile.{standard};
ghost use Rattle.vt_session.specs.Sessions.{Begins, waiting};
ghost use Rattle.vt_service.specs.Answers.{refusal_data};
ghost use Rattle.vt_service.specs.Lines.{lines_data};
ghost use Rattle.vt_service.specs.Service.{IsAsked, Serves, number_of};

use crate::answers::{command_answer, question_answer, refusal, told_of};
use crate::asking::value_of;
use crate::commands::perform;
use crate::members::Malformed;
use crate::outputs::take_outputs;
use crate::reading::read;
use crate::request::{Question, Request};
use serde_json::Value;
use std::alloc::{AllocError, Global};
use vt_can::assigned::NULL_ADDRESS;
use vt_server::Profile;
use vt_session::Session;
use vt_session::session::begin_with;

/// A session without a terminal: each command but `begin` is answered with `not-begun`.
pub fn new_session(alloc: Global) -> Session
    ensures { Begins NULL_ADDRESS 0 standard result }
{
    begin_with(alloc, u32::from(NULL_ADDRESS), 0, Profile::standard())
}

/// Serves a line, and appends the lines of its answer. Before and after a call, no output waits in the session.
///
/// After `OutOfMemory` some lines may be missing, and the command of the line may have been performed.
pub fn serve(session: &mut Session, line: &[u8], lines: &mut Vec<String>) -> Result<(), AllocError>
    requires { waiting session.old ≡ [] }
    ensures { OnOk result (Serves session.old line.now session.new (lines_data lines.old.items) (lines_data lines.new.items)) }
{
    let alloc = *lines.allocator();
    let request = match Value::from_slice(alloc, line) {
        Ok(request) => request,
        Err(error) if error.is_memory() => return refuse(lines, None, Malformed::NoMemory),
        Err(_) => return refuse(lines, None, Malformed::NotJson),
    };
    let number = request.get("id").and_then(Value::as_u64);
    match read(alloc, &request) {
        Ok(Request::Command(command)) => {
            let status = perform(session, command);
            take_outputs(session, lines)?;
            let told = told_of(session);
            push_line(lines, &command_answer(alloc, number, status, told)?)
        }
        Ok(Request::Question(question)) => answer(session, number, &question, lines),
        Err(malformed) => refuse(lines, number, malformed),
    }
}

/// Answers a question.
fn answer(
    session: &Session,
    number: Option<u64>,
    question: &Question,
    lines: &mut Vec<String>,
) -> Result<(), AllocError>
    ensures { OnOk result (IsAsked session.now number question.now (lines_data lines.old.items) (lines_data lines.new.items)) }
{
    let alloc = *lines.allocator();
    match value_of(alloc, session.terminal(), question) {
        Ok(value) => push_line(lines, &question_answer(alloc, number, value)?),
        Err(_) => refuse(lines, number, Malformed::NoMemory),
    }
}

/// Refuses a line.
fn refuse(
    lines: &mut Vec<String>,
    number: Option<u64>,
    malformed: Malformed,
) -> Result<(), AllocError>
    ensures { OnOk result (lines_data lines.new.items ≡ lines_data lines.old.items ++ Some (refusal_data number malformed) ∷ []) }
{
    let alloc = *lines.allocator();
    push_line(lines, &refusal(alloc, number, malformed)?)
}

/// Appends a value as a line.
pub(crate) fn push_line(lines: &mut Vec<String>, value: &Value) -> Result<(), AllocError>
    requires { depth (view value.now) ≤ 127 }
    ensures { OnOk result (lines_data lines.new.items ≡ lines_data lines.old.items ++ Some (view value.now) ∷ []) }
{
    let line = value.to_string(*lines.allocator())?;
    lines.push(line)?;
    Ok(())
}
