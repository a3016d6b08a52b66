//! Answers to questions, and to commands.

ghost use Rattle.std.specs.Prelude.{◌≡◌, IfOk};
ghost use Rattle.serde_json.specs.View.{view};
ghost use Rattle.vt_service.specs.Values.{number_or_null};
ghost use Rattle.vt_service.specs.Answers.{IsTold, answer_data, command_data, plain_refusal, refusal_data, result_name};
ghost use Rattle.vt_service.specs.Cells.{cell_data};

use crate::cells::{Cell, number_cell, object_of};
use crate::members::Malformed;
use serde_json::{Value, json};
use std::alloc::{AllocError, Global};
use vt_session::Session;
use vt_session::status::{DONE, NO_MEMORY, NO_POOL, NO_SUCH, NOT_BEGUN};

/// What the answer to a command says about the terminal after the command.
#[derive(Clone, Copy)]
pub struct Told {
    /// The first time at which a tick is due, in microseconds, if there is one.
    pub deadline: Option<u64>,
    /// A number that changes with each command that may have changed the picture of the shown set.
    pub look: u64,
    /// Whether another node took the terminal's address.
    pub lost: bool,
    /// Whether the screen may differ from the one before the last input.
    pub redraws: bool,
    /// The address of the shown set, if one is shown.
    pub shown: Option<u8>,
}

/// What the answer to a command says about the terminal of a session.
pub(crate) fn told_of(session: &Session) -> Told
    ensures { IsTold session.now result }
{
    let terminal = session.terminal();
    Told {
        deadline: terminal.next_deadline(),
        look: session.look(),
        lost: terminal.is_lost(),
        redraws: terminal.redraws(),
        shown: terminal.shown(),
    }
}

/// The answer to a command that returned a status, with what it says about the terminal after the command.
pub(crate) fn command_answer(
    alloc: Global,
    number: Option<u64>,
    status: u32,
    told: Told,
) -> Result<Value, AllocError>
    ensures { IfOk result (λ v. view v ≡ command_data number status told) }
{
    object_of(
        alloc,
        &[
            ("answer", number_cell(number)),
            ("deadline", number_cell(told.deadline)),
            ("look", Cell::Number(told.look)),
            ("lost", Cell::Flag(told.lost)),
            ("redraws", Cell::Flag(told.redraws)),
            ("result", Cell::Text(result_name(status))),
            ("shown", address_cell(told.shown)),
        ],
    )
}

/// The answer to a question.
pub(crate) fn question_answer(
    alloc: Global,
    number: Option<u64>,
    value: Value,
) -> Result<Value, AllocError>
    ensures { IfOk result (λ v. view v ≡ answer_data number (view value)) }
{
    json!(in alloc; {"answer": (number_value(number)), "result": "done", "value": value})
}

/// The answer to a line that is no request.
pub(crate) fn refusal(
    alloc: Global,
    number: Option<u64>,
    malformed: Malformed,
) -> Result<Value, AllocError>
    ensures { IfOk result (λ v. view v ≡ refusal_data number malformed) }
{
    match malformed {
        Malformed::NoMemory => plain_refusal(alloc, number, "no-memory"),
        Malformed::NotJson => plain_refusal(alloc, number, "not-json"),
        Malformed::UnknownRequest => plain_refusal(alloc, number, "unknown-request"),
        Malformed::WrongMember(member) => object_of(
            alloc,
            &[
                ("answer", number_cell(number)),
                ("member", Cell::Text(member.name())),
                ("result", Cell::Text("wrong-member")),
            ],
        ),
    }
}

fn plain_refusal(alloc: Global, number: Option<u64>, name: &str) -> Result<Value, AllocError>
    ensures { IfOk result (λ v. view v ≡ plain_refusal number name.now) }
{
    object_of(
        alloc,
        &[
            ("answer", number_cell(number)),
            ("result", Cell::Text(name)),
        ],
    )
}

/// The result of a command in a word, by its status.
fn result_name(status: u32) -> &'static str
    ensures { result.now ≡ result_name status }
{
    match status {
        DONE => "done",
        NO_MEMORY => "no-memory",
        NO_POOL => "no-pool",
        NOT_BEGUN => "not-begun",
        NO_SUCH => "no-such",
        _ => "unknown-status",
    }
}

/// An address, or `null`.
fn address_cell(address: Option<u8>) -> Cell<'static>
    ensures { cell_data result ≡ number_or_null address }
{
    match address {
        Some(address) => Cell::Number(u64::from(address)),
        None => Cell::Null,
    }
}

/// A number, or `null`.
fn number_value(number: Option<u64>) -> Value
    ensures { view result ≡ number_or_null number }
{
    match number {
        Some(number) => Value::from(number),
        None => Value::Null,
    }
}
