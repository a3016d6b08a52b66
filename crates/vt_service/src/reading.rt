//! Reading of requests.

ghost use Rattle.std.specs.Prelude.{◌≡◌, ◌≢◌, Ok, IfOk, IfErr, MatchOption};
ghost use Rattle.serde_json.specs.View.{view};
ghost use Rattle.vt_service.specs.Requests.{IsNoCommand, IsRefused, Names, Reads, act_name, action_in, command_in, command_name, command_value, place_in, question_in, question_name};
ghost use Rattle.vt_service.specs.declared.request.ActKind.{ActKind};
ghost use Rattle.vt_service.specs.declared.request.CommandKind.{CommandKind};
ghost use Rattle.vt_service.specs.declared.request.RequestKind.{RequestKind};
ghost use Rattle.vt_service.specs.declared.request.QuestionKind.{QuestionKind};

use crate::members::{
    Malformed, Member, bytes_in, frame_in, name_in, number_8, number_16, number_32, number_in,
    typed_in,
};
use crate::profile::profile_in;
use crate::request::{ActKind, Command, CommandKind, Question, QuestionKind, Request, RequestKind};
use serde_json::Value;
use std::alloc::Global;
use vt_can::Action;

/// Reads a request.
pub(crate) fn read(alloc: Global, request: &Value) -> Result<Request, Malformed>
    ensures ok { IfOk result (Reads (view request.now)) }
    ensures err { IfErr result (IsRefused (view request.now)) }
{
    match kind_in(request) {
        Some(RequestKind::Command(kind)) => Ok(Request::Command(command_in(alloc, request, kind)?)),
        Some(RequestKind::Question(kind)) => Ok(Request::Question(question_in(request, kind)?)),
        None => Err(Malformed::UnknownRequest),
    }
}

/// The kind that a request names, if it names one.
fn kind_in(request: &Value) -> Option<RequestKind>
    ensures { MatchOption result ((kind : RequestKind) → Names (view request.now) kind → ⊥) (λ kind. Names (view request.now) kind) }
{
    let name = request.get("do").and_then(Value::as_str)?;
    match command_named(name) {
        Some(kind) => Some(RequestKind::Command(kind)),
        None => question_named(name).map(RequestKind::Question),
    }
}

/// The command of a name, if it is one.
fn command_named(name: &str) -> Option<CommandKind>
    ensures { MatchOption result ((kind : CommandKind) → name.now ≢ command_name kind) (λ kind. name.now ≡ command_name kind) }
{
    match name {
        "begin" => Some(CommandKind::Begin),
        "preload" => Some(CommandKind::Preload),
        "frame" => Some(CommandKind::Frame),
        "tick" => Some(CommandKind::Tick),
        "text" => Some(CommandKind::Text),
        "claim" => Some(CommandKind::Claim),
        "status" => Some(CommandKind::Status),
        _ => act_named(name).map(CommandKind::Act),
    }
}

/// The action of the operator of a name, if it is one.
fn act_named(name: &str) -> Option<ActKind>
    ensures { MatchOption result ((kind : ActKind) → name.now ≢ act_name kind) (λ kind. name.now ≡ act_name kind) }
{
    match name {
        "press" => Some(ActKind::Press),
        "release" => Some(ActKind::Release),
        "select" => Some(ActKind::Select),
        "number" => Some(ActKind::Number),
        "set" => Some(ActKind::Set),
        _ => None,
    }
}

/// The question of a name, if it is one.
fn question_named(name: &str) -> Option<QuestionKind>
    ensures { MatchOption result ((kind : QuestionKind) → name.now ≢ question_name kind) (λ kind. name.now ≡ question_name kind) }
{
    match name {
        "screen" => Some(QuestionKind::Screen),
        "picture" => Some(QuestionKind::Picture),
        "part" => Some(QuestionKind::Part),
        "elements" => Some(QuestionKind::Elements),
        "object" => Some(QuestionKind::Object),
        "sets" => Some(QuestionKind::Sets),
        "limits" => Some(QuestionKind::Limits),
        "raw" => Some(QuestionKind::Raw),
        "touch" => Some(QuestionKind::Touch),
        "words" => Some(QuestionKind::Words),
        _ => None,
    }
}

fn command_in(alloc: Global, request: &Value, kind: CommandKind) -> Result<Command, Malformed>
    ensures ok { IfOk result (λ command. command_in (view request.now) kind ≡ Ok (command_value command)) }
    ensures err { IfErr result (IsNoCommand (view request.now) kind) }
{
    match kind {
        CommandKind::Begin => {
            let own = number_8(request, Member::Own)?;
            let name = name_in(request)?;
            let profile = profile_in(request)?;
            Ok(Command::Begin { own, name, profile })
        }
        CommandKind::Preload => {
            let address = number_8(request, Member::Address)?;
            let pool = bytes_in(alloc, request, Member::Pool)?;
            Ok(Command::Preload { address, pool })
        }
        CommandKind::Frame => {
            let time = number_in(request, Member::Time)?;
            let frame = frame_in(request)?;
            Ok(Command::Frame { time, frame })
        }
        CommandKind::Tick => {
            let time = number_in(request, Member::Time)?;
            Ok(Command::Tick { time })
        }
        CommandKind::Act(kind) => {
            let time = number_in(request, Member::Time)?;
            let action = action_in(request, kind)?;
            Ok(Command::Act { time, action })
        }
        CommandKind::Text => {
            let time = number_in(request, Member::Time)?;
            let object = number_16(request, Member::Object)?;
            let text = bytes_in(alloc, request, Member::Text)?;
            Ok(Command::Text { time, object, text })
        }
        CommandKind::Claim => Ok(Command::Claim),
        CommandKind::Status => Ok(Command::Status),
    }
}

fn action_in(request: &Value, kind: ActKind) -> Result<Action<'static>, Malformed>
    ensures { result ≡ action_in (view request.now) kind }
{
    match kind {
        ActKind::Press => Ok(Action::Press(number_16(request, Member::Object)?)),
        ActKind::Release => Ok(Action::Release(number_16(request, Member::Object)?)),
        ActKind::Select => Ok(Action::Select(number_16(request, Member::Object)?)),
        ActKind::Number => {
            let object = number_16(request, Member::Object)?;
            let value = number_32(request, Member::Value)?;
            Ok(Action::Number(object, value))
        }
        ActKind::Set => Ok(Action::Set(number_8(request, Member::Address)?)),
    }
}

fn question_in(request: &Value, kind: QuestionKind) -> Result<Question, Malformed>
    ensures { result ≡ question_in (view request.now) kind }
{
    match kind {
        QuestionKind::Screen => Ok(Question::Screen),
        QuestionKind::Picture => {
            let address = number_8(request, Member::Address)?;
            let mask = number_16(request, Member::Mask)?;
            Ok(Question::Picture { address, mask })
        }
        QuestionKind::Part => {
            let (address, object) = place_in(request)?;
            Ok(Question::Part { address, object })
        }
        QuestionKind::Elements => Ok(Question::Elements),
        QuestionKind::Object => {
            let (address, object) = place_in(request)?;
            Ok(Question::Object { address, object })
        }
        QuestionKind::Sets => Ok(Question::Sets),
        QuestionKind::Limits => {
            let (address, object) = place_in(request)?;
            Ok(Question::Limits { address, object })
        }
        QuestionKind::Raw => {
            let (address, object) = place_in(request)?;
            let typed = typed_in(request)?;
            Ok(Question::Raw {
                address,
                object,
                typed,
            })
        }
        QuestionKind::Touch => {
            let x = number_32(request, Member::X)?;
            let y = number_32(request, Member::Y)?;
            Ok(Question::Touch { x, y })
        }
        QuestionKind::Words => {
            let frame = frame_in(request)?;
            Ok(Question::Words { frame })
        }
    }
}

/// The address of a set, and the ID of an object of it.
fn place_in(request: &Value) -> Result<(u8, u16), Malformed>
    ensures { result ≡ place_in (view request.now) }
{
    let address = number_8(request, Member::Address)?;
    let object = number_16(request, Member::Object)?;
    Ok((address, object))
}
