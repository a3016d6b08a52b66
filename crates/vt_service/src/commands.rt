//! Commands for a terminal.

ghost use Rattle.vt_service.specs.Commands.{Does};

use crate::request::Command;
use vt_can::Action;
use vt_session::preload::preload;
use vt_session::session::{begin_with, hear_frame, operate, tick};
use vt_session::status::DONE;
use vt_session::{Session, outputs};

/// Does a command, and returns a status of calls (`vt_session::status`). Its outputs wait to be taken.
pub(crate) fn perform(session: &mut Session, command: Command) -> u32
    ensures { Does session.old command session.new result }
{
    match command {
        Command::Begin { own, name, profile } => {
            let alloc = session.allocator();
            *session = begin_with(alloc, u32::from(own), name, profile);
            DONE
        }
        Command::Preload { address, pool } => preload(session, u32::from(address), &pool),
        Command::Frame { time, frame } => hear_frame(session, time, frame),
        Command::Tick { time } => tick(session, time),
        Command::Act { time, action } => operate(session, time, action),
        Command::Text { time, object, text } => {
            operate(session, time, Action::Text(object, &text))
        }
        Command::Claim => outputs::claim(session),
        Command::Status => outputs::status(session),
    }
}
