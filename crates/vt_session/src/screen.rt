//! The screen, and what a host asks of a terminal.

ghost use Rattle.vt_session.specs.Calls.{Draws, TellsDeadline, TellsLooks, TellsLost, TellsRedraws, TellsShown, TellsWord};

use crate::outputs::word_at;
use crate::session::Session;

/// Draws the screen and returns the number of bytes of its text, or 2^64 - 1 if memory was refused.
pub fn screen(session: &mut Session) -> u64
    ensures { Draws session.old session.new result }
{
    session.text.clear();
    match session.terminal.screen(&mut session.text) {
        Ok(()) => session.text.len() as u64,
        Err(_) => u64::MAX,
    }
}

/// Eight bytes of the text written last, from an index on, the first lowest.
pub fn screen_word(session: &mut Session, at: u64) -> u64
    ensures { TellsWord session.old at session.new result }
{
    word_at(&session.text, at)
}

/// 1 if the screen may differ from the one before the last input, or else 0.
pub fn redraws(session: &mut Session) -> u32
    ensures { TellsRedraws session.old session.new result }
{
    u32::from(session.terminal.redraws())
}

/// A number that changes with each call that may have changed the picture of the shown set.
pub fn looks(session: &mut Session) -> u64
    ensures { TellsLooks session.old session.new result }
{
    session.looks
}

/// The address of the shown set, or 254 if none is shown.
pub fn shown(session: &mut Session) -> u32
    ensures { TellsShown session.old session.new result }
{
    match session.terminal.shown() {
        Some(address) => u32::from(address),
        None => 254,
    }
}

/// 1 if the terminal lost its address, or else 0.
pub fn lost(session: &mut Session) -> u32
    ensures { TellsLost session.old session.new result }
{
    u32::from(session.terminal.is_lost())
}

/// The first time at which a tick would do more than advance the time, or 2^64 - 1 if there is none.
pub fn deadline(session: &mut Session) -> u64
    ensures { TellsDeadline session.old session.new result }
{
    match session.terminal.next_deadline() {
        Some(time) => time,
        None => u64::MAX,
    }
}
