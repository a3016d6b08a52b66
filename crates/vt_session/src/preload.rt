//! Sets with a pool that is there from the start.

ghost use Rattle.std.specs.Prelude.{◌≡◌};
ghost use Rattle.vt_session.specs.Preloads.{Preloads, free_address};

use crate::session::{Session, closed, note_change};
use crate::status::{DONE, NO_MEMORY, NO_POOL, NO_SUCH};
use vt_judge::judge;

/// Adds a working set with the pool of these bytes at an address without a set. Returns a status.
pub fn preload(session: &mut Session, address: u32, pool: &[u8]) -> u32
    ensures { Preloads session.old address pool.now session.new result }
{
    if let Some(refusal) = closed(session) {
        return refusal;
    }
    let Some(address) = free_address(session, address) else {
        return NO_SUCH;
    };
    let alloc = *session.text.allocator();
    let accepted = match judge(alloc, pool) {
        Ok(accepted) => accepted,
        Err(why) if why.wants_memory() => return NO_MEMORY,
        Err(_) => return NO_POOL,
    };
    match session.terminal.preload(address, &accepted) {
        Ok(()) => {
            note_change(session);
            DONE
        }
        Err(_) => NO_MEMORY,
    }
}

/// The address, if a set may be added there: it is at most 253, not the terminal's own, and without a set.
fn free_address(session: &Session, address: u32) -> Option<u8>
    ensures { result ≡ free_address session.now address }
{
    let address = u8::try_from(address).ok()?;
    if address > 253 || address == session.terminal.own() || session.terminal.registered(address) {
        return None;
    }
    Some(address)
}
