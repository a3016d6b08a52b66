//! The screen of an object pool that no implement has changed yet.

ghost use Rattle.std.specs.Prelude.{IfOk, IfSome, IfNone};
ghost use Rattle.vt_layout.specs.Screens.{IsScreen};
ghost use Rattle.check_verdicts.specs.Texts.{HasNoMask, HasNoScreen, IsScreenOfObjects, IsScreenOfPool};

use std::alloc::{AllocError, Global};
use vt_judge::judge;
use vt_layout::draw;
use vt_machine::{Live, Outcome};
use vt_objects::{Command, ObjectId, SortedStore};
use vt_verify::Accepted;

/// The screen of an accepted pool at an address: of a mask, or for 65535 of the mask that is active at first.
pub(crate) fn screen(
    alloc: Global,
    bytes: &[u8],
    address: u32,
    mask: u32,
) -> Result<Option<Vec<u8>>, AllocError>
    ensures some { IfOk result (λ screen. IfSome screen (λ text. IsScreenOfPool bytes.now address mask text.items)) }
    ensures none { IfOk result (λ screen. IfNone screen (HasNoScreen bytes.now address mask)) }
{
    let Ok(address) = u8::try_from(address) else {
        return Ok(None);
    };
    let Ok(mask) = u16::try_from(mask) else {
        return Ok(None);
    };
    let pool = match judge(alloc, bytes) {
        Ok(pool) => pool,
        Err(why) if why.wants_memory() => return Err(AllocError),
        Err(_) => return Ok(None),
    };
    drawn(alloc, pool, address, ObjectId::from_raw(mask))
}

/// The screen of a pool, of a mask or of the one that is active at first.
fn drawn(
    alloc: Global,
    pool: Accepted,
    address: u8,
    mask: ObjectId,
) -> Result<Option<Vec<u8>>, AllocError>
    ensures some { IfOk result (λ screen. IfSome screen (λ text. IsScreenOfObjects pool address mask text.items)) }
    ensures none { IfOk result (λ screen. IfNone screen (HasNoMask pool mask)) }
{
    let mut live: Live<SortedStore> = Live::from_accepted(alloc, pool)?;
    if mask == ObjectId::NULL {
        return Ok(Some(text_of(alloc, address, &live)?));
    }
    let command = Command::ChangeActiveMask {
        working_set: live.working_set(),
        mask,
    };
    match live.apply(&command) {
        Outcome::Done { .. } => Ok(Some(text_of(alloc, address, &live)?)),
        Outcome::Refused { .. } => Ok(None),
    }
}

/// The text of a screen.
fn text_of(alloc: Global, address: u8, live: &Live<SortedStore>) -> Result<Vec<u8>, AllocError>
    ensures { IfOk result (λ text. IsScreen address live.now.objects text.items) }
{
    let mut text = Vec::new(alloc);
    draw(alloc, address, live, &mut text)?;
    Ok(text)
}
