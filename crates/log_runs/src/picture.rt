//! The picture of what a terminal shows.

ghost use Rattle.std.specs.Prelude.{IfOk, MatchOption};
ghost use Rattle.log_runs.specs.Pictures.{HasNothingShown, IsPictureShown};
ghost use Rattle.vt_server.specs.States.{state_of};

use check_needs::Sizes;
use draw_picture::draw;
use std::alloc::{AllocError, Global};
use vt_server::Terminal;

/// The picture of the active mask of the set that a terminal shows, as SVG. `None` if it shows no set with a pool.
pub fn picture_shown(
    alloc: Global,
    terminal: &Terminal,
    sizes: Sizes,
) -> Result<Option<Vec<u8>>, AllocError>
    ensures { IfOk result (λ picture. MatchOption picture (HasNothingShown (state_of terminal.now)) (λ text. IsPictureShown (state_of terminal.now) sizes text.items)) }
{
    let Some(address) = terminal.shown() else {
        return Ok(None);
    };
    let Some(live) = terminal.set(address) else {
        return Ok(None);
    };
    Ok(Some(draw(alloc, live.store(), sizes, live.active_mask())?))
}
