//! Reading of a frame line of the right shape.

ghost use Rattle.std.specs.Prelude.{◌≡◌, ◌⊎◌, length};
ghost use Rattle.vt_can.specs.lines.Readings.{reading_of};
ghost use Rattle.vt_can.specs.lines.Line.{frame_line_reading};

use crate::frames::{CanId, Frame};
use crate::lines::digits::{data_bytes, is_hex, raw_id};
use crate::lines::line::{Line, LineFault, Skipped};

/// Reads a frame line from its time, and its ID and data as they are written.
pub fn read_frame_line(time: u64, id: &[u8], text: &[u8]) -> Result<Line<'static>, LineFault>
    requires { (length id.now ≡ 3) ⊎ (length id.now ≡ 8) }
    ensures { reading_of result ≡ frame_line_reading time id.now text.now }
{
    if id.len() == 3 {
        if !is_hex(id) {
            return Err(LineFault::Hex);
        }
        return Ok(Line::Skipped(Skipped::Short));
    }
    let Some(raw) = raw_id(id) else {
        return Err(LineFault::Hex);
    };
    let Some(id) = CanId::from_raw(raw) else {
        return Ok(Line::Skipped(Skipped::Error));
    };
    match text {
        [b'R', ..] => return Ok(Line::Skipped(Skipped::Remote)),
        [b'#', ..] => return Ok(Line::Skipped(Skipped::Fd)),
        _ => {}
    }
    let bytes = data_bytes(text)?;
    let frame = Frame { id, bytes };
    Ok(Line::Frame { time, frame })
}
