//! Frame lines in their usual form.

ghost use Rattle.std.specs.Prelude.{IfSome, Ok};
ghost use Rattle.vt_can.specs.lines.Readings.{FrameAt};
ghost use Rattle.vt_can.specs.lines.Line.{IsRead};

use crate::frames::Frame;
use crate::lines::digits::number;
use crate::lines::fields::cut;
use crate::lines::frame_line::read_frame_line;
use crate::lines::line::Line;

/// Reads a frame line in its usual form: with six digits behind the point of its time, eight for its identifier, and nothing behind its
/// data. `None` for most other lines, which are read in parts.
pub fn usual_frame(content: &[u8]) -> Option<(u64, Frame)>
    ensures { IfSome result (λ read. IsRead content.now (Ok (FrameAt read.0 read.1))) }
{
    let text = content.strip_prefix(b"(")?;
    let (seconds, text) = cut(text, b'.')?;
    let (fraction, text) = text.split_at_checked(6)?;
    let words = text.strip_prefix(b") ")?;
    let (interface, word) = cut(words, b' ')?;
    if !(1..=15).contains(&interface.len()) {
        return None;
    }
    let (id, rest) = word.split_at_checked(8)?;
    let data = rest.strip_prefix(b"#")?;
    let time = number(seconds, 1, 12)? * 1_000_000 + number(fraction, 6, 6)?;
    match read_frame_line(time, id, data) {
        Ok(Line::Frame { time, frame }) => Some((time, frame)),
        Ok(Line::Skipped(_) | Line::Comment | Line::Operator(_)) | Err(_) => None,
    }
}
