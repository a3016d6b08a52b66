//! Runs of pixels as strokes: lines along the middle of a row, whose dashes are pixels. A pixel is two units wide and high.

ghost use Rattle.std.specs.Prelude.{◌≡◌, ◌≤◌, ◌++◌, OnOk};
ghost use Rattle.std.specs.List.{flat_map};
ghost use Rattle.vt_kinds.specs.Records.{seen_picture};
ghost use Rattle.draw_svg.specs.declared.format.PixelFormat.TheVariants.{FourBits, OneBit};
ghost use Rattle.draw_svg.specs.Formats.{format_of};
ghost use Rattle.draw_svg.specs.Strokes as strokes;

use crate::{Attribute, Element, Paint, PixelFormat, Run, SvgPoint, along};
use std::alloc::AllocError;
use vt_objects::Picture;

/// The pixels of one colour in bytes of one value.
#[derive(Clone, Copy, PartialEq, Eq)]
pub(crate) struct Stroke {
    /// The colour number.
    pub(crate) colour: u8,
    /// The pixels as line art: 16 of them, the leftmost in the highest bit.
    pub(crate) art: u16,
}

/// The line art of a stroke that has each pixel.
const SOLID: u16 = 0xFFFF;

/// The line art of a stroke that has every second pixel, from the first on.
const FIRST_OF_TWO: u16 = 0xAAAA;

/// The line art of a stroke that has every second pixel, from the second on.
const SECOND_OF_TWO: u16 = 0x5555;

/// The most bytes of a text after which the pixels of another run are appended.
const MOST_BYTES: usize = 12_000_000;

/// Appends the pixels of runs. Nothing without a format, and nothing more after 12,000,000 bytes.
pub(crate) fn draw_pixels(
    text: &mut Vec<u8>,
    picture: &Picture<Vec<u8>>,
    runs: &[Run],
) -> Result<(), AllocError>
    ensures { OnOk result (text.new.items ≡ strokes.with_pixels (seen_picture picture.now) (format_of picture.now.format) text.old.items runs.now) }
{
    match PixelFormat::from_number(picture.format) {
        Some(format) => draw_runs(text, picture, format, runs),
        None => Ok(()),
    }
}

/// Appends the strokes of runs in a format, as long as there is room.
fn draw_runs(
    text: &mut Vec<u8>,
    picture: &Picture<Vec<u8>>,
    format: PixelFormat,
    runs: &[Run],
) -> Result<(), AllocError>
    ensures { OnOk result (text.new.items ≡ strokes.with_runs (seen_picture picture.now) format text.old.items runs.now) }
{
    for run in runs {
        draw_run_if_room(text, picture, format, run)?;
    }
    Ok(())
}

/// Appends the strokes of a run, if there is room.
fn draw_run_if_room(
    text: &mut Vec<u8>,
    picture: &Picture<Vec<u8>>,
    format: PixelFormat,
    run: &Run,
) -> Result<(), AllocError>
    ensures { OnOk result (text.new.items ≡ strokes.with_run (seen_picture picture.now) format text.old.items run.now) }
{
    if text.len() > MOST_BYTES {
        return Ok(());
    }
    draw_run(text, picture, format, run)
}

/// Appends the strokes of a run.
fn draw_run(
    text: &mut Vec<u8>,
    picture: &Picture<Vec<u8>>,
    format: PixelFormat,
    run: &Run,
) -> Result<(), AllocError>
    ensures { OnOk result (text.new.items ≡ text.old.items ++ strokes.run_text (seen_picture picture.now) format run.now) }
{
    let line = &line_of(format, run);
    match format {
        PixelFormat::OneBit => draw_bits(text, picture, line, run.byte),
        PixelFormat::FourBits => draw_halves(text, picture, line, run.byte),
        PixelFormat::EightBits => draw_stroke(text, picture, line, in_colour(run.byte, SOLID)),
    }
}

/// Appends the strokes of bytes with a bit for each pixel.
fn draw_bits(
    text: &mut Vec<u8>,
    picture: &Picture<Vec<u8>>,
    line: &[SvgPoint],
    byte: u8,
) -> Result<(), AllocError>
    ensures { OnOk result (text.new.items ≡ text.old.items ++ flat_map (strokes.stroke_text (seen_picture picture.now) line.now) (strokes.strokes_of OneBit byte)) }
{
    let ones = u16::from(byte) * 257;
    draw_stroke(text, picture, line, in_colour(0, SOLID - ones))?;
    draw_stroke(text, picture, line, in_colour(1, ones))
}

/// Appends the strokes of bytes with half a byte for each pixel.
fn draw_halves(
    text: &mut Vec<u8>,
    picture: &Picture<Vec<u8>>,
    line: &[SvgPoint],
    byte: u8,
) -> Result<(), AllocError>
    ensures { OnOk result (text.new.items ≡ text.old.items ++ flat_map (strokes.stroke_text (seen_picture picture.now) line.now) (strokes.strokes_of FourBits byte)) }
{
    let (left, right) = (byte / 16, byte % 16);
    if left == right {
        return draw_stroke(text, picture, line, in_colour(right, SOLID));
    }
    draw_stroke(text, picture, line, in_colour(left, FIRST_OF_TWO))?;
    draw_stroke(text, picture, line, in_colour(right, SECOND_OF_TWO))
}

/// Appends a stroke. Nothing for one without a pixel, and for the transparency colour.
fn draw_stroke(
    text: &mut Vec<u8>,
    picture: &Picture<Vec<u8>>,
    line: &[SvgPoint],
    stroke: Stroke,
) -> Result<(), AllocError>
    ensures { OnOk result (text.new.items ≡ text.old.items ++ strokes.stroke_text (seen_picture picture.now) line.now stroke) }
{
    if stroke.art == 0 || is_transparent(picture, stroke.colour) {
        return Ok(());
    }
    along(
        text,
        Element::Polyline,
        &[
            Attribute::Stroke(Paint::Colour(stroke.colour)),
            Attribute::LineArt(stroke.art, UNITS),
        ],
        line,
    )
}

/// The units of a pixel.
const UNITS: u16 = 2;

/// Whether a picture does not show a colour.
fn is_transparent(picture: &Picture<Vec<u8>>, colour: u8) -> bool
    ensures { result ≡ strokes.is_transparent (seen_picture picture.now) colour }
{
    picture.options % 2 == 1 && picture.transparency == colour
}

fn in_colour(colour: u8, art: u16) -> Stroke
    ensures { result ≡ strokes.stroke colour art }
{
    Stroke { colour, art }
}

/// The line of a run, from its first column to the one after its last.
fn line_of(format: PixelFormat, run: &Run) -> [SvgPoint; 2]
    ensures { result ≡ strokes.line_of format run.now }
{
    let pixels = u32::from(format.pixels_in_byte());
    let first = u32::from(run.start);
    [
        place(pixels * first, run.row),
        place(pixels * (first + u32::from(run.count)), run.row),
    ]
}

/// The middle of the left edge of a pixel.
fn place(column: u32, row: u16) -> SvgPoint
    requires { column ≤ 1048560 }
    ensures { result ≡ strokes.place column row }
{
    SvgPoint {
        x: column * 2,
        y: u32::from(row) * 2 + 1,
    }
}
