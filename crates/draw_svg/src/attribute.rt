//! Attributes of elements.

ghost use Rattle.std.specs.Prelude.{◌≡◌, ◌<◌, ◌++◌, OnOk, codes};
ghost use Rattle.std.specs.List.{flat_map};
ghost use Rattle.std.specs.Fmt.{decimal, signed_decimal};
ghost use Rattle.draw_svg.specs.declared.attribute.Paint.TheVariants.{Pattern};
ghost use Rattle.draw_svg.specs.Attributes.{attribute_text, bit_text, dashed, decoration, face, flag_text, is_set, line_art, line_ends, numbered, paint_text, painted, paired, quoted, style_text};

use crate::palette::push_colour;
use itoa::Buffer;
use std::alloc::AllocError;

/// What an area or a line is painted with.
#[derive(Clone, Copy, PartialEq, Eq)]
pub enum Paint {
    /// Nothing.
    None,
    /// A colour of the palette.
    Colour(u8),
    /// The pattern with a number, which is that of its `Attribute::PatternId`.
    Pattern(u16),
}

/// An attribute that has only one value.
#[derive(Clone, Copy, PartialEq, Eq)]
pub enum Flag {
    /// The characters of a text are stretched to its length.
    StretchedCharacters,
    /// The lengths of a pattern are pixels.
    PatternInPixels,
    /// A picture is stretched to its width and height.
    StretchedPicture,
    /// What is outside of an area is shown too.
    Overflow,
    /// Edges are sharp.
    Crisp,
    /// Spaces are kept.
    Spaces,
    /// The font of all texts.
    Font,
    /// The name space of SVG, for the outermost element.
    NameSpace,
}

/// The style of characters.
#[derive(Clone, Copy, PartialEq, Eq)]
pub struct Style {
    /// Bold characters.
    pub bold: bool,
    /// Italic characters.
    pub italic: bool,
    /// A line below the characters.
    pub underlined: bool,
    /// A line through the characters.
    pub crossed_out: bool,
}

/// An attribute with its value. Lengths are in the coordinates of the area around the element: pixels, unless the area has others.
#[derive(Clone, Copy)]
pub enum Attribute {
    /// The left edge, which may be left of the area around the element.
    X(i32),
    /// The upper edge, which may be above the area around the element.
    Y(i32),
    /// The left edge of an element within the area around it.
    Left(u32),
    /// The upper edge of an element within the area around it. For a text, it is the base line.
    Top(u32),
    /// The width.
    Width(u32),
    /// The height.
    Height(u32),
    /// The centre of an ellipse, from the left.
    CentreX(u32),
    /// The centre of an ellipse, from the top.
    CentreY(u32),
    /// Half the width of an ellipse.
    RadiusX(u32),
    /// Half the height of an ellipse.
    RadiusY(u32),
    /// The width and the height of the coordinates within an element, which begin at 0.
    Coordinates(u32, u32),
    /// The inside of a shape.
    Fill(Paint),
    /// The lines of a shape.
    Stroke(Paint),
    /// The width of lines.
    StrokeWidth(u32),
    /// The line art of lines, and their width. Each bit is as long as the line is wide, and is drawn if it is set. The highest bit
    /// is first.
    LineArt(u16, u16),
    /// The ends of lines, by their line art: square for a solid line, and flat for others.
    LineEnds(u16),
    /// The height of characters.
    FontSize(u32),
    /// The length of a text.
    TextLength(u32),
    /// The ID of the object that an element shows.
    ObjectId(u16),
    /// The number of a picture to be shown elsewhere.
    PictureId(u16),
    /// The picture that is shown, by its number.
    PictureShown(u16),
    /// The number of a pattern.
    PatternId(u16),
    /// The style of characters.
    Style(Style),
    /// An attribute that has only one value.
    Flag(Flag),
}

/// Appends an attribute, with a space before it.
pub(crate) fn push_attribute(out: &mut Vec<u8>, attribute: &Attribute) -> Result<(), AllocError>
    ensures { OnOk result (out.new.items ≡ out.old.items ++ attribute_text attribute.now) }
{
    match attribute {
        Attribute::X(x) => push_quoted(out, b" x=\"", *x),
        Attribute::Y(y) => push_quoted(out, b" y=\"", *y),
        Attribute::Left(x) => push_measure(out, b" x=\"", *x),
        Attribute::Top(y) => push_measure(out, b" y=\"", *y),
        Attribute::Width(width) => push_measure(out, b" width=\"", *width),
        Attribute::Height(height) => push_measure(out, b" height=\"", *height),
        Attribute::CentreX(x) => push_measure(out, b" cx=\"", *x),
        Attribute::CentreY(y) => push_measure(out, b" cy=\"", *y),
        Attribute::RadiusX(radius) => push_measure(out, b" rx=\"", *radius),
        Attribute::RadiusY(radius) => push_measure(out, b" ry=\"", *radius),
        Attribute::Coordinates(width, height) => push_pair(
            out,
            b" viewBox=\"0 0 ",
            *width,
            *height,
        ),
        Attribute::Fill(paint) => push_painted(out, b" fill=\"", *paint),
        Attribute::Stroke(paint) => push_painted(out, b" stroke=\"", *paint),
        Attribute::StrokeWidth(width) => push_measure(out, b" stroke-width=\"", *width),
        Attribute::LineArt(art, width) => push_line_art(out, b" stroke-dasharray=\"", *art, *width),
        Attribute::LineEnds(art) => push_line_ends(out, *art),
        Attribute::FontSize(size) => push_measure(out, b" font-size=\"", *size),
        Attribute::TextLength(length) => push_measure(out, b" textLength=\"", *length),
        Attribute::ObjectId(id) => push_measure(out, b" data-id=\"", u32::from(*id)),
        Attribute::PictureId(id) => push_measure(out, b" id=\"p", u32::from(*id)),
        Attribute::PictureShown(id) => push_measure(out, b" href=\"#p", u32::from(*id)),
        Attribute::PatternId(id) => push_measure(out, b" id=\"f", u32::from(*id)),
        Attribute::Style(style) => push_style(out, *style),
        Attribute::Flag(flag) => out.extend_from_slice(flag_text(*flag).as_bytes()),
    }
}

fn push_style(out: &mut Vec<u8>, style: Style) -> Result<(), AllocError>
    ensures { OnOk result (out.new.items ≡ out.old.items ++ style_text style) }
{
    out.extend_from_slice(face(style.bold, style.italic).as_bytes())?;
    out.extend_from_slice(decoration(style.underlined, style.crossed_out).as_bytes())
}

fn face(bold: bool, italic: bool) -> &'static str
    ensures { result.now ≡ face bold italic }
{
    match (bold, italic) {
        (false, false) => "",
        (true, false) => " font-weight=\"bold\"",
        (false, true) => " font-style=\"italic\"",
        (true, true) => " font-weight=\"bold\" font-style=\"italic\"",
    }
}

fn decoration(underlined: bool, crossed_out: bool) -> &'static str
    ensures { result.now ≡ decoration underlined crossed_out }
{
    match (underlined, crossed_out) {
        (false, false) => "",
        (true, false) => " text-decoration=\"underline\"",
        (false, true) => " text-decoration=\"line-through\"",
        (true, true) => " text-decoration=\"underline line-through\"",
    }
}

fn flag_text(flag: Flag) -> &'static str
    ensures { result.now ≡ flag_text flag }
{
    match flag {
        Flag::StretchedCharacters => " lengthAdjust=\"spacingAndGlyphs\"",
        Flag::PatternInPixels => " patternUnits=\"userSpaceOnUse\"",
        Flag::StretchedPicture => " preserveAspectRatio=\"none\"",
        Flag::Overflow => " overflow=\"visible\"",
        Flag::Crisp => " shape-rendering=\"crispEdges\"",
        Flag::Spaces => " xml:space=\"preserve\"",
        Flag::Font => " font-family=\"DejaVu Sans Mono, monospace\"",
        Flag::NameSpace => " xmlns=\"http://www.w3.org/2000/svg\"",
    }
}

/// Appends a text, a number and a quote.
fn push_quoted(out: &mut Vec<u8>, before: &[u8], number: i32) -> Result<(), AllocError>
    ensures { OnOk result (out.new.items ≡ out.old.items ++ quoted before.now number) }
{
    out.extend_from_slice(before)?;
    out.extend_from_slice(Buffer::new().format(number).as_bytes())?;
    out.extend_from_slice(b"\"")
}

/// Appends a text, a number that is not negative, and a quote.
fn push_measure(out: &mut Vec<u8>, before: &[u8], number: u32) -> Result<(), AllocError>
    ensures { OnOk result (out.new.items ≡ out.old.items ++ numbered before.now number) }
{
    out.extend_from_slice(before)?;
    push_natural(out, number)?;
    out.extend_from_slice(b"\"")
}

/// Appends a text, a paint and a quote.
fn push_painted(out: &mut Vec<u8>, before: &[u8], paint: Paint) -> Result<(), AllocError>
    ensures { OnOk result (out.new.items ≡ out.old.items ++ painted before.now paint) }
{
    out.extend_from_slice(before)?;
    push_paint(out, paint)?;
    out.extend_from_slice(b"\"")
}

fn push_paint(out: &mut Vec<u8>, paint: Paint) -> Result<(), AllocError>
    ensures { OnOk result (out.new.items ≡ out.old.items ++ paint_text paint) }
{
    match paint {
        Paint::None => out.extend_from_slice(b"none"),
        Paint::Colour(colour) => push_colour(out, colour),
        Paint::Pattern(id) => push_pattern(out, id),
    }
}

fn push_pattern(out: &mut Vec<u8>, id: u16) -> Result<(), AllocError>
    ensures { OnOk result (out.new.items ≡ out.old.items ++ paint_text (Pattern id)) }
{
    out.extend_from_slice(b"url(#f")?;
    push_natural(out, u32::from(id))?;
    out.extend_from_slice(b")")
}

/// Appends a text, two numbers with a space between them, and a quote.
fn push_pair(out: &mut Vec<u8>, before: &[u8], first: u32, second: u32) -> Result<(), AllocError>
    ensures { OnOk result (out.new.items ≡ out.old.items ++ paired before.now first second) }
{
    out.extend_from_slice(before)?;
    push_natural(out, first)?;
    out.extend_from_slice(b" ")?;
    push_natural(out, second)?;
    out.extend_from_slice(b"\"")
}

fn push_natural(out: &mut Vec<u8>, number: u32) -> Result<(), AllocError>
    ensures { OnOk result (out.new.items ≡ out.old.items ++ decimal number) }
{
    out.extend_from_slice(Buffer::new().format(number).as_bytes())
}

/// The line art of a line without spaces.
const SOLID: u16 = 0xFFFF;

/// Appends a text, line art and a quote: the lengths of dashes and of the spaces after them, one of both for each bit.
/// Appends nothing for a solid line.
fn push_line_art(out: &mut Vec<u8>, before: &[u8], art: u16, width: u16) -> Result<(), AllocError>
    ensures { OnOk result (out.new.items ≡ out.old.items ++ dashed before.now art width) }
{
    if art == SOLID {
        return Ok(());
    }
    out.extend_from_slice(before)?;
    push_bits(out, art, width)?;
    out.extend_from_slice(b"\"")
}

/// Appends square ends for a solid line.
fn push_line_ends(out: &mut Vec<u8>, art: u16) -> Result<(), AllocError>
    ensures { OnOk result (out.new.items ≡ out.old.items ++ line_ends art) }
{
    if art == SOLID {
        return out.extend_from_slice(b" stroke-linecap=\"square\"");
    }
    Ok(())
}

fn push_bits(out: &mut Vec<u8>, art: u16, width: u16) -> Result<(), AllocError>
    ensures { OnOk result (out.new.items ≡ out.old.items ++ line_art art width) }
{
    let mut bit = 16;
    while bit > 0 {
        bit -= 1;
        push_bit(out, is_set(art, bit), width)?;
    }
    Ok(())
}

fn is_set(art: u16, bit: u16) -> bool
    requires { bit < 16 }
    ensures { result ≡ is_set art bit }
{
    (art >> bit) % 2 == 1
}

/// Appends a dash or a space of a width.
fn push_bit(out: &mut Vec<u8>, is_set: bool, width: u16) -> Result<(), AllocError>
    ensures { OnOk result (out.new.items ≡ out.old.items ++ bit_text is_set width) }
{
    if is_set {
        push_natural(out, u32::from(width))?;
        return out.extend_from_slice(b" 0 ");
    }
    out.extend_from_slice(b"0 ")?;
    push_natural(out, u32::from(width))?;
    out.extend_from_slice(b" ")
}
