//! Fields with texts: their areas, and the rows of their texts.

ghost use Rattle.std.specs.Prelude.{◌≡◌, ◌≤◌, ◌<◌, ◌++◌, length, take, drop, OnOk, slice_get};
ghost use Rattle.std.specs.FinMap as finite;
ghost use Rattle.std.specs.Option.{option_map};
ghost use Rattle.check_needs.specs.Fonts.{cells};
ghost use Rattle.draw_svg.specs.declared.element.Element.TheVariants.{Rect};
ghost use Rattle.draw_svg.specs.Elements.{emptied, text_of};
ghost use Rattle.draw_shapes.specs.Fields as fields;

use crate::bits::has_bit;
use check_needs::{Area, cell};
use draw_svg::{Attribute, Element, Flag, Paint, Style, close, empty, open, text};
use std::alloc::AllocError;
use vt_objects::{Object, ObjectId, Store};

/// The characters of a font.
#[derive(Clone, Copy, PartialEq, Eq)]
pub(crate) struct Look {
    /// The area of a character.
    pub(crate) cell: Area,
    /// The colour.
    pub(crate) colour: u8,
    /// The style, by its bits.
    pub(crate) style: u8,
}

/// A field with a text.
#[derive(Clone, Copy, PartialEq, Eq)]
pub(crate) struct Field {
    /// The area.
    pub(crate) area: Area,
    /// The colour of the area.
    pub(crate) colour: u8,
    /// Whether what is after the field shows through.
    pub(crate) is_transparent: bool,
    /// Whether a long text goes on in a new row.
    pub(crate) wraps: bool,
    /// The justification, in the lowest two bits.
    pub(crate) justification: u8,
    /// The border.
    pub(crate) border: Paint,
}

/// The characters of a font. `None` if it is missing, or has a size that is not in the table.
pub(crate) fn look_of<S: Store>(store: &S, font: ObjectId) -> Option<Look>
    ensures { result ≡ fields.look_of (finite.get (S.contents store.now) font) }
{
    let Some(Object::Font(o)) = store.get(font) else {
        return None;
    };
    look_with(o.size, o.colour, o.style)
}

fn look_with(size: u8, colour: u8, style: u8) -> Option<Look>
    ensures { result ≡ option_map (λ cell. record { cell = cell; colour = colour; style = style }) (slice_get cells size) }
{
    let cell = cell(size)?;
    Some(Look {
        cell,
        colour,
        style,
    })
}

/// Draws a field: its area and its border, and the rows of its text.
pub(crate) fn draw_field(
    out: &mut Vec<u8>,
    look: Option<Look>,
    field: Field,
    shown: Option<&[u8]>,
) -> Result<(), AllocError>
    ensures { OnOk result (out.new.items ≡ out.old.items ++ text_of (fields.field_shapes look field (option_map (λ t. t.now) shown.entry))) }
{
    draw_area(out, look, field)?;
    match (look, shown) {
        (Some(look), Some(shown)) => draw_rows(out, look, field, shown),
        _ => Ok(()),
    }
}

fn draw_area(out: &mut Vec<u8>, look: Option<Look>, field: Field) -> Result<(), AllocError>
    ensures { OnOk result (out.new.items ≡ out.old.items ++ emptied Rect (fields.area_attributes look field)) }
{
    empty(
        out,
        Element::Rect,
        &[
            Attribute::Width(u32::from(field.area.width)),
            Attribute::Height(u32::from(field.area.height)),
            Attribute::Fill(background(look, field)),
            Attribute::Stroke(field.border),
            Attribute::StrokeWidth(2),
        ],
    )
}

/// The inside of a field. Inverted characters have the colour of the field, and the field that of the characters.
fn background(look: Option<Look>, field: Field) -> Paint
    ensures { result ≡ fields.background look field }
{
    match look {
        Some(look) if has_bit(look.style, 4) => Paint::Colour(look.colour),
        _ => if field.is_transparent {
            Paint::None
        } else {
            Paint::Colour(field.colour)
        },
    }
}

fn draw_rows(out: &mut Vec<u8>, look: Look, field: Field, shown: &[u8]) -> Result<(), AllocError>
    ensures { OnOk result (out.new.items ≡ out.old.items ++ text_of (fields.rows_of look field shown.now)) }
{
    if field.wraps {
        let (rows, columns) = (most_rows(look, field), columns(look, field));
        return draw_pieces(out, look, field, rows, columns, shown);
    }
    draw_only_row(out, look, field, trimmed(shown))
}

/// Draws the only row of a text, without the characters that can have no pixel in the field.
fn draw_only_row(
    out: &mut Vec<u8>,
    look: Look,
    field: Field,
    characters: &[u8],
) -> Result<(), AllocError>
    ensures { OnOk result (out.new.items ≡ out.old.items ++ text_of (fields.only_row look field characters.now)) }
{
    if characters.is_empty() {
        return Ok(());
    }
    let (row, _) = cut(characters, columns(look, field) + 1);
    draw_row(out, look, field, 0, row)
}

/// The number of characters of a row that fit into a field, at least one.
fn columns(look: Look, field: Field) -> usize
    ensures { result ≡ fields.columns look field }
{
    usize::from(field.area.width / look.cell.width.max(1)).max(1)
}

/// The number of rows of which a pixel may be in a field.
fn most_rows(look: Look, field: Field) -> usize
    ensures { result ≡ fields.most_rows look field }
{
    usize::from(field.area.height / look.cell.height.max(1)) + 1
}

/// Draws the pieces of a text of at most so many characters, each in a row, as many rows as may be.
fn draw_pieces(
    out: &mut Vec<u8>,
    look: Look,
    field: Field,
    rows: usize,
    characters: usize,
    shown: &[u8],
) -> Result<(), AllocError>
    requires rows { rows ≤ 65536 }
    requires characters { characters ≤ 65536 }
    ensures { OnOk result (out.new.items ≡ out.old.items ++ text_of (fields.row_nodes look field 0 (fields.pieces rows characters shown.now))) }
{
    let mut rest = shown;
    let mut row = 0;
    while row < rows && !rest.is_empty() {
        let (piece, later) = cut(rest, characters);
        draw_row(out, look, field, row as u32, trimmed(piece))?;
        rest = later;
        row += 1;
    }
    Ok(())
}

/// The first bytes of a text, as many as there are, and the others.
fn cut(text: &[u8], most: usize) -> (&[u8], &[u8])
    ensures first { result.0.now ≡ take most text.now }
    ensures later { result.1.now ≡ drop most text.now }
    ensures bound { length result.0.now ≤ most }
{
    text.split_at(text.len().min(most))
}

/// Draws the characters of a row.
fn draw_row(
    out: &mut Vec<u8>,
    look: Look,
    field: Field,
    row: u32,
    characters: &[u8],
) -> Result<(), AllocError>
    requires row { row ≤ 65536 }
    requires characters { length characters.now ≤ 65536 }
    ensures { OnOk result (out.new.items ≡ out.old.items ++ text_of (fields.alone look field row characters.now)) }
{
    let height = u32::from(look.cell.height);
    let long = u32::from(look.cell.width) * characters.len() as u32;
    open(
        out,
        Element::Text,
        &[
            Attribute::Left(indent(field.justification, u32::from(field.area.width), long)),
            Attribute::Top(height * row + height * 19 / 24),
            Attribute::FontSize((height * 5 + 3) / 6),
            Attribute::TextLength(long),
            Attribute::Flag(Flag::StretchedCharacters),
            Attribute::Fill(Paint::Colour(ink(look, field))),
            Attribute::Style(style_of(look.style)),
            Attribute::Flag(Flag::Spaces),
        ],
    )?;
    text(out, characters)?;
    close(out, Element::Text)
}

/// The distance of a row from the left: at the left, in the middle or at the right.
fn indent(justification: u8, width: u32, row: u32) -> u32
    ensures { result ≡ fields.indent justification width row }
{
    match justification % 4 {
        1 => width.saturating_sub(row) / 2,
        2 => width.saturating_sub(row),
        _ => 0,
    }
}

/// The colour of characters.
fn ink(look: Look, field: Field) -> u8
    ensures { result ≡ fields.ink look field }
{
    if has_bit(look.style, 4) {
        field.colour
    } else {
        look.colour
    }
}

fn style_of(style: u8) -> Style
    ensures { result ≡ fields.style_of style }
{
    Style {
        bold: has_bit(style, 0),
        italic: has_bit(style, 3),
        underlined: has_bit(style, 2),
        crossed_out: has_bit(style, 1),
    }
}

/// A text without the spaces at its end.
fn trimmed(text: &[u8]) -> &[u8]
    ensures is { result.now ≡ fields.trimmed text.now }
    ensures most { length result.now ≤ length text.now }
{
    let mut end = text.len();
    while end > 0 && text[end - 1] == b' ' {
        end -= 1;
    }
    &text[..end]
}
