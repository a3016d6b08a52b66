//! Linear bars.

ghost use Rattle.std.specs.Prelude.{◌≡◌, ◌<◌, ◌++◌, OnOk};
ghost use Rattle.draw_svg.specs.Elements.{text_of, when};
ghost use Rattle.draw_shapes.specs.Gauges.{bar_border, bar_shapes, bar_target, bar_tick, each_below, value_length, value_part};
ghost use Rattle.draw_shapes.specs.Bits.{has_bit};

use crate::bits::has_bit;
use crate::shapes::gauges::axis::{draw_across, length_of, part_between};
use crate::shapes::gauges::values::{plain_line, share, shown, tick_at};
use draw_svg::{Attribute, Element, Paint, along};
use std::alloc::AllocError;
use vt_objects::{LinearBar, Store};

/// The bit of the option that the border is drawn.
const BORDER: u8 = 0;

/// The bit of the option that the target is drawn.
const TARGET: u8 = 1;

/// The bit of the option that the ticks are drawn.
const TICKS: u8 = 2;

/// The bit of the option that a line shows the value, and no filled part.
const AS_LINE: u8 = 3;

/// The width of the lines at the value and at the target, in tenths of a pixel.
const LINE_WIDTH: u32 = 20;

/// The width of the border and of the ticks, in tenths of a pixel.
const THIN_WIDTH: u32 = 10;

/// The length of a tick, in tenths of a pixel.
const TICK_LENGTH: u32 = 40;

/// The colour of ticks.
const TICK_COLOUR: u8 = 0;

/// A length that no bar has, in tenths of a pixel: a line of at most this length goes all the way across.
const ALL_ACROSS: u32 = 1_000_000;

/// Draws a linear bar.
pub(crate) fn draw_linear_bar<S: Store>(
    text: &mut Vec<u8>,
    store: &S,
    bar: &LinearBar,
) -> Result<(), AllocError>
    ensures { OnOk result (text.new.items ≡ text.old.items ++ text_of (bar_shapes (S.contents store.now) bar.now)) }
{
    draw_value(text, store, bar)?;
    draw_border_if_set(text, bar)?;
    draw_ticks_if_set(text, bar)?;
    draw_target_if_set(text, store, bar)
}

/// The length of a bar up to its value.
fn value_length<S: Store>(store: &S, bar: &LinearBar) -> u32
    ensures { result ≡ value_length (S.contents store.now) bar.now }
{
    share(
        length_of(bar),
        bar.min,
        bar.max,
        shown(store, bar.variable, bar.value),
    )
}

/// Draws the bar up to the value, or a line at the value.
fn draw_value<S: Store>(text: &mut Vec<u8>, store: &S, bar: &LinearBar) -> Result<(), AllocError>
    ensures { OnOk result (text.new.items ≡ text.old.items ++ text_of (value_part (S.contents store.now) bar.now)) }
{
    let length = value_length(store, bar);
    if has_bit(bar.options, AS_LINE) {
        draw_across(
            text,
            bar,
            &plain_line(bar.colour, LINE_WIDTH),
            length,
            ALL_ACROSS,
        )
    } else {
        along(
            text,
            Element::Polygon,
            &[Attribute::Fill(Paint::Colour(bar.colour))],
            &part_between(bar, 0, length),
        )
    }
}

/// Draws the ticks, if the options have them.
fn draw_ticks_if_set(text: &mut Vec<u8>, bar: &LinearBar) -> Result<(), AllocError>
    ensures { OnOk result (text.new.items ≡ text.old.items ++ text_of (when (has_bit bar.now.options 2) (each_below (bar_tick bar.now) bar.now.ticks))) }
{
    if !has_bit(bar.options, TICKS) {
        return Ok(());
    }
    draw_ticks(text, bar)
}

/// Draws all ticks.
fn draw_ticks(text: &mut Vec<u8>, bar: &LinearBar) -> Result<(), AllocError>
    ensures { OnOk result (text.new.items ≡ text.old.items ++ text_of (each_below (bar_tick bar.now) bar.now.ticks)) }
{
    for i in 0..bar.ticks {
        draw_tick(text, bar, i)?;
    }
    Ok(())
}

/// Draws a tick, by its number.
fn draw_tick(text: &mut Vec<u8>, bar: &LinearBar, i: u8) -> Result<(), AllocError>
    requires { i < bar.now.ticks }
    ensures { OnOk result (text.new.items ≡ text.old.items ++ text_of (bar_tick bar.now i)) }
{
    let place = tick_at(length_of(bar), bar.ticks, i);
    draw_across(
        text,
        bar,
        &plain_line(TICK_COLOUR, THIN_WIDTH),
        place,
        TICK_LENGTH,
    )
}

/// Draws the line at the target, if the options have it.
fn draw_target_if_set<S: Store>(
    text: &mut Vec<u8>,
    store: &S,
    bar: &LinearBar,
) -> Result<(), AllocError>
    ensures { OnOk result (text.new.items ≡ text.old.items ++ text_of (when (has_bit bar.now.options 1) (bar_target (S.contents store.now) bar.now))) }
{
    if !has_bit(bar.options, TARGET) {
        return Ok(());
    }
    let target = shown(store, bar.target_variable, bar.target);
    let place = share(length_of(bar), bar.min, bar.max, target);
    draw_across(
        text,
        bar,
        &plain_line(bar.target_colour, LINE_WIDTH),
        place,
        ALL_ACROSS,
    )
}

/// Draws the border, if the options have it.
fn draw_border_if_set(text: &mut Vec<u8>, bar: &LinearBar) -> Result<(), AllocError>
    ensures { OnOk result (text.new.items ≡ text.old.items ++ text_of (when (has_bit bar.now.options 0) (bar_border bar.now))) }
{
    if !has_bit(bar.options, BORDER) {
        return Ok(());
    }
    along(
        text,
        Element::Polygon,
        &plain_line(bar.colour, THIN_WIDTH),
        &part_between(bar, 0, length_of(bar)),
    )
}
