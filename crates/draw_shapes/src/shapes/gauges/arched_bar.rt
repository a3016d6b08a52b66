//! Arched bars.

ghost use Rattle.std.specs.Prelude.{◌≡◌, ◌≤◌, [], ◌∷◌, ◌++◌, OnOk};
ghost use Rattle.draw_svg.specs.Elements.{text_of, when, Along, None};
ghost use Rattle.draw_svg.specs.declared.element.Element.TheVariants.{Polygon, Polyline};
ghost use Rattle.draw_svg.specs.declared.attribute.Attribute.TheVariants.{Fill};
ghost use Rattle.draw_svg.specs.declared.attribute.Paint.TheVariants.{Colour};
ghost use Rattle.draw_shapes.specs.Arcs.{arc, IsOval};
ghost use Rattle.draw_shapes.specs.Gauges.{across_arch, arch_border, arch_part, arch_shapes, arch_steps, arch_target, arch_value, between_edges, first_angle, is_clockwise, ring, plain_line, turned};
ghost use Rattle.draw_shapes.specs.Bits.{has_bit};

use crate::bits::has_bit;
use crate::shapes::arcs::{Oval, STEPS, point_on, push_arc, push_arc_back, sweep};
use crate::shapes::gauges::values::{draw_arc, draw_between, plain_line, share, shown, turned};
use crate::shapes::lines::{half_of, tenths};
use draw_svg::{Attribute, Element, Paint, close_points, open_points};
use std::alloc::AllocError;
use vt_objects::{ArchedBar, Store};

/// The bit of the option that the border is drawn.
const BORDER: u8 = 0;

/// The bit of the option that the target is drawn.
const TARGET: u8 = 1;

/// The bit of the option that a line shows the value, and no filled part.
const AS_LINE: u8 = 3;

/// The bit of the option that the bar grows clockwise.
const CLOCKWISE: u8 = 4;

/// The width of the lines at the value and at the target, in tenths of a pixel.
const LINE_WIDTH: u32 = 20;

/// The width of the border, in tenths of a pixel.
const BORDER_WIDTH: u32 = 10;

/// Draws an arched bar.
pub(crate) fn draw_arched_bar<S: Store>(
    text: &mut Vec<u8>,
    store: &S,
    bar: &ArchedBar,
) -> Result<(), AllocError>
    ensures { OnOk result (text.new.items ≡ text.old.items ++ text_of (arch_shapes (S.contents store.now) bar.now)) }
{
    draw_value(text, store, bar)?;
    draw_border_if_set(text, bar)?;
    draw_target_if_set(text, store, bar)
}

/// An ellipse at a distance from the edge of an arched bar.
fn ring(bar: &ArchedBar, inset: u32) -> Oval
    ensures is { result ≡ ring bar.now inset }
    ensures oval { IsOval result }
{
    let (x, y) = (half_of(bar.width), half_of(bar.height));
    Oval {
        x,
        y,
        radius_x: x.saturating_sub(inset),
        radius_y: y.saturating_sub(inset),
    }
}

/// The steps of an arched bar.
fn arch_steps(bar: &ArchedBar) -> u8
    ensures is { result ≡ arch_steps bar.now }
    ensures most { result ≤ 180 }
{
    sweep(bar.start, bar.end)
}

/// The angle after some steps of an arched bar.
fn angle_at(bar: &ArchedBar, n: u32) -> u8
    requires { n ≤ 180 }
    ensures { result ≡ turned (is_clockwise bar.now) bar.now.start (arch_steps bar.now) n }
{
    turned(
        has_bit(bar.options, CLOCKWISE),
        bar.start,
        arch_steps(bar),
        n,
    )
}

/// Draws a line across the arch after some steps.
fn draw_across(text: &mut Vec<u8>, bar: &ArchedBar, colour: u8, n: u32) -> Result<(), AllocError>
    requires { n ≤ 180 }
    ensures { OnOk result (text.new.items ≡ text.old.items ++ text_of (across_arch bar.now colour n)) }
{
    let angle = angle_at(bar, n);
    draw_between(
        text,
        &plain_line(colour, LINE_WIDTH),
        point_on(ring(bar, tenths(bar.bar_width)), angle),
        point_on(ring(bar, 0), angle),
    )
}

/// The steps of an arched bar up to its value.
fn arch_value<S: Store>(store: &S, bar: &ArchedBar) -> u32
    ensures is { result ≡ arch_value (S.contents store.now) bar.now }
    ensures most { result ≤ 180 }
{
    share(
        u32::from(arch_steps(bar)),
        bar.min,
        bar.max,
        shown(store, bar.variable, bar.value),
    )
}

/// The angle at which the drawn part of an arch begins, counterclockwise.
fn first_angle(bar: &ArchedBar, steps: u32) -> u8
    requires { steps ≤ 180 }
    ensures { result ≡ first_angle bar.now steps }
{
    if has_bit(bar.options, CLOCKWISE) {
        angle_at(bar, steps)
    } else {
        bar.start % STEPS
    }
}

/// Draws the arch up to the value, or a line at the value.
fn draw_value<S: Store>(text: &mut Vec<u8>, store: &S, bar: &ArchedBar) -> Result<(), AllocError>
    ensures { OnOk result (text.new.items ≡ text.old.items ++ text_of (arch_part (S.contents store.now) bar.now)) }
{
    let steps = arch_value(store, bar);
    if has_bit(bar.options, AS_LINE) {
        draw_across(text, bar, bar.colour, steps)
    } else {
        draw_between_edges(text, bar, first_angle(bar, steps), steps as u8)
    }
}

/// Draws the inside of an arch, from an angle counterclockwise: along the outer edge, and back along the inner one.
fn draw_between_edges(
    text: &mut Vec<u8>,
    bar: &ArchedBar,
    start: u8,
    steps: u8,
) -> Result<(), AllocError>
    ensures { OnOk result (text.new.items ≡ text.old.items ++ text_of (Along Polygon (Fill (Colour bar.now.colour) ∷ []) (between_edges bar.now start steps) None)) }
{
    let last = (u16::from(start) + u16::from(steps)) % u16::from(STEPS);
    open_points(
        text,
        Element::Polygon,
        &[Attribute::Fill(Paint::Colour(bar.colour))],
    )?;
    push_arc(text, ring(bar, 0), start, steps)?;
    push_arc_back(text, ring(bar, tenths(bar.bar_width)), last as u8, steps)?;
    close_points(text)
}

/// Draws the line at the target, if the options have it.
fn draw_target_if_set<S: Store>(
    text: &mut Vec<u8>,
    store: &S,
    bar: &ArchedBar,
) -> Result<(), AllocError>
    ensures { OnOk result (text.new.items ≡ text.old.items ++ text_of (when (has_bit bar.now.options 1) (arch_target (S.contents store.now) bar.now))) }
{
    if !has_bit(bar.options, TARGET) {
        return Ok(());
    }
    let target = shown(store, bar.target_variable, bar.target);
    let place = share(u32::from(arch_steps(bar)), bar.min, bar.max, target);
    draw_across(text, bar, bar.target_colour, place)
}

/// Draws the outer and the inner edge, if the options have them.
fn draw_border_if_set(text: &mut Vec<u8>, bar: &ArchedBar) -> Result<(), AllocError>
    ensures { OnOk result (text.new.items ≡ text.old.items ++ text_of (when (has_bit bar.now.options 0) (arch_border bar.now))) }
{
    if !has_bit(bar.options, BORDER) {
        return Ok(());
    }
    draw_edge(text, bar, 0)?;
    draw_edge(text, bar, tenths(bar.bar_width))
}

/// Draws a line along the arch, at a distance from its outer edge.
fn draw_edge(text: &mut Vec<u8>, bar: &ArchedBar, inset: u32) -> Result<(), AllocError>
    ensures { OnOk result (text.new.items ≡ text.old.items ++ text_of (Along Polyline (plain_line bar.now.colour 10) (arc (ring bar.now inset) bar.now.start (arch_steps bar.now)) None)) }
{
    draw_arc(
        text,
        &plain_line(bar.colour, BORDER_WIDTH),
        ring(bar, inset),
        bar.start,
        arch_steps(bar),
    )
}
