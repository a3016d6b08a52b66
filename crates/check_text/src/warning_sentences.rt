//! The sentences of warnings.

use crate::checked_pool::CheckedPool;
use check_needs::{Area, PlacedElement, Warning};
use std::fmt;

/// The sentence of a warning, with the kinds and names of its objects.
#[derive(Clone, Copy, Drop)]
pub(crate) struct WarningSentence<'a, 'b> {
    pub(crate) source: CheckedPool<'a>,
    pub(crate) warning: &'b Warning,
}

impl fmt::Display for WarningSentence<'_, '_> {
    fn fmt<W: fmt::Write>(&self, f: &mut fmt::Formatter<W>) -> fmt::Result {
        match self.warning {
            Warning::Unused { id } => {
                write!(f, "{}: no object names it", self.source.label(*id))
            }
            Warning::TextTooWide(field) => write!(
                f,
                "{}: {} characters of {} pixels in a field of {}",
                self.source.label(field.id),
                field.columns,
                field.cell.width,
                field.area.width
            ),
            Warning::TextTooHigh(field) => write!(
                f,
                "{}: characters of {} pixels in a field of {}",
                self.source.label(field.id),
                field.cell.height,
                field.area.height
            ),
            Warning::Outside { element, area } => self.write_outside(f, element, *area),
            Warning::ExtraKeys { id, keys, most } => write!(
                f,
                "{}: {keys} keys, and the terminal has {most}",
                self.source.label(*id)
            ),
        }
    }
}

impl WarningSentence<'_, '_> {
    fn write_outside<W: fmt::Write>(
        &self,
        f: &mut fmt::Formatter<W>,
        element: &PlacedElement,
        area: Area,
    ) -> fmt::Result {
        let parent = self.source.label(element.parent);
        let child = self.source.label(element.id);
        let PlacedElement {
            index,
            x,
            y,
            width,
            height,
            ..
        } = *element;
        write!(
            f,
            "{parent}: child {index}, {child}, of {width}x{height} at {x},{y} reaches out of its area of {}x{}",
            area.width, area.height
        )
    }
}
