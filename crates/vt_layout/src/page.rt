//! A page: the lines of a screen as they are written.

ghost use Rattle.std.specs.Prelude.{◌≡◌, ◌↔◌, ◌++◌, IsTrue, IfOk, OnOk, Some, suc};
ghost use Rattle.std.specs.FinMap as finite;
ghost use Rattle.vt_kinds.specs.Records.{seen};
ghost use Rattle.vt_layout.specs.Lines.{line_of};
ghost use Rattle.vt_layout.specs.Screens.{most_lines};
ghost use Rattle.vt_layout.specs.PageTexts.{with_line, finished};

use crate::element::Element;
use crate::lines::write_line;
use std::alloc::AllocError;
use std::marker::Model;
use vt_objects::{Object, Store};

/// The most lines of elements on a screen.
const MOST_LINES: u16 = 2000;

/// The lines so far, and the number of elements, counted up to one more than fit.
#[derive(Drop)]
pub(crate) struct Page {
    text: Vec<u8>,
    count: u16,
}

impl Model for Page {
    ghost use Rattle.std.specs.Prelude.{◌≤◌};
    ghost use Rattle.vt_layout.specs.PageTexts.{Sheet};

    ghost Value = { Sheet };

    ghost view = { λ p. record { text = p.text.items; count = p.count } };

    ghost invariant = { λ p. p.count ≤ 2001 };
}

impl Page {
    /// A page with a heading and no elements.
    pub(crate) fn new(heading: Vec<u8>) -> Page
        ensures { result ≡ record { text = heading.items; count = 0 } }
    {
        Page {
            text: heading,
            count: 0,
        }
    }

    /// Whether there are more elements than lines.
    pub(crate) fn is_full(&self) -> bool
        ensures { IsTrue result ↔ (self.now.count ≡ suc most_lines) }
    {
        self.count > MOST_LINES
    }

    /// Writes the line of an element if it fits, and counts the element.
    pub(crate) fn put<S: Store>(
        &mut self,
        store: &S,
        element: Element,
        object: &Object<Vec<u8>>,
    ) -> Result<(), AllocError>
        ensures { OnOk result (self.new ≡ with_line (line_of (S.contents store.now) element (Some (seen object.now))) self.old) }
    {
        self.count += 1;
        if self.count > MOST_LINES {
            self.count = MOST_LINES + 1;
            return Ok(());
        }
        write_line(&mut self.text, store, element, object)
    }

    /// The text, with a last line `more` if there are more elements than lines.
    pub(crate) fn finish(self) -> Result<Vec<u8>, AllocError>
        ensures { IfOk result (λ text. text.items ≡ finished self) }
    {
        let Page { mut text, count } = self;
        if count > MOST_LINES {
            text.extend_from_slice(b"more\n")?;
        }
        Ok(text)
    }
}
