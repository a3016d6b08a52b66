//! What is known before the terminal takes a line.

use vt_can::{Action, Line, LineFault};
use vt_objects::ObjectId;
use vt_server::Terminal;

/// An action of the operator on an object.
#[derive(Clone, Copy)]
pub(crate) enum Deed {
    /// A key or a button is pressed.
    Press,
    /// A key or a button is released.
    Release,
    /// An input is selected.
    Select,
    /// A number or a text is entered into an input.
    Enter,
}

/// What is known before the terminal takes a line.
#[derive(Clone, Copy)]
pub(crate) struct LineBefore {
    /// The address of the shown set.
    pub(crate) shown: Option<u8>,
    /// The active mask of the working set that sends the frame of the line, or NULL.
    pub(crate) mask: ObjectId,
    /// What the operator does, and the object.
    pub(crate) deed: Option<(Deed, ObjectId)>,
}

impl LineBefore {
    /// A line that is no input of the terminal.
    pub(crate) fn without_input(terminal: &Terminal) -> LineBefore {
        LineBefore {
            shown: terminal.shown(),
            mask: ObjectId::NULL,
            deed: None,
        }
    }

    /// A line as it was read.
    pub(crate) fn of_reading(
        reading: &Result<Line<'_>, LineFault>,
        terminal: &Terminal,
    ) -> LineBefore {
        let mut line = LineBefore::without_input(terminal);
        match reading {
            Ok(Line::Frame { frame, .. }) => {
                if let Some(live) = terminal.set(frame.id.source()) {
                    line.mask = live.active_mask();
                }
            }
            Ok(Line::Operator(action)) => line.deed = deed_of(*action),
            Ok(Line::Skipped(_) | Line::Comment) | Err(_) => {}
        }
        line
    }
}

/// What an action does, and the object. `None` for the choice of a working set.
fn deed_of(action: Action<'_>) -> Option<(Deed, ObjectId)> {
    let (deed, id) = match action {
        Action::Press(id) => (Deed::Press, id),
        Action::Release(id) => (Deed::Release, id),
        Action::Select(id) => (Deed::Select, id),
        Action::Number(id, _) | Action::Text(id, _) => (Deed::Enter, id),
        Action::Set(_) => return None,
    };
    Some((deed, ObjectId::from_raw(id)))
}
