//! Why no mask is drawn.

use check_text::CheckedPool;
use std::fmt;
use vt_objects::{ObjectId, Store};

/// Why no mask is drawn.
#[derive(Clone, Copy, PartialEq, Eq)]
pub(crate) enum NotDrawn {
    /// The pool has no masks.
    NoMasks,
    /// The pool has no working set, so no mask is active.
    NoWorkingSet,
    /// The active mask of a working set is not among the pool's masks.
    NotActive { set: ObjectId, mask: ObjectId },
    /// The object that the command line names is not among the pool's masks.
    NoMask(ObjectId),
}

/// The sentence for a refusal: the file, the cause and the cure. `Display` writes it without a newline.
#[derive(Clone, Copy, Drop)]
pub(crate) struct RefusalLine<'a> {
    /// The pool.
    pub(crate) source: &'a CheckedPool<'a>,
    /// The masks of the pool.
    pub(crate) masks: &'a [ObjectId],
    /// The cause.
    pub(crate) refusal: NotDrawn,
}

impl fmt::Display for RefusalLine<'_> {
    fn fmt<W: fmt::Write>(&self, f: &mut fmt::Formatter<W>) -> fmt::Result {
        write!(f, "segyolant: {}: ", self.source.path)?;
        match self.refusal {
            NotDrawn::NoMasks => f.write_str("no Data Mask or Alarm Mask could be read")?,
            NotDrawn::NoWorkingSet => f.write_str("no Working Set is there, so no mask is active")?,
            NotDrawn::NotActive { set, mask } => {
                let set = self.source.label(set);
                write!(f, "the active mask of {set} is ")?;
                self.write_other(f, mask, ", which is")?;
            }
            NotDrawn::NoMask(id) => self.write_other(f, id, " is")?,
        }
        self.write_cure(f)
    }
}

impl RefusalLine<'_> {
    /// Writes an object that is no mask, and why, with the words before it.
    fn write_other<W: fmt::Write>(
        &self,
        f: &mut fmt::Formatter<W>,
        id: ObjectId,
        is: &str,
    ) -> fmt::Result {
        let label = self.source.label(id);
        match label.kind {
            Some(_) => write!(f, "{label}{is} no Data Mask or Alarm Mask"),
            None => write!(f, "{label}{is} not there"),
        }
    }

    /// Writes how to draw masks of the pool.
    fn write_cure<W: fmt::Write>(&self, f: &mut fmt::Formatter<W>) -> fmt::Result {
        match self.masks.first() {
            Some(id) => write!(
                f,
                "; --mask {} draws {}, and --mask all --out FOLDER all masks",
                id.raw(),
                self.source.label(*id)
            ),
            None => f.write_str("; segyolant check says what the pool lacks"),
        }
    }
}
