//! The two pools of a comparison.

use check_text::CheckedPool;

/// The old and the new pool.
#[derive(Clone, Copy, Drop)]
pub(crate) struct Sides<'a> {
    pub(crate) old: CheckedPool<'a>,
    pub(crate) new: CheckedPool<'a>,
}
