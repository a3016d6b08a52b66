//! What a pool needs.

use crate::needs::font_uses::{FontUse, font_uses};
use crate::needs::load::{Load, load_of};
use check_needs::{Needers, Needs, needers_of, needs_of};
use check_text::CheckedPool;
use std::alloc::Global;
use std::io;

/// What a pool needs, and which of its objects need it.
#[derive(Drop)]
pub(crate) struct Report<'a> {
    pub(crate) source: CheckedPool<'a>,
    pub(crate) needs: Needs,
    pub(crate) needers: Needers,
    pub(crate) font_uses: Vec<FontUse>,
    pub(crate) load: Load,
}

impl<'a> Report<'a> {
    pub(crate) fn new(alloc: Global, source: CheckedPool<'a>) -> io::Result<Report<'a>> {
        let objects = &source.inspection.objects;
        Ok(Report {
            source,
            needs: needs_of(objects),
            needers: needers_of(objects),
            font_uses: font_uses(alloc, objects)?,
            load: load_of(alloc, source.inspection)?,
        })
    }
}

/// The colours of the least terminal with a colour number: 2, 16 or 256.
pub(crate) fn colours(colour: u8) -> u16 {
    match colour {
        0 | 1 => 2,
        2..=15 => 16,
        _ => 256,
    }
}
