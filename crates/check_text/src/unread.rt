//! Pools of which not all was read.

use check_inspect::{Inspection, Note};
use std::io::Write;

/// Whether all bytes of a pool were read. If not, `errors` receives the index of the first unread byte.
pub fn is_read<E: Write>(inspection: &Inspection, path: &str, errors: &mut E) -> bool {
    for note in inspection.notes.iter() {
        if let Note::Unread { at } = note {
            let _ = writeln!(
                errors,
                "segyolant: {path}: the bytes from {at} on cannot be read, so they are left out; segyolant check says why"
            );
            return false;
        }
    }
    true
}

/// Whether each record of a pool was read. If not, `errors` receives the reason.
pub fn is_whole<E: Write>(inspection: &Inspection, path: &str, errors: &mut E) -> bool {
    if !is_read(inspection, path, errors) {
        return false;
    }
    if inspection.passed.is_empty() {
        return true;
    }
    let _ = writeln!(
        errors,
        "segyolant: {path}: objects that this terminal does not have are left out; segyolant check says which"
    );
    false
}
