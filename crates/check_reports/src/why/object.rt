//! The object of a question.

use check_options::ObjectWord;
use check_text::CheckedPool;
use std::io::Write;
use vt_objects::{ObjectId, Store};

/// The object of a pool that a word gives. `None` if it is not there, or if several have the name: then `errors` receives the reason.
pub(crate) fn object_of<E: Write>(
    source: &CheckedPool<'_>,
    word: &ObjectWord<'_>,
    errors: &mut E,
) -> Option<ObjectId> {
    match word {
        ObjectWord::Id(id) => {
            let id = ObjectId::from_raw(*id);
            if source.inspection.objects.get(id).is_some() {
                return Some(id);
            }
            let _ = writeln!(
                errors,
                "segyolant: {}: {} is not there; expected the ID of an object of the pool, or a name that a file of --names gives",
                source.path,
                source.label(id)
            );
            None
        }
        ObjectWord::Name(name) => object_named(source, name, errors),
    }
}

/// The one object of a pool with a name.
fn object_named<E: Write>(
    source: &CheckedPool<'_>,
    name: &str,
    errors: &mut E,
) -> Option<ObjectId> {
    let mut found = None;
    for (id, _) in source.inspection.objects.entries() {
        if source.names.get(*id) != Some(name) {
            continue;
        }
        if let Some(first) = found {
            let _ = writeln!(
                errors,
                "segyolant: {}: {} and {} have one name; give the ID of one",
                source.path,
                source.label(first),
                source.label(*id)
            );
            return None;
        }
        found = Some(*id);
    }
    if found.is_none() {
        let _ = writeln!(
            errors,
            "segyolant: {}: no object has the name {name}; expected an ID, or a name that a file of --names gives",
            source.path
        );
    }
    found
}
