//! What is known of an accepted pool alone.

use check_inspect::{Finding, Inspection, Note};
use check_needs::{Dearest, dearest_event, longest_chain};
use std::alloc::Global;
use std::io::{self, Error, ErrorKind};
use vt_pool::read_pool;
use vt_verify::{Refusal, verify_update};

/// What is known of an accepted pool alone, or why it is not known.
#[derive(Clone, Copy, PartialEq, Eq)]
pub(crate) enum Load {
    Known {
        /// The most inclusions of a chain.
        chain: u8,
        /// The event with the most steps.
        dearest: Dearest,
    },
    /// Some bytes cannot be read.
    Unread,
    /// A record has a fault.
    Faulty,
    /// A terminal refuses the pool.
    Refused,
}

/// The load of a pool. The objects that were inspected are verified as they are, so that the pool is not read again.
pub(crate) fn load_of(alloc: Global, inspection: &Inspection) -> io::Result<Load> {
    let Inspection {
        findings,
        notes,
        objects,
        ..
    } = inspection;
    if notes.iter().any(|note| matches!(note, Note::Unread { .. })) {
        return Ok(Load::Unread);
    }
    if findings
        .iter()
        .any(|finding| matches!(finding, Finding::Record(_)))
    {
        return Ok(Load::Faulty);
    }
    if !findings.is_empty() {
        return Ok(Load::Refused);
    }
    let Ok(no_update) = read_pool(alloc, &[]) else {
        return Err(Error::from(ErrorKind::OutOfMemory));
    };
    match verify_update(alloc, objects, &no_update) {
        Ok(accepted) => {
            let dearest = dearest_event(&accepted);
            Ok(Load::Known {
                chain: longest_chain(accepted.into_parts().depths.as_slice()),
                dearest,
            })
        }
        Err(Refusal::OutOfMemory) => Err(Error::from(ErrorKind::OutOfMemory)),
        Err(_) => Ok(Load::Refused),
    }
}
