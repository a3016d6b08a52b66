//! The working sets of a log, with the objects of their accepted pools.

use crate::Upload;
use crate::verdict::Verdict;
use std::alloc::{AllocError, Global};
use std::collections::BTreeMap;
use vt_cli::Status;
use vt_objects::SortedStore;

/// The objects of each implement at each terminal, and how many uploads each implement has ended.
#[derive(Drop)]
pub(crate) struct ImplementSets {
    objects: BTreeMap<(u8, u8), SortedStore>,
    uploads: BTreeMap<u8, u64>,
}

impl ImplementSets {
    pub(crate) fn new(alloc: Global) -> ImplementSets {
        ImplementSets {
            objects: BTreeMap::new(alloc),
            uploads: BTreeMap::new(alloc),
        }
    }

    /// The objects of an implement at a terminal.
    pub(crate) fn objects(&self, source: u8, destination: u8) -> Option<&SortedStore> {
        self.objects.get(&(source, destination))
    }

    /// Replaces the objects before by those of an accepted pool. Returns the status of the upload.
    pub(crate) fn judge(
        &mut self,
        upload: &Upload,
        verdict: Verdict,
    ) -> Result<Status, AllocError> {
        match verdict {
            Verdict::Accepted(objects) => {
                self.objects
                    .insert((upload.source, upload.destination), objects)?;
                Ok(Status::Clean)
            }
            Verdict::Faulty(_) | Verdict::Refused(_) => Ok(Status::Found),
        }
    }

    /// Deletes the pool of an implement at a terminal.
    pub(crate) fn delete(&mut self, source: u8, destination: u8) {
        let _deleted = self.objects.remove(&(source, destination));
    }

    /// The number of the next upload of an implement, from 1.
    pub(crate) fn next_number(&mut self, source: u8) -> Result<u64, AllocError> {
        let count = self.uploads.get(&source).copied().unwrap_or(0);
        let number = count.saturating_add(1);
        self.uploads.insert(source, number)?;
        Ok(number)
    }
}
