//! Which entries of a list kept their order, so that as few as possible are called moved.

use std::alloc::{AllocError, Global};

/// The longest run of rising old indices that ends at a new entry.
#[derive(Clone, Copy)]
struct Run {
    /// The old index of the entry, or `None` for an added one, which is in no run.
    partner: Option<usize>,
    length: usize,
    /// The index of the entry before it in the run.
    before: Option<usize>,
}

/// Whether each new entry is one of the longest run that kept its order, by the old indices of the entries.
pub(crate) fn kept_order(
    alloc: Global,
    partners: &[Option<usize>],
) -> Result<Vec<bool>, AllocError> {
    let runs = runs_of(alloc, partners)?;
    let mut is_kept = Vec::from_elem(alloc, false, partners.len())?;
    let mut next = longest(runs.as_slice());
    for _ in 0..partners.len() {
        let Some(index) = next else {
            break;
        };
        if let Some(is_kept) = is_kept.get_mut(index) {
            *is_kept = true;
        }
        next = runs.get(index).and_then(|run| run.before);
    }
    Ok(is_kept)
}

/// The run of each entry.
fn runs_of(alloc: Global, partners: &[Option<usize>]) -> Result<Vec<Run>, AllocError> {
    let mut runs: Vec<Run> = Vec::with_capacity(alloc, partners.len())?;
    for partner in partners {
        let run = run_to(*partner, runs.as_slice());
        runs.push(run)?;
    }
    Ok(runs)
}

/// The run of an entry behind those of the entries before it.
fn run_to(partner: Option<usize>, runs: &[Run]) -> Run {
    let mut found = Run {
        partner,
        length: 1,
        before: None,
    };
    for (index, run) in runs.iter().enumerate() {
        if run.partner.is_some() && run.partner < partner && run.length >= found.length {
            found.length = run.length.saturating_add(1);
            found.before = Some(index);
        }
    }
    found
}

/// The index of the entry with the longest run. `None` if all entries are added.
fn longest(runs: &[Run]) -> Option<usize> {
    let mut found = None;
    let mut most = 0;
    for (index, run) in runs.iter().enumerate() {
        if run.partner.is_some() && run.length > most {
            found = Some(index);
            most = run.length;
        }
    }
    found
}
