//! The working sets that are there from the start of a log, by the options `--pool`, `--owner` and `--pools`.

use crate::wrong_option::WrongOption;
use clap::ArgMatches;
use std::alloc::{AllocError, Global};
use vt_cli::{StartSet, UsageError, all_of};

/// The working sets that are there from the start of a log.
#[derive(Drop)]
pub struct StartOptions<'a> {
    /// Those whose pools are given one by one, each at an address of its own.
    pub sets: Vec<StartSet<'a>>,
    /// The folder with the pools of others.
    pub folder: Option<&'a str>,
}

/// The working sets that the options give to a terminal at the address `own`.
pub(crate) fn start_options<'a>(
    alloc: Global,
    matches: &ArgMatches<'a>,
    own: u8,
) -> Result<StartOptions<'a>, UsageError<WrongOption<'a>>> {
    let owner = matches.get_str("owner");
    let mut sets = Vec::new(alloc);
    let mut needs_owner = false;
    for value in all_of(alloc, matches, "pool")? {
        let set = match cut(value) {
            Some((pool, behind)) => {
                StartSet::new(pool, Some(behind), own).map_err(|_| WrongOption::PoolOwner(value))?
            }
            None => {
                needs_owner = true;
                StartSet::new(value, owner, own).map_err(WrongOption::Owner)?
            }
        };
        if sets
            .iter()
            .any(|other: &StartSet<'_>| other.owner == set.owner)
        {
            return Err(UsageError::Wrong(WrongOption::PoolTwice(value)));
        }
        sets.push(set).map_err(AllocError::from)?;
    }
    if owner.is_some() && !needs_owner {
        return Err(UsageError::Wrong(WrongOption::OwnerAlone));
    }
    Ok(StartOptions {
        sets,
        folder: matches.get_str("pools"),
    })
}

/// The file and the address in a value `FILE@AA` of `--pool`. `None` if it has no address, or the standard input as its file.
fn cut(value: &str) -> Option<(&str, &str)> {
    let (pool, behind) = value.rsplit_once('@')?;
    if behind.len() == 2 && pool != "-" {
        Some((pool, behind))
    } else {
        None
    }
}
