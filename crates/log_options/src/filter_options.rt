//! The filters that a command line gives.

use crate::filters::{LineFilter, ObjectWord, TopicFilter, TopicPart, byte_in};
use crate::places::{LineRange, LogPlace};
use crate::wrong_option::WrongOption;
use clap::ArgMatches;
use std::alloc::{AllocError, Global};
use vt_cli::{UsageError, all_of};

/// The differences that `--only`, `--ignore`, `--from` and `--to` select.
pub(crate) fn topic_filter<'a>(
    alloc: Global,
    matches: &ArgMatches<'a>,
) -> Result<TopicFilter<'a>, UsageError<WrongOption<'a>>> {
    Ok(TopicFilter {
        range: range_of(matches)?,
        only: topic_parts(alloc, matches, "only")?,
        ignored: topic_parts(alloc, matches, "ignore")?,
    })
}

/// The lines that `--from`, `--to`, `--address`, `--function` and `--object` select.
pub(crate) fn line_filter<'a>(
    alloc: Global,
    matches: &ArgMatches<'a>,
) -> Result<LineFilter<'a>, UsageError<WrongOption<'a>>> {
    let mut filter = LineFilter {
        range: range_of(matches)?,
        addresses: Vec::new(alloc),
        functions: Vec::new(alloc),
        objects: Vec::new(alloc),
    };
    for value in all_of(alloc, matches, "address")? {
        let address = byte_in(value).ok_or(WrongOption::Address(value))?;
        filter.addresses.push(address).map_err(AllocError::from)?;
    }
    for value in all_of(alloc, matches, "function")? {
        let function = byte_in(value).ok_or(WrongOption::Function(value))?;
        filter.functions.push(function).map_err(AllocError::from)?;
    }
    for value in all_of(alloc, matches, "object")? {
        let object = ObjectWord::read(value).ok_or(WrongOption::Object(value))?;
        filter.objects.push(object).map_err(AllocError::from)?;
    }
    Ok(filter)
}

/// The parts of topics that the values of an option give.
fn topic_parts<'a>(
    alloc: Global,
    matches: &ArgMatches<'a>,
    option: &'static str,
) -> Result<Vec<TopicPart<'a>>, UsageError<WrongOption<'a>>> {
    let mut parts = Vec::new(alloc);
    for value in all_of(alloc, matches, option)? {
        let part = TopicPart::read(value).ok_or(WrongOption::Topic(option, value))?;
        parts.push(part).map_err(AllocError::from)?;
    }
    Ok(parts)
}

/// The lines from the value of `--from` to that of `--to`.
pub(crate) fn range_of<'a>(matches: &ArgMatches<'a>) -> Result<LineRange, WrongOption<'a>> {
    let range = LineRange {
        from: place_of(matches, "from")?,
        to: place_of(matches, "to")?,
    };
    match (matches.get_str("from"), matches.get_str("to")) {
        (Some(from), Some(to)) if range.is_reversed() => Err(WrongOption::Reversed(from, to)),
        _ => Ok(range),
    }
}

/// The place that the value of an option gives, if it is given.
fn place_of<'a>(
    matches: &ArgMatches<'a>,
    option: &'static str,
) -> Result<Option<LogPlace>, WrongOption<'a>> {
    match matches.get_str(option) {
        None => Ok(None),
        Some(value) => match LogPlace::read(value) {
            Some(place) => Ok(Some(place)),
            None => Err(WrongOption::Place(option, value)),
        },
    }
}
