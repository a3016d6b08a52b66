//! The options of `check`.

use crate::choice::Choice;
use crate::options::area;
use crate::wrong_option::WrongOption;
use check_needs::Area;
use clap::ArgMatches;
use std::alloc::Global;
use vt_cli::{UsageError, all_of};

/// The form of the output.
#[derive(Clone, Copy, PartialEq, Eq)]
pub enum Format {
    /// Lines for people.
    Text,
    /// Lines of JSON.
    Json,
    /// A GitHub workflow's commands.
    Github,
    /// SARIF, for hosts of code.
    Sarif,
    /// The XML of JUnit, for CI.
    Junit,
}

/// The options of `check`. Those that are not given may stand in a file of settings.
#[derive(Drop)]
pub struct CheckOptions<'a> {
    /// The files of the pools.
    pub pools: Vec<&'a str>,
    /// The files of names.
    pub names: Vec<&'a str>,
    /// The form of the output.
    pub format: Format,
    /// The most lines with errors and warnings for a pool, or `None` for all.
    pub most: Option<u32>,
    /// What is told, or none for all.
    pub select: Vec<&'a str>,
    /// What is not told.
    pub ignore: Vec<&'a str>,
    /// What is an error: `warnings` for all of them, or a choice.
    pub deny: Vec<&'a str>,
    /// What is a warning.
    pub warn: Vec<&'a str>,
    /// The file of known findings.
    pub baseline: Option<&'a str>,
    /// The file of the pool on top of which the pools are uploaded.
    pub base: Option<&'a str>,
    /// Whether what this terminal alone asks for is left out, or `None` if it is not given.
    pub is_for_any: Option<bool>,
    /// The terminal's area of a mask.
    pub mask: Option<Area>,
    /// The terminal's area of a key.
    pub key: Option<Area>,
    /// The terminal's soft keys.
    pub keys: Option<u8>,
    /// The file of settings, or `None` for the one in the folder of each pool.
    pub config: Option<&'a str>,
    /// Whether no file of settings is read.
    pub is_isolated: bool,
}

/// The word of `--deny` for all warnings.
pub const ALL_WARNINGS: &str = "warnings";

pub(crate) fn check_options<'a>(
    alloc: Global,
    matches: &ArgMatches<'a>,
) -> Result<CheckOptions<'a>, UsageError<WrongOption<'a>>> {
    let format = match matches.get_str("format") {
        Some("json") => Format::Json,
        Some("github") => Format::Github,
        Some("sarif") => Format::Sarif,
        Some("junit") => Format::Junit,
        Some(_) | None => Format::Text,
    };
    let config = matches.get_str("config");
    let is_isolated = matches.get_flag("isolated");
    if is_isolated && config.is_some() {
        return Err(UsageError::Wrong(WrongOption::IsolatedConfig));
    }
    Ok(CheckOptions {
        pools: all_of(alloc, matches, "POOL")?,
        names: all_of(alloc, matches, "names")?,
        format,
        most: matches.get_one::<u32>("most"),
        select: choices_of(alloc, matches, "select")?,
        ignore: choices_of(alloc, matches, "ignore")?,
        deny: choices_of(alloc, matches, "deny")?,
        warn: choices_of(alloc, matches, "warn")?,
        baseline: matches.get_str("baseline"),
        base: matches.get_str("on"),
        is_for_any: matches.get_str("for").map(|terminal| terminal == "any"),
        mask: area_if(matches, "size").map_err(WrongOption::Size)?,
        key: area_if(matches, "key-size").map_err(WrongOption::KeySize)?,
        keys: matches.get_one::<u8>("keys"),
        config,
        is_isolated,
    })
}

/// The words with which an option chooses findings.
fn choices_of<'a>(
    alloc: Global,
    matches: &ArgMatches<'a>,
    option: &'a str,
) -> Result<Vec<&'a str>, UsageError<WrongOption<'a>>> {
    let words = all_of(alloc, matches, option)?;
    match words.iter().find(|word| !is_choice(option, word)) {
        Some(word) => Err(UsageError::Wrong(WrongOption::Code { option, word })),
        None => Ok(words),
    }
}

/// Whether an option takes a word.
pub fn is_choice(option: &str, word: &str) -> bool {
    Choice::parse(word).is_some() || option == "deny" && word == ALL_WARNINGS
}

/// The area that an option gives. The error is the value of the option, if it is no area.
fn area_if<'a>(matches: &ArgMatches<'a>, option: &str) -> Result<Option<Area>, &'a str> {
    match matches.get_str(option) {
        None => Ok(None),
        Some(value) => area(value).map(Some).ok_or(value),
    }
}
