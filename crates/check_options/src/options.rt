//! The options that a command line gives.

use crate::check::{CheckOptions, check_options};
use crate::draw::{DrawOptions, area_of, draw_options};
use crate::line_format::{LineFormat, line_format_of};
use crate::subcommands::SEGYOLANT;
use crate::why::{WhyOptions, why_options};
use crate::wrong_option::WrongOption;
use check_needs::{Area, Sizes, TERMINAL_SIZES};
use clap::ArgMatches;
use std::alloc::{AllocError, Global};
use std::convert::AsStr;
use vt_cli::{UsageError, all_of, inputs_in};

/// The options that a command line gives, by its subcommand.
#[derive(Drop)]
pub enum Options<'a> {
    /// `check`.
    Check(CheckOptions<'a>),
    /// `rule`, with the code or the name that is explained, or `None` for all.
    Rule(Option<&'a str>),
    /// `why`.
    Why(WhyOptions<'a>),
    /// `needs`.
    Needs(NeedsOptions<'a>),
    /// `diff`.
    Diff(DiffOptions<'a>),
    /// `draw`.
    Draw(DrawOptions<'a>),
    /// `report`.
    Report(ReportOptions<'a>),
}

/// The options of `needs`.
#[derive(Drop)]
pub struct NeedsOptions<'a> {
    /// The file of the pool.
    pub pool: &'a str,
    /// The files of names.
    pub names: Vec<&'a str>,
    /// The sizes of the terminal.
    pub sizes: Sizes,
    /// The form of the output.
    pub format: LineFormat,
}

/// The options of `report`.
#[derive(Drop)]
pub struct ReportOptions<'a> {
    /// The file of the pool.
    pub pool: &'a str,
    /// The files of names.
    pub names: Vec<&'a str>,
    /// The sizes of the terminal.
    pub sizes: Sizes,
}

/// The options of `diff`.
#[derive(Drop)]
pub struct DiffOptions<'a> {
    /// The file of the old pool.
    pub old: &'a str,
    /// The file of the new pool.
    pub new: &'a str,
    /// The files of names.
    pub names: Vec<&'a str>,
    /// The form of the output.
    pub format: LineFormat,
}

/// The subcommands, and where to read about them.
const SUBCOMMANDS: &str =
    "check, rule, why, needs, diff, draw or report; segyolant --help says what each does";

/// The arguments that are paths of files to read.
const FILES: &[&str] = &[
    "POOL", "OLD", "NEW", "state", "names", "baseline", "on", "config",
];

impl<'a> Options<'a> {
    /// Reads the arguments of a command line, of which the first is the program's name.
    pub fn parse<S: AsStr>(
        alloc: Global,
        arguments: &'a [S],
    ) -> Result<Options<'a>, UsageError<WrongOption<'a>>> {
        let matches = SEGYOLANT.command(alloc)?.try_get_matches_from(arguments)?;
        // clap demands a subcommand; its contract does not say so.
        let Some((name, matches)) = matches.subcommand() else {
            return Err(UsageError::NoSubcommand(SUBCOMMANDS));
        };
        let options = Options::of_subcommand(alloc, name, matches)?;
        if inputs_in(matches, FILES) > 1 {
            return Err(UsageError::InputTwice);
        }
        Ok(options)
    }

    /// The options of the subcommand with this name, from its matches.
    fn of_subcommand(
        alloc: Global,
        name: &str,
        matches: &ArgMatches<'a>,
    ) -> Result<Options<'a>, UsageError<WrongOption<'a>>> {
        Ok(match name {
            "rule" => Options::Rule(matches.get_str("CODE")),
            "why" => Options::Why(why_options(alloc, matches)?),
            "needs" => Options::Needs(needs_options(alloc, matches)?),
            "diff" => Options::Diff(diff_options(alloc, matches)?),
            "draw" => Options::Draw(draw_options(alloc, matches)?),
            "report" => Options::Report(report_options(alloc, matches)?),
            "check" => Options::Check(check_options(alloc, matches)?),
            // clap takes no other name; its contract does not say so.
            _ => return Err(UsageError::NoSubcommand(SUBCOMMANDS)),
        })
    }
}

/// The sizes of the terminal, by `--size` and `--keys`.
fn sizes_of<'a>(matches: &ArgMatches<'a>) -> Result<Sizes, WrongOption<'a>> {
    let mask = area_of(matches, "size", TERMINAL_SIZES.mask).map_err(WrongOption::Size)?;
    let keys = matches.get_one::<u8>("keys").unwrap_or(TERMINAL_SIZES.keys);
    Ok(Sizes {
        mask,
        keys,
        ..TERMINAL_SIZES
    })
}

fn needs_options<'a>(
    alloc: Global,
    matches: &ArgMatches<'a>,
) -> Result<NeedsOptions<'a>, UsageError<WrongOption<'a>>> {
    Ok(NeedsOptions {
        pool: matches.get_str("POOL").unwrap_or(""),
        names: all_of(alloc, matches, "names")?,
        sizes: sizes_of(matches)?,
        format: line_format_of(matches),
    })
}

fn report_options<'a>(
    alloc: Global,
    matches: &ArgMatches<'a>,
) -> Result<ReportOptions<'a>, UsageError<WrongOption<'a>>> {
    let key = area_of(matches, "key-size", TERMINAL_SIZES.key).map_err(WrongOption::KeySize)?;
    let Sizes { mask, keys, .. } = sizes_of(matches)?;
    Ok(ReportOptions {
        pool: matches.get_str("POOL").unwrap_or(""),
        names: all_of(alloc, matches, "names")?,
        sizes: Sizes { mask, key, keys },
    })
}

/// The area of a text such as `480x480`. Neither side is 0.
pub fn area(text: &str) -> Option<Area> {
    let (width, height) = text.split_once('x')?;
    let width = width.parse::<u16>().ok()?;
    let height = height.parse::<u16>().ok()?;
    (width > 0 && height > 0).then_some(Area { width, height })
}

fn diff_options<'a>(
    alloc: Global,
    matches: &ArgMatches<'a>,
) -> Result<DiffOptions<'a>, AllocError> {
    Ok(DiffOptions {
        old: matches.get_str("OLD").unwrap_or(""),
        new: matches.get_str("NEW").unwrap_or(""),
        names: all_of(alloc, matches, "names")?,
        format: line_format_of(matches),
    })
}
