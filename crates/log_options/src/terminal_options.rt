//! The options of the terminal that replays a log.

use crate::wrong_option::WrongOption;
use clap::ArgMatches;
use hex::FromHex;
use vt_can::assigned::TERMINAL_ADDRESS;
use vt_cli::address;

/// The terminal that replays a log.
#[derive(Clone, Copy, PartialEq, Eq)]
pub struct TerminalOptions {
    /// Its address, at most 253.
    pub own: u8,
    /// Its NAME, if it is given.
    pub name: Option<u64>,
}

pub(crate) fn terminal_options<'a>(
    matches: &ArgMatches<'a>,
) -> Result<TerminalOptions, WrongOption<'a>> {
    Ok(TerminalOptions {
        own: own_of(matches)?,
        name: name_of(matches)?,
    })
}

/// The NAME that the value of `--name` gives, if it is given.
fn name_of<'a>(matches: &ArgMatches<'a>) -> Result<Option<u64>, WrongOption<'a>> {
    match matches.get_str("name") {
        None => Ok(None),
        Some(value) => match <[u8; 8]>::from_hex(value) {
            Ok(bytes) => Ok(Some(u64::from_be_bytes(bytes))),
            Err(_) => Err(WrongOption::Name(value)),
        },
    }
}

/// The address that the value of `--own` gives, or else the default.
pub(crate) fn own_of<'a>(matches: &ArgMatches<'a>) -> Result<u8, WrongOption<'a>> {
    match matches.get_str("own") {
        None => Ok(TERMINAL_ADDRESS),
        Some(value) => address(value).ok_or(WrongOption::Own(value)),
    }
}
