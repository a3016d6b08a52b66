//! The values of options.

ghost use Rattle.std.specs.Prelude.{ℕ, MatchOption};
ghost use Rattle.vt_cli.specs.Addresses.{IsAddress};

use clap::ArgMatches;
use hex::FromHex;
use std::alloc::{AllocError, Global};

/// The values of an option, in their order.
pub fn all_of<'a>(
    alloc: Global,
    matches: &ArgMatches<'a>,
    option: &str,
) -> Result<Vec<&'a str>, AllocError> {
    match matches.get_strs(option) {
        Some(values) => Vec::from_slice(alloc, values),
        None => Ok(Vec::new(alloc)),
    }
}

/// How many of the values of these arguments are the path of the standard input.
pub fn inputs_in(matches: &ArgMatches<'_>, arguments: &[&str]) -> usize {
    arguments
        .iter()
        .filter_map(|argument| matches.get_strs(argument))
        .map(|paths| paths.iter().filter(|path| **path == "-").count())
        .fold(0, usize::saturating_add)
}

/// The address written as two hex digits, up to FD. `None` for any other text.
pub fn address(text: &str) -> Option<u8>
    ensures { MatchOption result ((n : ℕ) → IsAddress text.now n → ⊥) (IsAddress text.now) }
{
    let [address] = <[u8; 1]>::from_hex(text).ok()?;
    if address <= 0xFD { Some(address) } else { None }
}
