//! The interfaces of a log.

ghost use Rattle.std.specs.Prelude.{◌≡◌, option_map};
ghost use Rattle.vt_recorded.specs.Interfaces.{interface_in, is_of_interface};

use crate::words::{next_word, starts_with};

/// The name of the interface in a line: the word after its time. `None` if the line does not begin with a time, or ends with it.
pub fn interface_in(line: &[u8]) -> Option<&[u8]>
    ensures { option_map (λ name. name.now) result ≡ interface_in line.now }
{
    let (time, rest) = next_word(line);
    if !starts_with(b'(', time) {
        return None;
    }
    match next_word(rest).0 {
        [] => None,
        name => Some(name),
    }
}

/// Whether a line is of the interface `wanted`. True of each line if `wanted` is `None`, and of each line that names no interface.
pub fn is_of_interface(line: &[u8], wanted: Option<&str>) -> bool
    ensures { result ≡ is_of_interface (option_map (λ name. name.now) wanted.entry) line.now }
{
    let Some(wanted) = wanted else {
        return true;
    };
    match interface_in(line) {
        Some(name) => name == wanted.as_bytes(),
        None => true,
    }
}
