//! The lines of files of names.

/// The first characters of the operators of C between two operands.
const OPERATORS: [char; 12] = ['+', '-', '*', '/', '%', '<', '>', '&', '|', '^', '?', '='];

/// What a line of a file of names says.
#[derive(Clone, Copy, Drop)]
pub(crate) enum NameLine<'a> {
    /// The object with an ID has a name.
    Name { id: u16, name: &'a str },
    /// A line of the form of a name gives no ID.
    NoId,
    /// The line is blank, a comment, or another line of C.
    Other,
}

impl<'a> NameLine<'a> {
    /// Reads a line.
    pub(crate) fn read(line: &'a str) -> NameLine<'a> {
        let line = line.trim_start_matches('\u{FEFF}').trim();
        match line.strip_prefix('#') {
            Some(directive) => read_directive(directive),
            None if is_comment(line) => NameLine::Other,
            None => match line.split_once(',') {
                Some((id, names)) if is_number(id.trim()) => read_pair(id.trim(), names),
                _ => read_constant(line),
            },
        }
    }
}

/// Whether a line begins with a comment, or goes on with one.
fn is_comment(line: &str) -> bool {
    line.starts_with("//") || line.starts_with("/*") || line.starts_with('*')
}

/// Reads the ID and the name of `ID,NAME`. A further comma ends the name.
fn read_pair<'a>(id: &str, names: &'a str) -> NameLine<'a> {
    let name = match names.split_once(',') {
        Some((name, _)) => name.trim(),
        None => names.trim(),
    };
    // Numbers in a row are a list of bytes.
    if name.is_empty() || is_number(name) {
        return NameLine::Other;
    }
    match read_id(id) {
        Some(id) => NameLine::Name { id, name },
        None => NameLine::NoId,
    }
}

/// Reads a line of the preprocessor, behind its `#`.
fn read_directive(line: &str) -> NameLine<'_> {
    let Some(rest) = line.trim_start().strip_prefix("define") else {
        return NameLine::Other;
    };
    if !rest.starts_with([' ', '\t']) {
        return NameLine::Other;
    }
    let rest = without_comment(rest);
    let Some(name) = rest.split_ascii_whitespace().next() else {
        return NameLine::Other;
    };
    let Some(value) = rest.trim_start().strip_prefix(name) else {
        return NameLine::Other;
    };
    let value = value.trim();
    if !is_identifier(name) || value.is_empty() {
        return NameLine::Other;
    }
    match number_in(value).and_then(read_constant_id) {
        Some(id) => NameLine::Name { id, name },
        None => NameLine::NoId,
    }
}

/// The number of a definition: its first word, or the only word in parentheses or behind a cast. `None` if an operator follows the first
/// word.
fn number_in(value: &str) -> Option<&str> {
    let value = value.trim_end_matches([')', ' ', '\t']);
    if let Some((_, number)) = value.rsplit_once(['(', ')']) {
        return Some(number.trim());
    }
    let mut words = value.split_ascii_whitespace();
    let number = words.next()?;
    match words.next() {
        Some(word) if word.starts_with(OPERATORS) => None,
        Some(_) | None => Some(number),
    }
}

/// Reads a member of an enum, such as `NAME = ID,`, or a typed constant, such as `const uint16_t NAME = ID;` or `const uint16_t NAME{ID};`.
fn read_constant(line: &str) -> NameLine<'_> {
    match constant_in(without_comment(line)) {
        Some((id, name)) => NameLine::Name { id, name },
        None => NameLine::Other,
    }
}

/// The ID and the name of a member of an enum or of a typed constant.
fn constant_in(code: &str) -> Option<(u16, &str)> {
    let code = code.trim();
    let (before, value) = match code.split_once('=') {
        Some(parts) => parts,
        None => code.split_once('{')?,
    };
    let before = before.trim();
    let (name, is_constant) = match before.rsplit_once([' ', '\t']) {
        Some((types, name)) => (name, is_constant_type(types)),
        None => (before, !code.ends_with(';')),
    };
    if !is_constant || !is_identifier(name) {
        return None;
    }
    let value = value.trim_end_matches([';', ',', '}', ' ', '\t']);
    Some((read_constant_id(value.trim())?, name))
}

/// Whether the words before a name are those of a constant in C. Words that end in a colon are those of a constant in another language.
fn is_constant_type(words: &str) -> bool {
    let mut words_of_type = words.split_ascii_whitespace();
    words_of_type.any(|word| word == "const" || word == "constexpr") && !words.ends_with(':')
}

/// The part of a line before a comment.
fn without_comment(line: &str) -> &str {
    let code = match line.split_once("//") {
        Some((code, _)) => code,
        None => line,
    };
    match code.split_once("/*") {
        Some((code, _)) => code,
        None => code,
    }
}

/// Whether a word is a name in C.
fn is_identifier(word: &str) -> bool {
    !word.starts_with(|c: char| c.is_ascii_digit())
        && !word.is_empty()
        && word.chars().all(|c| c == '_' || c.is_alphanumeric())
}

/// Whether a word is a number of any size, decimal, or hex after `0x`.
fn is_number(word: &str) -> bool {
    match hex_digits(word) {
        Some(digits) => digits.bytes().all(|byte| byte.is_ascii_hexdigit()),
        None => !word.is_empty() && word.bytes().all(|byte| byte.is_ascii_digit()),
    }
}

/// Reads an ID: decimal, or hex after `0x`, with the suffixes of numbers in C, such as `UL`.
fn read_id(word: &str) -> Option<u16> {
    let number = word.trim_end_matches(['u', 'U', 'l', 'L']);
    match hex_digits(number) {
        Some(digits) => u16::from_str_radix(digits, 16).ok(),
        None => number.parse::<u16>().ok(),
    }
}

/// Reads an ID in C. There a number that begins with 0 is octal.
fn read_constant_id(word: &str) -> Option<u16> {
    let number = word.trim_end_matches(['u', 'U', 'l', 'L']);
    match number.strip_prefix('0') {
        Some(digits) if is_number(digits) => u16::from_str_radix(digits, 8).ok(),
        Some(_) | None => read_id(word),
    }
}

/// The digits behind `0x` or `0X`.
fn hex_digits(number: &str) -> Option<&str> {
    match number.strip_prefix("0x") {
        Some(digits) => Some(digits),
        None => number.strip_prefix("0X"),
    }
}
