//! Files of settings, `segyolant.toml`.

use check_needs::Area;
use check_options::{area, is_choice};
use std::alloc::{AllocError, Global};
use std::fmt;
use std::io::{self, ErrorKind, Write};
use std::ops::Range;
use toml::{Table, Value};
use vt_cli::{Open, read_file};

/// The name of a file of settings in the folder of a pool.
const FILE_NAME: &str = "segyolant.toml";

/// A file of settings.
#[derive(Drop)]
pub(crate) struct ConfigFile {
    /// Its path.
    path: String,
    /// What it says.
    table: Table,
}

/// What a file of settings says.
#[derive(Drop)]
pub(crate) struct Config<'a> {
    pub(crate) mask: Option<Area>,
    pub(crate) key: Option<Area>,
    pub(crate) keys: Option<u8>,
    pub(crate) names: Vec<&'a str>,
    pub(crate) select: Vec<&'a str>,
    pub(crate) ignore: Vec<&'a str>,
    pub(crate) deny: Vec<&'a str>,
    pub(crate) warn: Vec<&'a str>,
    pub(crate) baseline: Option<&'a str>,
    pub(crate) is_for_any: Option<bool>,
}

/// A setting that is wrong.
#[derive(Clone, Copy)]
enum WrongSetting<'a> {
    /// There is no setting of this name.
    Name(&'a str),
    /// The value is of another form than the setting has, such as `a text`.
    Form { name: &'a str, expected: &'a str },
    /// A word chooses no findings.
    Choice { name: &'a str, word: &'a str },
    /// Memory was refused.
    Memory,
}

impl fmt::Display for WrongSetting<'_> {
    fn fmt<W: fmt::Write>(&self, f: &mut fmt::Formatter<W>) -> fmt::Result {
        match self {
            WrongSetting::Name(name) => write!(
                f,
                "no setting is called {name}; expected size, key-size, keys, names, select, ignore, deny, warn, baseline or for"
            ),
            WrongSetting::Form { name, expected } => write!(f, "{name}: expected {expected}"),
            WrongSetting::Choice { name, word } => write!(
                f,
                "{name}: {word}: expected a code or a name of an error or a warning, such as W02 or Unused, an object, such as [325], or both, such as Unused[325]"
            ),
            WrongSetting::Memory => write!(f, "out of memory"),
        }
    }
}

impl From<AllocError> for WrongSetting<'_> {
    fn from(_: AllocError) -> Self {
        WrongSetting::Memory
    }
}

/// The folder of a path, with its slash.
fn folder_of(path: &str) -> &str {
    match path.rfind('/') {
        Some(slash) => path.get(..=slash).unwrap_or(""),
        None => "",
    }
}

/// The path of a file that another file names: beside that one, unless it begins with a slash.
pub(crate) fn path_beside(alloc: Global, path: &str, name: &str) -> Result<String, AllocError> {
    let folder = if name.starts_with('/') {
        ""
    } else {
        folder_of(path)
    };
    format!(in alloc; "{folder}{name}")
}

impl ConfigFile {
    /// Reads the file at a path, or if it is `None` the one in the folder of a pool, if that is there. Without a file nothing is set. `None`
    /// if the file cannot be read or is no TOML: then `errors` receives the reason.
    pub(crate) fn read<F: Open, E: Write>(
        alloc: Global,
        given: Option<&str>,
        pool: &str,
        files: &mut F,
        errors: &mut E,
    ) -> io::Result<Option<ConfigFile>> {
        let path = match given {
            Some(path) => String::from_str(alloc, path)?,
            None => path_beside(alloc, pool, FILE_NAME)?,
        };
        if given.is_none() && is_missing(path.as_str(), files) {
            return Ok(Some(ConfigFile::empty(alloc)));
        }
        let Some(bytes) = read_file(alloc, path.as_str(), files, errors)? else {
            return Ok(None);
        };
        match toml::table_from_slice(alloc, bytes.as_slice()) {
            Ok(table) => Ok(Some(ConfigFile { path, table })),
            Err(error) if error.is_memory() => Err(io::Error::from(ErrorKind::OutOfMemory)),
            Err(error) => {
                let line = line_of(bytes.as_slice(), error.span());
                let message = error.message();
                let _ = writeln!(errors, "{}: {path}: line {line}: {message}", files.name());
                Ok(None)
            }
        }
    }

    /// A file that says nothing. Does not allocate.
    pub(crate) fn empty(alloc: Global) -> ConfigFile {
        ConfigFile {
            path: String::new(alloc),
            table: Table::new(alloc),
        }
    }

    /// The path.
    pub(crate) fn path(&self) -> &str {
        self.path.as_str()
    }

    /// What the file says. `None` if a setting is wrong: then `errors` receives the reason.
    pub(crate) fn settings<E: Write>(
        &self,
        alloc: Global,
        program: &str,
        errors: &mut E,
    ) -> io::Result<Option<Config<'_>>> {
        let mut config = Config::new(alloc);
        for (name, value) in self.table.iter() {
            match config.set(alloc, name.as_str(), value) {
                Ok(()) => {}
                Err(WrongSetting::Memory) => return Err(io::Error::from(ErrorKind::OutOfMemory)),
                Err(wrong) => {
                    let _ = writeln!(errors, "{program}: {}: {wrong}", self.path);
                    return Ok(None);
                }
            }
        }
        Ok(Some(config))
    }
}

/// The number of the line in which a part of a text begins.
fn line_of(text: &[u8], part: Option<Range<usize>>) -> usize {
    let start = part.map_or(0, |part| part.start);
    let before = text.get(..start).unwrap_or(&[]);
    let ends = before.iter().filter(|byte| **byte == b'\n').count();
    ends.saturating_add(1)
}

/// Whether no file is at a path.
fn is_missing<F: Open>(path: &str, files: &mut F) -> bool {
    match files.open(path) {
        Ok(_) => false,
        Err(error) => error.kind() == ErrorKind::NotFound,
    }
}

impl<'a> Config<'a> {
    /// Nothing is set. Does not allocate.
    fn new(alloc: Global) -> Config<'a> {
        Config {
            mask: None,
            key: None,
            keys: None,
            names: Vec::new(alloc),
            select: Vec::new(alloc),
            ignore: Vec::new(alloc),
            deny: Vec::new(alloc),
            warn: Vec::new(alloc),
            baseline: None,
            is_for_any: None,
        }
    }

    /// Sets what a member of the file says.
    fn set(
        &mut self,
        alloc: Global,
        name: &'a str,
        value: &'a Value,
    ) -> Result<(), WrongSetting<'a>> {
        match name {
            "size" => self.mask = Some(area_in(name, value)?),
            "key-size" => self.key = Some(area_in(name, value)?),
            "keys" => self.keys = Some(keys_in(name, value)?),
            "names" => self.names = files_in(alloc, name, value)?,
            "select" => self.select = choices_in(alloc, name, value)?,
            "ignore" => self.ignore = choices_in(alloc, name, value)?,
            "deny" => self.deny = choices_in(alloc, name, value)?,
            "warn" => self.warn = choices_in(alloc, name, value)?,
            "baseline" => self.baseline = Some(text_in(
                name,
                value,
                "the path of a file, such as \"known.json\"",
            )?),
            "for" => self.is_for_any = Some(is_any_in(name, value)?),
            _ => return Err(WrongSetting::Name(name)),
        }
        Ok(())
    }
}

fn text_in<'a>(
    name: &'a str,
    value: &'a Value,
    expected: &'a str,
) -> Result<&'a str, WrongSetting<'a>> {
    value.as_str().ok_or(WrongSetting::Form { name, expected })
}

/// Whether a pool is checked for any terminal.
fn is_any_in<'a>(name: &'a str, value: &'a Value) -> Result<bool, WrongSetting<'a>> {
    let expected = "\"this\" or \"any\"";
    match text_in(name, value, expected)? {
        "this" => Ok(false),
        "any" => Ok(true),
        _ => Err(WrongSetting::Form { name, expected }),
    }
}

fn area_in<'a>(name: &'a str, value: &'a Value) -> Result<Area, WrongSetting<'a>> {
    let expected = "a width and a height, such as \"480x480\"";
    area(text_in(name, value, expected)?).ok_or(WrongSetting::Form { name, expected })
}

fn keys_in<'a>(name: &'a str, value: &'a Value) -> Result<u8, WrongSetting<'a>> {
    let keys = value.as_integer().and_then(|keys| u8::try_from(keys).ok());
    keys.ok_or(WrongSetting::Form {
        name,
        expected: "a number from 0 to 255",
    })
}

/// The files of names.
fn files_in<'a>(
    alloc: Global,
    name: &'a str,
    value: &'a Value,
) -> Result<Vec<&'a str>, WrongSetting<'a>> {
    texts_in(alloc, name, value, "a list of files, such as [\"my.h\"]")
}

fn texts_in<'a>(
    alloc: Global,
    name: &'a str,
    value: &'a Value,
    expected: &'a str,
) -> Result<Vec<&'a str>, WrongSetting<'a>> {
    let Some(values) = value.as_array() else {
        return Err(WrongSetting::Form { name, expected });
    };
    let mut texts = Vec::new(alloc);
    for value in values.iter() {
        let text = text_in(name, value, expected)?;
        if texts.push(text).is_err() {
            return Err(WrongSetting::Memory);
        }
    }
    Ok(texts)
}

fn choices_in<'a>(
    alloc: Global,
    name: &'a str,
    value: &'a Value,
) -> Result<Vec<&'a str>, WrongSetting<'a>> {
    let words = texts_in(
        alloc,
        name,
        value,
        "a list of codes, such as [\"Unused\", \"W05\"]",
    )?;
    match words.iter().find(|word| !is_choice(name, word)) {
        Some(word) => Err(WrongSetting::Choice { name, word: *word }),
        None => Ok(words),
    }
}
