//! Messages about a pool, each a line.

ghost use Rattle.std.specs.Prelude.{◌≡◌};
ghost use Rattle.check_text.specs.Severities.{severity_of, severity_word};

use crate::codes::Code;
use crate::item::Item;
use std::fmt;

/// The severity of a message.
#[derive(Clone, Copy, PartialEq, Eq)]
pub enum Severity {
    /// A terminal refuses the pool, or two objects of different kinds have one ID.
    Error,
    /// A terminal does not refuse the pool for this, and it may be meant.
    Warning,
    /// Some rules were not judged.
    Note,
}

impl Severity {
    /// The word for a severity in messages.
    pub fn word(self) -> &'static str
        ensures { result.now ≡ severity_word self }
    {
        match self {
            Severity::Error => "error",
            Severity::Warning => "warning",
            Severity::Note => "note",
        }
    }
}

/// The severity of an item.
pub fn severity_of(item: Item<'_>) -> Severity
    ensures { result ≡ severity_of item.entry }
{
    match item {
        Item::Finding(_) | Item::Clash(_) => Severity::Error,
        Item::Replaced(_) | Item::Warning(_) | Item::Value(_) => Severity::Warning,
        Item::Note(_) => Severity::Note,
    }
}

/// A message about a pool. `Display` writes `FILE:OFFSET: SEVERITY[CODE NAME] SENTENCE`, without a newline.
#[derive(Drop)]
pub struct ItemLine<'a> {
    /// The path of the pool's file.
    pub file: &'a str,
    /// The index of the byte that the message is about.
    pub offset: usize,
    /// The severity.
    pub severity: Severity,
    /// The code.
    pub code: Code,
    /// The sentence with the cause.
    pub sentence: String,
}

impl fmt::Display for ItemLine<'_> {
    fn fmt<W: fmt::Write>(&self, f: &mut fmt::Formatter<W>) -> fmt::Result {
        let Code { code, name } = self.code;
        write!(
            f,
            "{}:{}: {}[{code} {name}] {}",
            self.file,
            self.offset,
            self.severity.word(),
            self.sentence
        )
    }
}
