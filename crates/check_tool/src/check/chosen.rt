//! Which findings are told, and with which severity.

use check_inspect::{Finding, FindingPlace};
use check_options::{ALL_WARNINGS, Choice};
use check_text::{CheckedPool, Item, Severity, code_of, severity_of, warning_object};
use std::alloc::{AllocError, Global};
use vt_objects::ObjectId;
use vt_pool::PoolFault;

/// Which findings are told, and with which severity.
#[derive(Drop)]
pub(crate) struct Chosen<'a> {
    select: Vec<Choice<'a>>,
    ignore: Vec<Choice<'a>>,
    deny: Vec<Choice<'a>>,
    warn: Vec<Choice<'a>>,
    /// Whether what this terminal alone asks for is left out.
    is_for_any: bool,
    /// Whether a run with a warning ends with status 1.
    pub(crate) denies_warnings: bool,
}

/// The words that choose findings.
#[derive(Clone, Copy)]
pub(crate) struct ChosenWords<'a, 'b> {
    pub(crate) select: &'b [&'a str],
    pub(crate) ignore: &'b [&'a str],
    pub(crate) deny: &'b [&'a str],
    pub(crate) warn: &'b [&'a str],
    /// Whether what this terminal alone asks for is left out.
    pub(crate) is_for_any: bool,
}

impl<'a> Chosen<'a> {
    /// What these words choose.
    pub(crate) fn new(alloc: Global, words: ChosenWords<'a, '_>) -> Result<Chosen<'a>, AllocError> {
        Ok(Chosen {
            select: choices_of(alloc, words.select)?,
            ignore: choices_of(alloc, words.ignore)?,
            deny: choices_of(alloc, words.deny)?,
            warn: choices_of(alloc, words.warn)?,
            is_for_any: words.is_for_any,
            denies_warnings: words.deny.iter().any(|word| *word == ALL_WARNINGS),
        })
    }

    /// Whether an item is told: it is selected, or all are, and it is not ignored, nor left out for other terminals.
    pub(crate) fn is_told(&self, source: &CheckedPool<'_>, item: Item<'_>) -> bool {
        (self.select.is_empty() || is_chosen(&self.select, source, item))
            && !is_chosen(&self.ignore, source, item)
            && !(self.is_for_any && is_of_this_terminal(source, item))
    }

    /// The severity of an item: its own, or the one that is chosen for it.
    pub(crate) fn severity(&self, source: &CheckedPool<'_>, item: Item<'_>) -> Severity {
        match severity_of(item) {
            Severity::Error if is_chosen(&self.warn, source, item) => Severity::Warning,
            Severity::Warning if is_chosen(&self.deny, source, item) => Severity::Error,
            severity => severity,
        }
    }
}

/// The choices of some words, without `warnings`.
fn choices_of<'a>(alloc: Global, words: &[&'a str]) -> Result<Vec<Choice<'a>>, AllocError> {
    words
        .iter()
        .filter_map(|word| Choice::parse(word))
        .collect(alloc)
}

/// Whether one of some choices chooses an item.
fn is_chosen(choices: &[Choice<'_>], source: &CheckedPool<'_>, item: Item<'_>) -> bool {
    let code = code_of(item);
    choices.iter().any(|choice| {
        choice.code.is_none_or(|word| code.is_called(word))
            && choice.object.is_none_or(|word| is_of(source, item, word))
    })
}

/// Whether an item is about what this terminal alone asks for: a type that it leaves out and passes over, unless bytes are unread, one of its
/// scales, or its number of steps (docs/POOLS.md, "Other terminals").
fn is_of_this_terminal(source: &CheckedPool<'_>, item: Item<'_>) -> bool {
    match item {
        Item::Finding(
            Finding::Record(PoolFault::UnknownType { at } | PoolFault::LeftOutType { at }),
        ) => source.is_passed(*at) && source.is_read(),
        Item::Finding(Finding::Record(PoolFault::Scale { .. }) | Finding::OverBudget { .. }) =>
            true,
        Item::Finding(_)
        | Item::Clash(_)
        | Item::Replaced(_)
        | Item::Warning(_)
        | Item::Value(_)
        | Item::Note(_) => false,
    }
}

/// Whether an item is about the object with an ID or a name.
fn is_of(source: &CheckedPool<'_>, item: Item<'_>, word: &str) -> bool {
    let Some(id) = object_of(item) else {
        return false;
    };
    match word.parse::<u16>() {
        Ok(number) => id.raw() == number,
        Err(_) => source.names.get(id).is_some_and(|name| name == word),
    }
}

/// The object that an item is about. `None` for a byte, or the whole pool.
fn object_of(item: Item<'_>) -> Option<ObjectId> {
    match item {
        Item::Finding(finding) => match finding.place()? {
            FindingPlace::Object(id) | FindingPlace::Command { id, .. } => Some(id),
            FindingPlace::Byte(_) => None,
        },
        Item::Clash(replaced) | Item::Replaced(replaced) => Some(replaced.id),
        Item::Warning(warning) => Some(warning_object(warning)),
        Item::Value(warning) => Some(warning.object()),
        Item::Note(_) => None,
    }
}
