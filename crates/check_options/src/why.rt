//! The options of `why`.

use crate::line_format::{LineFormat, line_format_of};
use crate::wrong_option::WrongOption;
use check_text::event_name;
use clap::ArgMatches;
use std::alloc::Global;
use vt_cli::{UsageError, all_of};
use vt_objects::Event;

/// The options of `why`.
#[derive(Drop)]
pub struct WhyOptions<'a> {
    /// The file of the pool.
    pub pool: &'a str,
    /// What is asked.
    pub question: Question<'a>,
    /// The files of names.
    pub names: Vec<&'a str>,
    /// The most events of a list, or `None` for all.
    pub most: Option<u32>,
    /// The form of the output.
    pub format: LineFormat,
}

/// What `why` is asked.
#[derive(Clone, Copy, PartialEq, Eq)]
pub enum Question<'a> {
    /// Which events of the pool cost a step.
    Pool,
    /// Which events of an object cost a step.
    Object(ObjectWord<'a>),
    /// Why an event of an object costs what it costs. Its number is at most 26.
    Event(ObjectWord<'a>, u8),
}

/// An object, as a word of the command line gives it.
#[derive(Clone, Copy, PartialEq, Eq)]
pub enum ObjectWord<'a> {
    /// The object with this ID.
    Id(u16),
    /// The object with this name.
    Name(&'a str),
}

pub(crate) fn why_options<'a>(
    alloc: Global,
    matches: &ArgMatches<'a>,
) -> Result<WhyOptions<'a>, UsageError<WrongOption<'a>>> {
    // The borrow checker does not cover `?` to another error at a value that holds a text.
    let question = match question_of(matches.get_str("EVENT")) {
        Ok(question) => question,
        Err(option) => return Err(UsageError::Wrong(option)),
    };
    Ok(WhyOptions {
        pool: matches.get_str("POOL").unwrap_or(""),
        question,
        names: all_of(alloc, matches, "names")?,
        most: matches.get_one::<u32>("most"),
        format: line_format_of(matches),
    })
}

/// The question that a word such as `2002:24`, `key_fold:press` or `2002` asks.
fn question_of<'a>(word: Option<&'a str>) -> Result<Question<'a>, WrongOption<'a>> {
    let Some(word) = word else {
        return Ok(Question::Pool);
    };
    let (object, event) = match word.rsplit_once(':') {
        None => (word, None),
        Some((object, event)) => (object, Some(event)),
    };
    let Some(object) = object_word(object) else {
        return Err(WrongOption::Event(word));
    };
    let Some(event) = event else {
        return Ok(Question::Object(object));
    };
    match event_number(event) {
        Some(event) => Ok(Question::Event(object, event)),
        None => Err(WrongOption::Event(word)),
    }
}

/// The object of a word: one with an ID, unless the word has something else than digits.
fn object_word(word: &str) -> Option<ObjectWord<'_>> {
    if !word.bytes().all(|byte| byte.is_ascii_digit()) {
        return Some(ObjectWord::Name(word));
    }
    let id = word.parse::<u16>().ok()?;
    Some(ObjectWord::Id(id))
}

/// The event of a word: its number, its name, or the name without `key`, as in `press`.
fn event_number(word: &str) -> Option<u8> {
    match word.parse::<u8>() {
        Ok(number) => (number <= Event::LAST_NUMBER).then_some(number),
        Err(_) => (0..=Event::LAST_NUMBER).find(|number| {
            let name = event_name(*number);
            let short = name.strip_prefix("key ").unwrap_or(name);
            is_spelled(word, name) || is_spelled(word, short)
        }),
    }
}

/// Whether a word is a name in capital or small letters, with `-`, `_` or a space in place of each space.
fn is_spelled(word: &str, name: &str) -> bool {
    let mut letters = word.bytes().zip(name.bytes());
    word.len() == name.len() && letters.all(|(letter, of_name)| is_letter(letter, of_name))
}

fn is_letter(letter: u8, of_name: u8) -> bool {
    match letter {
        b'-' | b'_' => of_name == b' ',
        _ => letter.to_ascii_lowercase() == of_name.to_ascii_lowercase(),
    }
}
