//! The subcommand `rule`.

mod texts;

use std::alloc::Global;
use std::io::{self, Write};
pub use texts::{RuleText, rule_texts};
use vt_cli::Status;

/// Explains the code or the name in a word, or lists all codes. If no code or name is like it, `errors` receives a sentence.
pub fn run_rule<W: Write, E: Write>(
    alloc: Global,
    word: Option<&str>,
    out: &mut W,
    errors: &mut E,
) -> io::Result<Status> {
    let rules = rule_texts(alloc)?;
    let Some(word) = word else {
        for rule in rules.iter() {
            put_line(rule, out)?;
        }
        return Ok(Status::Clean);
    };
    match rules.iter().find(|rule| rule.is_called(word)) {
        Some(rule) => {
            put_rule(rule, out)?;
            Ok(Status::Clean)
        }
        None => {
            let _ = writeln!(
                errors,
                "segyolant: {word}: no code or name of check; segyolant rule lists them"
            );
            Ok(Status::NotJudged)
        }
    }
}

/// Writes the line of a code in the list of all.
fn put_line<W: Write>(rule: &RuleText<'_>, out: &mut W) -> io::Result<()> {
    let RuleText {
        code,
        name,
        cause,
        ..
    } = *rule;
    writeln!(out, "{code} {name}, {}: {cause}", rule.severity())
}

/// Writes what a code means, what to do, and an example.
fn put_rule<W: Write>(rule: &RuleText<'_>, out: &mut W) -> io::Result<()> {
    let RuleText {
        code,
        name,
        cause,
        cure,
        example,
    } = *rule;
    let severity = rule.severity();
    writeln!(out, "{code} {name}, {severity}")?;
    writeln!(out, "Cause: {cause}.")?;
    writeln!(out, "Cure: {cure}.")?;
    writeln!(out, "Example: {severity}[{code} {name}] {example}")
}
