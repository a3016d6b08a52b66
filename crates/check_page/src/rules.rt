//! What the codes of `check` mean.

use check_reports::{RuleText, rule_texts};
use std::alloc::Global;
use std::io::{self, Write};
use vt_cli::{Cell, put_line};

/// Writes a line of JSON for each code of `check`, with its cause and its cure.
pub(crate) fn put_rules<W: Write>(alloc: Global, out: &mut W) -> io::Result<()> {
    let rules = rule_texts(alloc)?;
    for rule in rules.iter() {
        put_rule(alloc, rule, out)?;
    }
    Ok(())
}

/// Writes the line of a code.
fn put_rule<W: Write>(alloc: Global, rule: &RuleText<'_>, out: &mut W) -> io::Result<()> {
    let RuleText {
        code,
        name,
        cause,
        cure,
        ..
    } = *rule;
    put_line(
        alloc,
        &[
            ("cause", Cell::Text(cause)),
            ("code", Cell::Text(code)),
            ("cure", Cell::Text(cure)),
            ("name", Cell::Text(name)),
            ("severity", Cell::Text(rule.severity())),
        ],
        out,
    )
}
