//! The report of a check in SARIF 2.1.0, for hosts of code.

use check_reports::{RuleText, rule_texts};
use check_text::{ItemLine, Severity};
use serde_json::Value;
use std::alloc::{AllocError, Global};
use std::fmt;
use std::io::{self, Write};
use vt_cli::VERSION;

/// Writes a message as a result, behind a comma.
pub(crate) fn put_result<W: Write>(
    alloc: Global,
    message: &ItemLine<'_>,
    out: &mut W,
) -> io::Result<()> {
    let level = match message.severity {
        Severity::Error => "error",
        Severity::Warning => "warning",
        Severity::Note => "note",
    };
    let uri = Uri { path: message.file };
    let text = text_of(alloc, message.sentence.as_str())?;
    write!(
        out,
        ",\n        {{\"ruleId\":\"{}\",\"level\":\"{level}\",\"message\":{{\"text\":{text}}},\"locations\":[{{\"physicalLocation\":{{\"artifactLocation\":{{\"uri\":\"{uri}\"}},\"region\":{{\"byteOffset\":{}}}}}}}]}}",
        message.code.code, message.offset
    )
}

/// Writes the document around its results, of which each begins with a comma.
pub(crate) fn put_document<W: Write>(alloc: Global, results: &[u8], out: &mut W) -> io::Result<()> {
    write!(
        out,
        "{{\n  \"$schema\": \"https://json.schemastore.org/sarif-2.1.0.json\",\n  \"version\": \"2.1.0\",\n  \"runs\": [\n    {{\n      \"tool\": {{\"driver\": {{\"name\": \"segyolant\", \"version\": \"{VERSION}\", \"rules\": ["
    )?;
    let rules = rule_texts(alloc)?;
    for (index, rule) in rules.iter().enumerate() {
        let comma = if index == 0 { "" } else { "," };
        put_rule(alloc, comma, rule, out)?;
    }
    write!(out, "\n      ]}}}},\n      \"results\": [")?;
    out.write_all(results.get(1..).unwrap_or(&[]))?;
    writeln!(out, "\n      ]\n    }}\n  ]\n}}")
}

/// Writes what a code means, behind a comma unless it is the first.
fn put_rule<W: Write>(
    alloc: Global,
    comma: &str,
    rule: &RuleText<'_>,
    out: &mut W,
) -> io::Result<()> {
    let RuleText {
        code,
        name,
        cause,
        cure,
        ..
    } = *rule;
    let cause = text_of(alloc, cause)?;
    let cure = text_of(alloc, cure)?;
    write!(
        out,
        "{comma}\n        {{\"id\":\"{code}\",\"name\":\"{name}\",\"shortDescription\":{{\"text\":{cause}}},\"help\":{{\"text\":{cure}}}}}"
    )
}

/// A text of JSON, with its quotes.
fn text_of(alloc: Global, text: &str) -> Result<String, AllocError> {
    Value::String(String::from_str(alloc, text)?).to_string(alloc)
}

/// The path of a file as a reference of a URI: each byte that is not allowed there is `%` and two hex digits.
#[derive(Clone, Copy, Drop)]
struct Uri<'a> {
    path: &'a str,
}

impl fmt::Display for Uri<'_> {
    fn fmt<W: fmt::Write>(&self, f: &mut fmt::Formatter<W>) -> fmt::Result {
        for byte in self.path.bytes() {
            match byte {
                b'a'..=b'z' | b'A'..=b'Z' | b'0'..=b'9' | b'-' | b'.' | b'_' | b'~' | b'/' => {
                    f.write_char(char::from(byte))?;
                }
                byte => write!(f, "%{byte:02X}")?,
            }
        }
        Ok(())
    }
}
