//! Words that choose findings.

use check_text::is_code;

/// What a word such as `W02`, `Unused[325]` or `[box]` chooses: findings with a code or a name, of an object, or both.
#[derive(Clone, Copy, PartialEq, Eq)]
pub struct Choice<'a> {
    /// The code or the name, or `None` for every one.
    pub code: Option<&'a str>,
    /// The ID or the name of the object, or `None` for every one.
    pub object: Option<&'a str>,
}

impl<'a> Choice<'a> {
    /// Reads a word. `None` if it has neither a code nor an object, or a word in place of a code that is none.
    pub fn parse(word: &'a str) -> Option<Choice<'a>> {
        let Some(rest) = word.strip_suffix(']') else {
            return is_code(word).then_some(Choice {
                code: Some(word),
                object: None,
            });
        };
        let (code, object) = rest.split_once('[')?;
        if object.is_empty() || !code.is_empty() && !is_code(code) {
            return None;
        }
        Some(Choice {
            code: (!code.is_empty()).then_some(code),
            object: Some(object),
        })
    }
}
