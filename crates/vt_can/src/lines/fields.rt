//! The fields of a frame line, split at their separators.

ghost use Rattle.std.specs.Prelude.{◌≡◌, ◌⊎◌, ◌↔◌, ℕ, List, codes, IsTrue, MatchOption};
ghost use Rattle.vt_can.specs.lines.Line.{HasTime, HasShape};
ghost use Rattle.vt_can.specs.lines.Fields.{Lacks, IsSplitAtByte, IsThirdWord};

use crate::lines::digits::{micros, number};
use crate::lines::places::place_of;

/// Splits a line into its leading time, in microseconds, and the rest.
pub fn time_of(content: &[u8]) -> Option<(u64, &[u8])>
    ensures { MatchOption result
        ((time : ℕ) (rest : List ℕ) → HasTime content.now time rest → ⊥)
        (λ x. HasTime content.now x.0 x.1.now) }
{
    let text = content.strip_prefix(b"(")?;
    let (seconds, text) = cut(text, b'.')?;
    let (fraction, rest) = cut(text, b')')?;
    let seconds = number(seconds, 1, 12)?;
    let micros = micros(fraction)?;
    Some((seconds * 1_000_000 + micros, rest))
}

/// Returns the ID and the data of a frame line as they are written. `rest` is the line after its time.
pub fn shape_of(rest: &[u8]) -> Option<(&[u8], &[u8])>
    ensures { MatchOption result
        ((id text : List ℕ) → HasShape rest.now id text → ⊥)
        (λ x. HasShape rest.now x.0.now x.1.now) }
{
    let words = rest.strip_prefix(b" ")?;
    let (interface, last) = cut(words, b' ')?;
    let word = third_word(last)?;
    let (id, text) = cut(word, b'#')?;
    if !(1..=15).contains(&interface.len()) {
        return None;
    }
    if id.len() != 3 && id.len() != 8 {
        return None;
    }
    Some((id, text))
}

// The third word of a frame line, without a suffix ` R` or ` T`. `None` if another suffix follows.
fn third_word(text: &[u8]) -> Option<&[u8]>
    ensures { MatchOption result
        ((word : List ℕ) → IsThirdWord text.now word → ⊥)
        (λ word. IsThirdWord text.now word.now) }
{
    let Some((word, suffix)) = cut(text, b' ') else {
        return Some(text);
    };
    if !is_letter(suffix) {
        return None;
    }
    Some(word)
}

// Whether a text is the letter of a suffix.
fn is_letter(text: &[u8]) -> bool
    ensures { IsTrue result ↔ ((text.now ≡ codes "R") ⊎ (text.now ≡ codes "T")) }
{
    matches!(text, [b'R' | b'T'])
}

/// Splits a text at the first occurrence of `byte`, which is in neither half.
pub fn cut(text: &[u8], byte: u8) -> Option<(&[u8], &[u8])>
    ensures { MatchOption result (Lacks byte text.now) (λ p. IsSplitAtByte byte text.now p.0.now p.1.now) }
{
    let place = place_of(text, byte)?;
    Some((&text[..place], &text[place + 1..]))
}
