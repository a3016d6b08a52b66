//! The words of a line, between spaces.

ghost use Rattle.std.specs.Prelude.{◌≡◌, ◌≤◌, ◌<◌, ◌==◌, not, IfSome, length, position};
ghost use Rattle.vt_recorded.specs.PlainForms.{word_start, word_length, unpadded, word, after_word, starts_with_byte};

/// Whether a text begins with a byte.
pub(crate) fn starts_with(byte: u8, text: &[u8]) -> bool
    ensures { result ≡ starts_with_byte byte text.now }
{
    match text {
        [] => false,
        [first, ..] => *first == byte,
    }
}

/// The first word of a text, and the text after it.
pub(crate) fn next_word(text: &[u8]) -> (&[u8], &[u8])
    ensures word { result.0.now ≡ word text.now }
    ensures rest { result.1.now ≡ after_word text.now }
{
    let text = unpadded(text);
    text.split_at(word_length(text))
}

/// A text without the spaces at its front.
pub(crate) fn unpadded(text: &[u8]) -> &[u8]
    ensures { result.now ≡ unpadded text.now }
{
    text.split_at(word_start(text)).1
}

/// Where the first word of a text begins.
fn word_start(text: &[u8]) -> usize
    ensures start { result ≡ word_start text.now }
    ensures within { result ≤ length text.now }
{
    first_other(text).unwrap_or(text.len())
}

/// The length of the word at the front of a text.
fn word_length(text: &[u8]) -> usize
    ensures length { result ≡ word_length text.now }
    ensures within { result ≤ length text.now }
{
    first_space(text).unwrap_or(text.len())
}

/// The index of the first byte that is no space.
fn first_other(text: &[u8]) -> Option<usize>
    ensures index { result ≡ position (λ byte. not (byte == 32)) text.now }
    ensures within { IfSome result (λ index. index < length text.now) }
{
    text.iter().position(|byte| *byte != b' ')
}

/// The index of the first space.
fn first_space(text: &[u8]) -> Option<usize>
    ensures index { result ≡ position (λ byte. byte == 32) text.now }
    ensures within { IfSome result (λ index. index < length text.now) }
{
    text.iter().position(|byte| *byte == b' ')
}
