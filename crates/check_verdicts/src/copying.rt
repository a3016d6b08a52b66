//! Texts and verdicts written into the caller's memory.

ghost use Rattle.std.specs.Prelude.{◌≡◌, IfOk, IfErr, length};
ghost use Rattle.check_verdicts.specs.Texts.{written_over};

use std::alloc::AllocError;

/// Writes the first bytes of a text over others, and returns the number of bytes of the whole text, or 2^64 - 1 without a text.
pub(crate) fn copied(text: Result<Vec<u8>, AllocError>, to: &mut [u8]) -> u64
    ensures count { IfOk text (λ whole. result ≡ length whole.items) }
    ensures written { IfOk text (λ whole. to.new ≡ written_over whole.items to.old) }
    ensures none { IfErr text (λ _. result ≡ 18446744073709551615) }
    ensures same { IfErr text (λ _. to.new ≡ to.old) }
{
    match text {
        Ok(whole) => {
            write_over(&whole, to);
            whole.len() as u64
        }
        Err(_) => u64::MAX,
    }
}

/// Writes the first items over others, as many as there is room for.
pub(crate) fn write_over<T: Copy>(items: &[T], to: &mut [T])
    ensures { to.new ≡ written_over items.now to.old }
{
    let count = items.len().min(to.len());
    to[..count].copy_from_slice(&items[..count]);
}
