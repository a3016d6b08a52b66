//! Theorems about the definitions.

ghost use Rattle.log_expect.specs.Laws.{NoDifferenceIsAsExpected, WithoutWildcardsIsTheSame};

/// A log without differences prints what fits its expectations, line for line: its first screen, and the text of each line that is no
/// expectation.
pub fn a_test_without_differences_is_as_expected()
    ensures { NoDifferenceIsAsExpected }
{}

/// Without wildcards a text fits what is expected if and only if it is the same.
pub fn a_text_fits_another_only_by_wildcards()
    ensures { WithoutWildcardsIsTheSame }
{}
