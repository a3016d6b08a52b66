//! Tests of texts against expectations.

use super::fits;
use std::test::Fail;

#[test]
fn texts_that_fit_and_others(rt: HostRuntime) -> Result<(), Fail> {
    for (expectations, printed, wanted) in [
        ("", "", true),
        ("! press 7\n#< a\n", "", true),
        ("#< a\n#<b\n! press 7\n#< c\n", "a\nb\n", true),
        ("#< a", "a\n", true),
        ("#<\n#< \n#<  \n", "\n\n \n", true),
        ("#<? a?c\n", "abc\n", true),
        ("#<?a?c\n#< a?c\n", "a?c\na?c\n", true),
        ("#<?\n#<??\n", "\nx\n", true),
        ("", "a\n", false),
        ("#< a\n", "", false),
        ("#< a\n", "a", false),
        ("#< a\n", "a\n\n", false),
        ("#< a\n#< b\n", "b\na\n", false),
        ("#< a?c\n", "abc\n", false),
        ("#<? a?c\n", "ac\n", false),
        ("#<? a?c\n", "abbc\n", false),
        ("#<? a?c\n", "a\nc\n", false),
        ("#<? a?\n", "a\n\n", false),
        ("#<? a?\n", "ab", false),
    ] {
        let fit = fits(expectations.as_bytes(), printed.as_bytes());
        assert_eq!(rt; (printed, fit), (printed, wanted));
    }
    Ok(())
}
