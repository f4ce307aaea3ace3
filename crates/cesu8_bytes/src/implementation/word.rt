//! Kernels that test eight bytes at a time, as one word. `active` exports those of `simd` instead,
//! so only tests and users call these.

ghost use Rattle.std.specs.Prelude.{◌↔◌, IsTrue, Any};
ghost use Rattle.cesu8_text.specs.Class.{IsFour, IsNullFour};

use super::fallback;
use crate::words::{contains_four, contains_null_or_four, test_word_any};

/// Returns whether some byte is F0 to F7 (hexadecimal): in UTF-8, the lead byte of four bytes.
///
/// ```rust
/// use simd_cesu8::implementation::word;
///
/// assert!(rt; word::contains_utf8_4_byte_char_header("caf\u{E9} \u{1F496}".as_bytes()));
/// ```
pub fn contains_utf8_4_byte_char_header(value: &[u8]) -> bool
    ensures { IsTrue result ↔ Any IsFour value.now }
{
    test_word_any(
        value,
        fallback::contains_utf8_4_byte_char_header,
        contains_four,
    )
}

/// Returns whether some byte is 00, or F0 to F7 (hexadecimal).
///
/// ```rust
/// use simd_cesu8::implementation::word;
///
/// assert!(rt; word::contains_null_or_utf8_4_byte_char_header(b"caf\xC3\xA9\0"));
/// ```
pub fn contains_null_or_utf8_4_byte_char_header(value: &[u8]) -> bool
    ensures { IsTrue result ↔ Any IsNullFour value.now }
{
    test_word_any(
        value,
        fallback::contains_null_or_utf8_4_byte_char_header,
        contains_null_or_four,
    )
}
