//! The simplest kernels: one byte at a time. `word` calls them for fewer than eight bytes, and
//! `simd` for a single last byte.

ghost use Rattle.std.specs.Prelude.{IsTrue, ◌↔◌, Any};
ghost use Rattle.cesu8_text.specs.Class.{IsFour, IsNullFour};

/// Returns whether some byte is F0 to F7 (hexadecimal): in UTF-8, the lead byte of four bytes.
///
/// ```rust
/// use simd_cesu8::implementation::fallback;
///
/// assert!(rt; fallback::contains_utf8_4_byte_char_header("\u{1F496}".as_bytes()));
/// ```
pub fn contains_utf8_4_byte_char_header(value: &[u8]) -> bool
    ensures { IsTrue result ↔ Any IsFour value.now }
{
    value.iter().any(|byte| (0xF0..=0xF7).contains(byte))
}

/// Returns whether some byte is 00, or F0 to F7 (hexadecimal).
///
/// ```rust
/// use simd_cesu8::implementation::fallback;
///
/// assert!(rt; fallback::contains_null_or_utf8_4_byte_char_header(b"a\0"));
/// ```
pub fn contains_null_or_utf8_4_byte_char_header(value: &[u8]) -> bool
    ensures { IsTrue result ↔ Any IsNullFour value.now }
{
    value
        .iter()
        .any(|byte| *byte == 0 || (0xF0..=0xF7).contains(byte))
}
