//! Kernels that test up to 64 bytes at a time, as the lanes of a vector. `active` exports them.

ghost use Rattle.std.specs.Prelude.{◌↔◌, IsTrue, Any};
ghost use Rattle.cesu8_text.specs.Class.{IsFour, IsNullFour};

use super::fallback;
use crate::lanes::class::{Either, FourByteLead, Null};
use crate::lanes::widths::any_by_widths;

/// Returns whether some byte is F0 to F7 (hexadecimal): in UTF-8, the lead byte of four bytes.
///
/// ```rust
/// use simd_cesu8::implementation::simd;
///
/// assert!(rt; simd::contains_utf8_4_byte_char_header("caf\u{E9} \u{1F496}".as_bytes()));
/// ```
#[inline(always)]
pub fn contains_utf8_4_byte_char_header(value: &[u8]) -> bool
    ensures { IsTrue result ↔ Any IsFour value.now }
{
    any_by_widths::<FourByteLead, _>(value, fallback::contains_utf8_4_byte_char_header)
}

/// Returns whether some byte is 00, or F0 to F7 (hexadecimal).
///
/// ```rust
/// use simd_cesu8::implementation::simd;
///
/// assert!(rt; simd::contains_null_or_utf8_4_byte_char_header(b"caf\xC3\xA9\0"));
/// ```
#[inline(always)]
pub fn contains_null_or_utf8_4_byte_char_header(value: &[u8]) -> bool
    ensures { IsTrue result ↔ Any IsNullFour value.now }
{
    any_by_widths::<Either<Null, FourByteLead>, _>(
        value,
        fallback::contains_null_or_utf8_4_byte_char_header,
    )
}
