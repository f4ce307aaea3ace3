//! Searches by words of eight bytes, for the kernels of `implementation::word`.
//!
//! A word has a byte 00 if and only if subtracting 1 from each byte sets a high bit that was clear.
//! Because of the borrow, a byte 01 above a 00 may get its bit set too. So the test finds whether
//! some byte is 00, not which one. A byte is F0 to F7 if its upper five bits are those of F0.

ghost use Rattle.std.specs.Prelude.{◌≡◌, ◌<◌, ◌≤◌, ◌+◌, ◌↔◌, ℕ, Bool, IsTrue, Any, length, slice_range};
ghost use Rattle.std.specs.Int.{to_le_bytes, w64};
ghost use Rattle.cesu8_text.specs.Class.{IsFour, IsNullFour};
ghost use Rattle.cesu8_bytes.specs.Kernels.{AnyIn, MayTest, Finds, MayTestWords, FindsInWords};

use std::simd::prelude::*;

const WORD: usize = 8;

/// Returns whether some word passes `test`. The words are the first eight bytes, each following
/// eight, and the last eight, which may overlap. `fallback` tests fewer than eight bytes.
pub fn test_word_any<F, T>(value: &[u8], fallback: F, test: T) -> bool
where
    F: Fn(&[u8]) -> bool,
    T: Fn(u64) -> bool,
    requires short { MayTest (λ len. len < WORD) F.Fn fallback }
    requires words { MayTestWords T.Fn test }
    ensures { (class : ℕ → Bool) → Finds (λ len. len < WORD) F.Fn fallback class
        → FindsInWords T.Fn test class → IsTrue result ↔ AnyIn class value.now }
{
    if value.len() < WORD {
        return fallback(value);
    }
    if test(word_at(value, 0)) {
        return true;
    }
    let last = value.len() - WORD;
    let mut offset = WORD;
    while offset < last {
        if test(word_at(value, offset)) {
            return true;
        }
        offset += WORD;
    }
    test(word_at(value, last))
}

/// Returns the eight bytes at an offset as a word, the first one in the lowest bits.
fn word_at(value: &[u8], offset: usize) -> u64
    requires { offset + WORD ≤ length value.now }
    ensures { to_le_bytes w64 result ≡ slice_range value.now offset (offset + WORD) }
{
    u64::from_le_bytes(u8x8::from_slice(&value[offset..]).to_array())
}

/// Returns whether some byte of the word is F0 to F7 (hexadecimal).
pub fn contains_four(word: u64) -> bool
    ensures { IsTrue result ↔ Any IsFour (to_le_bytes w64 word) }
{
    zero_marks((word & 0xF8F8_F8F8_F8F8_F8F8) ^ 0xF0F0_F0F0_F0F0_F0F0) != 0
}

/// Returns whether some byte of the word is 00, or F0 to F7 (hexadecimal).
pub fn contains_null_or_four(word: u64) -> bool
    ensures { IsTrue result ↔ Any IsNullFour (to_le_bytes w64 word) }
{
    zero_marks(word) != 0 || contains_four(word)
}

/// Returns 0 if and only if no byte of the word is 00.
pub fn zero_marks(word: u64) -> u64
    ensures { ¬ (result ≡ 0) ↔ Any (λ byte. byte ≡ 0) (to_le_bytes w64 word) }
{
    word.wrapping_sub(0x0101_0101_0101_0101) & !word & 0x8080_8080_8080_8080
}
