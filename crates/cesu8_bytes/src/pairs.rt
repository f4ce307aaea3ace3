//! Recognizes an encoded surrogate pair and converts it to UTF-8, with eight bytes as one word.
//! Only the decoder uses this module.

ghost use Rattle.std.specs.Prelude.{◌≡◌, ◌+◌, ◌*◌, ◌≤◌, ◌↔◌, length, slice_index, IsTrue};
ghost use Rattle.cesu8_bytes.specs.Pairs.{HasPair, IsUtf8OfDigits, second_third_fifth_sixth, word_of};

use std::simd::prelude::*;

/// The length of an encoded surrogate pair.
pub const PAIR: usize = 6;
/// The length of its character in UTF-8.
pub const PAIR_UTF8: usize = 4;
/// How many bytes are read as one word. The two bytes after the pair do not matter.
pub const PAIR_READ: usize = 8;

/// The bits that all pairs share. A pair is ED, A0 to AF, 80 to BF, ED, B0 to BF, 80 to BF.
const PAIR_BITS: u64 = 0x0000_80B0_ED80_A0ED;

/// Returns whether the bytes begin with an encoded surrogate pair.
#[inline(always)]
pub fn is_pair(bytes: &[u8]) -> bool
    requires { PAIR_READ ≤ length bytes.now }
    ensures { IsTrue result ↔ HasPair bytes.now }
{
    first_word(bytes) & 0x0000_C0F0_FFC0_F0FF == PAIR_BITS
}

/// Returns the UTF-8 of the pair that begins the bytes. If none does, the result has no meaning:
/// the decoder calls it for C0 80 too, to save a branch, and then does not use the result.
#[inline(always)]
pub fn utf8_of_pair(bytes: &[u8]) -> [u8; PAIR_UTF8]
    requires { PAIR_READ ≤ length bytes.now }
    ensures { IsUtf8OfDigits (second_third_fifth_sixth bytes.now) result }
{
    // A pair encodes its character less 10000 (hexadecimal). The last four bits of the second byte
    // count the 10000s that are left, so this adds 1. That byte is below B0 in a pair, so nothing
    // is carried to the third.
    let word = first_word(bytes).wrapping_add(0x100);
    // The leading bits are F0 80 80 80. Each term puts some of the character's bits into place.
    let utf8 = 0x8080_80F0
        + (word >> 10 & 0x0000_0F07)
        + ((word & 0x0003_0300) << 4)
        + (word >> 16 & 0x3F0F_0000);
    (utf8 as u32).to_le_bytes()
}

/// Returns the first eight bytes as one word, the first in its lowest byte.
#[inline(always)]
fn first_word(bytes: &[u8]) -> u64
    requires { PAIR_READ ≤ length bytes.now }
    ensures { result ≡ word_of (slice_index bytes.now 0) (slice_index bytes.now 1)
        (slice_index bytes.now 2) (slice_index bytes.now 3) (slice_index bytes.now 4)
        (slice_index bytes.now 5) (slice_index bytes.now 6 + slice_index bytes.now 7 * 0x100) }
{
    u64::from_le_bytes(u8x8::from_slice(bytes).to_array())
}
