//! Which character begins at each offset of a vector, as masks with one bit for each byte.
//!
//! Comparisons give a mask for each class of bytes. Shifted by one bit, such a mask is about the
//! next byte. So a few operations on masks find all characters of one form at once.

ghost use Rattle.std.specs.Prelude.{◌≤◌, ◌+◌, ◌&&◌, ◌||◌, ◌==◌, nat_le, nat_lt, slice_index};
ghost use Rattle.cesu8_text.specs.Class.{is_null};
ghost use Rattle.cesu8_decode.specs.DecodedOffsets.{continues};
ghost use Rattle.cesu8_decode.specs.Masks.{AreMasks, HasBits, has_bit_below, is_long_lead_at, is_null_at, is_six_at, is_three_at};

use cesu8_bytes::flavor::Flavor;
use cesu8_bytes::lanes::class::{AtLeast, Equal, LANES, NonAscii, Null, bits};
use std::simd::prelude::*;

/// How many of 64 offsets can be decided, since a character of six bytes still ends within the 64.
pub const STEP: usize = LANES - 5;

/// Bit `i` of each mask but `others` is set if a character of the mask's form begins at offset `i`.
#[derive(Clone, Copy)]
pub struct Masks {
    /// Bytes that are not a character of one byte: bytes that are not ASCII, and in MUTF-8 also 00.
    pub others: u64,
    /// Characters of two bytes, except C0 80.
    pub twos: u64,
    /// Characters of three bytes. Half of a surrogate pair is not one.
    pub threes: u64,
    /// Surrogate pairs, of six bytes.
    pub pairs: u64,
    /// C0 80 in MUTF-8.
    pub nulls: u64,
}

/// Returns the masks for the first `count` bytes, as if zeros followed the last lane.
#[inline(always)]
pub fn masks_of<F: Flavor, const N: usize>(lanes: Simd<u8, N>, count: usize) -> Masks
    requires lanes { N ≤ LANES }
    requires count { count ≤ N }
    ensures { AreMasks F.flavor lanes.entry 0 count result }
{
    let first = first_bits(count);
    let high = bits::<NonAscii, N>(lanes);
    let others = (high | null_bytes::<F, N>(lanes)) & first;
    if others == 0 {
        return Masks {
            others: 0,
            twos: 0,
            threes: 0,
            pairs: 0,
            nulls: 0,
        };
    }
    // A byte from 80 on is a continuation byte if the bit below its highest is clear. `second`
    // marks the bytes that precede one.
    let from_c0 = high & bits_below::<N>(lanes, 1);
    let second = (high & !from_c0) >> 1;
    let from_c2 = bits::<AtLeast<0xC2>, N>(lanes);
    let wide = bits_below::<N>(lanes, 2);
    let leads = from_c2 & second;
    let (threes, pairs) = threes_and_pairs::<N>(lanes, leads & wide, second, wide);
    let nulls = nulls_of::<F, N>(lanes, from_c0 & !from_c2);
    Masks {
        others,
        twos: leads & !wide & first,
        threes: threes & first,
        pairs: pairs & first,
        nulls: nulls & first,
    }
}

#[inline(always)]
#[tactic(auto, using(crate::proofs::decoder::MaskReturns::first_bits_returned))]
fn first_bits(count: usize) -> u64
    requires { count ≤ LANES }
    ensures { HasBits result (λ i. nat_lt i count) }
{
    if count == LANES {
        return u64::MAX;
    }
    (1 << count) - 1
}

/// Returns a mask of the bytes in which the bit `below` places below the highest is set.
#[inline(always)]
fn bits_below<const N: usize>(lanes: Simd<u8, N>, below: u8) -> u64
    requires lanes { N ≤ LANES }
    requires below { below ≤ 7 }
    ensures { HasBits result (λ i. has_bit_below below (slice_index lanes.entry i)) }
{
    bits::<NonAscii, N>(lanes << Simd::splat(below))
}

/// Returns a mask of the bytes 00 in MUTF-8, in which 00 is not a character.
#[inline(always)]
#[tactic(auto, using(crate::proofs::decoder::MaskReturns::null_bytes_returned))]
fn null_bytes<F: Flavor, const N: usize>(lanes: Simd<u8, N>) -> u64
    requires { N ≤ LANES }
    ensures { HasBits result (λ i. nat_lt i N && is_null F.flavor (slice_index lanes.entry i)) }
{
    if F::has_long_null() {
        bits::<Null, N>(lanes)
    } else {
        0
    }
}

/// Returns the offsets at which C0 80 begins in MUTF-8. `below_c2` marks C0 and C1.
#[inline(always)]
#[tactic(auto, using(crate::proofs::decoder::MaskReturns::nulls_returned))]
fn nulls_of<F: Flavor, const N: usize>(lanes: Simd<u8, N>, below_c2: u64) -> u64
    requires lanes { N ≤ LANES }
    requires below_c2 { HasBits below_c2 (λ i. nat_le 0xC0 (slice_index lanes i)
        && nat_lt (slice_index lanes i) 0xC2) }
    ensures { HasBits result (is_null_at F.flavor lanes.entry) }
{
    if !F::has_long_null() || below_c2 == 0 {
        return 0;
    }
    bits::<Equal<0xC0>, N>(lanes) & (bits::<Equal<0x80>, N>(lanes) >> 1)
}

/// Returns the starts of three-byte characters and of surrogate pairs. `leads` marks bytes from E0
/// on that precede a continuation byte, and `second` any byte that precedes one. `wide` marks bytes
/// with bit 20 (hexadecimal), which lead bytes have from E0 on, and continuation bytes from A0 on.
#[inline(always)]
fn threes_and_pairs<const N: usize>(
    lanes: Simd<u8, N>,
    leads: u64,
    second: u64,
    wide: u64,
) -> (u64, u64)
    requires lanes { N ≤ LANES }
    requires leads { HasBits leads (is_long_lead_at lanes) }
    requires second { HasBits second (λ i. continues (slice_index lanes (i + 1))) }
    requires wide { HasBits wide (λ i. has_bit_below 2 (slice_index lanes i)) }
    ensures threes { HasBits result.0 (is_three_at lanes.entry) }
    ensures pairs { HasBits result.1 (is_six_at lanes.entry) }
{
    if leads == 0 {
        return (0, 0);
    }
    // Of the bytes from E0 on, those from F0 on have bit 10 (hexadecimal). Of the continuation
    // bytes A0 to BF, those from B0 on have it.
    let odd = bits_below::<N>(lanes, 3);
    let whole = leads & (second >> 1) & !odd;
    // No branch asks for E0 and ED first: in mixed text it would be mispredicted.
    let next_wide = wide >> 1;
    let surrogates = whole & next_wide & bits::<Equal<0xED>, N>(lanes);
    let overlong = bits::<Equal<0xE0>, N>(lanes) & !next_wide;
    let threes = whole & !(surrogates | overlong);
    if surrogates == 0 {
        return (threes, 0);
    }
    // A surrogate pair is a high surrogate and, three bytes later, a low one.
    let low = surrogates & (odd >> 1);
    (threes, surrogates & !low & (low >> 3))
}
