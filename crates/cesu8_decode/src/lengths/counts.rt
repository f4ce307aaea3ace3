//! By how many bytes the lossily decoded text is shorter than three bytes for each input byte.
//!
//! Each character saves a number of bytes that depends on its form, and an ill-formed byte saves
//! none. So the sum follows from the number of set bits in the masks of the characters' starts.

ghost use Rattle.std.specs.Prelude.{◌≡◌, ◌≤◌, length};
ghost use Rattle.cesu8_decode.specs.DecodedOffsets.{total_saved, saved_between};

use crate::lanes::masks::masks_of;
use crate::lanes::padded::padded;
use cesu8_bytes::BLOCK;
use cesu8_bytes::flavor::Flavor;
use cesu8_bytes::lanes::class::LANES;
use cesu8_bytes::lanes::padded::padded_half;
use std::simd::prelude::*;

/// Returns what the bytes of at most one block save.
#[inline(always)]
#[tactic(auto, using(crate::proofs::decoder::MaskReturns::saved_with_zeros))]
pub fn saved_in_block<F: Flavor>(bytes: &[u8]) -> usize
    requires { length bytes.now ≤ BLOCK }
    ensures { result ≡ total_saved F.flavor bytes.now }
{
    saved_by_lanes::<F, BLOCK>(padded_half(bytes), bytes.len())
}

/// Returns what at most 64 bytes save.
#[inline(always)]
#[tactic(auto, using(crate::proofs::decoder::MaskReturns::saved_with_zeros))]
pub fn saved_in_short<F: Flavor>(bytes: &[u8]) -> usize
    requires { length bytes.now ≤ LANES }
    ensures { result ≡ total_saved F.flavor bytes.now }
{
    saved_by_lanes::<F, LANES>(padded(bytes), bytes.len())
}

/// Returns what the first `count` offsets save, as if zeros followed the lanes.
#[inline(always)]
#[tactic(auto, using(crate::proofs::decoder::MaskCounts::counts_of_masks))]
pub fn saved_by_lanes<F: Flavor, const N: usize>(lanes: Simd<u8, N>, count: usize) -> usize
    requires lanes { N ≤ LANES }
    requires count { count ≤ N }
    ensures { result ≡ saved_between F.flavor lanes.entry 0 count }
{
    let masks = masks_of::<F, N>(lanes, count);
    let others = masks.others.count_ones() as usize;
    if others == 0 {
        return 2 * count;
    }
    let twos = masks.twos.count_ones() as usize;
    let threes = masks.threes.count_ones() as usize;
    let pairs = masks.pairs.count_ones() as usize;
    let nulls = masks.nulls.count_ones() as usize;
    // A character of n bytes that becomes m bytes of UTF-8 saves 3 * n - m. For a surrogate pair
    // this is 18 - 4, and for C0 80 it is 6 - 1.
    2 * (count - others) + 4 * twos + 6 * threes + 14 * pairs + 5 * nulls
}
