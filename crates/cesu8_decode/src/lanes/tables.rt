//! Look-ups of bytes in tables of sixteen entries, and shuffles that shift bytes between vectors.

ghost use Rattle.std.specs.Prelude.{◌≡◌, ◌%◌, map, slice_index};

use cesu8_bytes::BLOCK;
use cesu8_bytes::lanes::class::AtLeast;
use std::simd::prelude::*;

/// The lanes whose highest bit is set: in an error mask of `following`, the errors.
pub type HighestBit = AtLeast<0x80>;

/// The indices of sixteen lanes, twice.
const TWICE: [usize; BLOCK] = [
    0, 1, 2, 3, 4, 5, 6, 7, 8, 9, 10, 11, 12, 13, 14, 15, 0, 1, 2, 3, 4, 5, 6, 7, 8, 9, 10, 11, 12,
    13, 14, 15,
];

// Expands to 32 lane numbers, from the given one on.
macro_rules! numbers_from {
    ($n:literal) => {
        numbers_from!(
            $n; 0 1 2 3 4 5 6 7 8 9 10 11 12 13 14 15 16 17 18 19 20 21 22 23 24 25 26 27 28 29 30 31
        )
    };
    ($n:literal; $($k:literal)+) => {
        [$($n + $k),+]
    };
}

// Shuffles of two blocks: 32 consecutive lanes, from the number in the name on. `FROM_31` gives the
// byte before each byte of the second block.
pub const FROM_28: [usize; BLOCK] = numbers_from!(28);

pub const FROM_29: [usize; BLOCK] = numbers_from!(29);

pub const FROM_30: [usize; BLOCK] = numbers_from!(30);

pub const FROM_31: [usize; BLOCK] = numbers_from!(31);

/// Returns the entry of a table for the lower half of each lane.
#[inline(always)]
pub fn look_up(table: [u8; 16], lanes: u8x32) -> u8x32
    ensures { result ≡ map (λ lane. slice_index table (lane % 16)) lanes }
{
    // Each half of the lanes is looked up in its own sixteen, so the vector holds the table twice.
    u8x16::from_array(table)
        .swizzle::<32>(TWICE)
        .swizzle_dyn_within::<16>(lanes & u8x32::splat(15))
}
