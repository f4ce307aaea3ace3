//! Encodes a block between the first and the last of a string. All strategies write the same bytes
//! for every string that they may be used for, and `strategy` chooses the fastest.

ghost use Rattle.std.specs.Prelude.{◌+◌, ◌-◌, ◌*◌, ◌≤◌, length};
ghost use Rattle.cesu8_bytes.specs.Puts.{WritesAt};
ghost use Rattle.cesu8_encode.specs.EncodedOffsets.{encoded_bytes};
ghost use Rattle.cesu8_encode.specs.Strategies.{FitsMiddle};

use super::blocks::{BLOCK_READ, READ_BEFORE, ROW, is_unchanged, write_nulls, write_rows};
use super::strategy::Middle;
use cesu8_bytes::BLOCK;
use cesu8_bytes::flavor::Flavor;
use cesu8_bytes::writing::offsets::put_lanes;
use std::simd::prelude::*;

/// Encodes the whole block that begins `READ_BEFORE` bytes after `at`, and returns the end of what
/// it wrote. The last `ROW` bytes are stored as twice as many, for which `rows` requires space.
#[inline(always)]
pub fn write_middle_block<F: Flavor>(
    text: &[u8],
    at: usize,
    middle: Middle,
    out: &mut [u8],
    end: usize,
) -> usize
    requires window { at + BLOCK_READ ≤ length text.now }
    requires fits { FitsMiddle middle text.now }
    requires room { end + length (encoded_bytes F.flavor text.now at BLOCK) ≤ length out.old }
    requires rows { end + length (encoded_bytes F.flavor text.now at (BLOCK - ROW)) + 2 * ROW
        ≤ length out.old }
    ensures { WritesAt (encoded_bytes F.flavor text.now at BLOCK) end out.old out.new result }
{
    // CESU-8 does not change null characters, so it has no code for them.
    if F::has_long_null() && matches!(middle, Middle::NullChange) {
        return write_nulls::<F>(text, at, out, end);
    }
    if matches!(middle, Middle::CopyUnchanged) && is_unchanged::<F>(text, at) {
        return put_lanes(u8x32::from_slice(&text[at + READ_BEFORE..]), out, end);
    }
    write_rows::<F>(text, at, BLOCK, out, end)
}
