//! Packs the lanes of a vector, without those that are dropped, by a shuffle for each eight lanes.

ghost use Rattle.std.specs.Prelude.{◌≡◌, List, Bool, ◌+◌, ◌<◌, ◌≤◌, ◌++◌, false, length, take, replicate};
ghost use Rattle.std.specs.Simd.Lanes.{chunk, mask_l};
ghost use Rattle.cesu8_bytes.specs.Packing.{written, kept_of, lanes_at};
ghost use Rattle.cesu8_bytes.specs.Puts.{WritesAt};

mod rows_of_eight;

use crate::BLOCK;
use rows_of_eight::rows_of_eight;
use std::simd::prelude::*;

/// How many bytes the store of a packed row takes: the kept lanes, and garbage after them.
pub const STORED: usize = 16;
/// Half a block: the 16 lanes from which `swizzle_dyn_within` selects.
pub const HALF: usize = BLOCK / 2;

/// Stores 32 bytes without those that are dropped, and returns the offset after them. Bit `i` of
/// `dropped` is set if byte `i` is dropped. The bits above these are ignored.
#[inline(always)]
pub fn store_kept(bytes: u8x32, dropped: usize, out: &mut [u8], at: usize) -> usize
    requires { at + BLOCK + STORED ≤ length out.old }
    ensures { (tests : List Bool) → BLOCK ≤ length tests → dropped ≡ mask_l tests
        → WritesAt (written (take BLOCK tests) (replicate BLOCK false) bytes)
        at out.old out.new result }
{
    // `first` begins with the first eight bytes, and `third` with the third eight.
    let first = bytes.extract::<0, HALF>();
    let third = bytes.extract::<HALF, HALF>();
    let at = store_eight(first, dropped & 0xFF, out, at);
    let at = store_eight(second_of(first), dropped >> 8 & 0xFF, out, at);
    let at = store_eight(third, dropped >> 16 & 0xFF, out, at);
    store_eight(second_of(third), dropped >> 24 & 0xFF, out, at)
}

/// Like `store_kept`, for eight bytes. The last number of a row is how many bytes it keeps.
#[inline(always)]
fn store_eight(lanes: u8x16, dropped: usize, out: &mut [u8], at: usize) -> usize
    requires small { dropped < 0x100 }
    requires room { at + STORED ≤ length out.old }
    ensures kept { WritesAt (lanes_at lanes (kept_of dropped 0 0 8)) at out.old out.new result }
    ensures few { result ≤ at + 8 }
{
    let row = &rows_of_eight()[dropped];
    let packed = picked(lanes, u8x16::from_array(*row));
    packed.copy_to_slice(&mut out[at..]);
    at + row[15] as usize
}

/// Returns the upper half of the lanes, twice: the second copy only fills the vector.
#[inline(always)]
pub fn second_of(lanes: u8x16) -> u8x16
    ensures { result ≡ chunk 8 8 lanes ++ chunk 8 8 lanes }
{
    lanes.swizzle::<16>([8, 9, 10, 11, 12, 13, 14, 15, 8, 9, 10, 11, 12, 13, 14, 15])
}

/// Returns the lanes that the lower halves of the row's numbers select. The upper halves, which no
/// row has, are cleared: to select a lane, `swizzle_dyn_within` requires a number below 16.
#[inline(always)]
pub fn picked(lanes: u8x16, row: u8x16) -> u8x16
    ensures { result ≡ lanes_at lanes row }
{
    lanes.swizzle_dyn_within::<16>(row & u8x16::splat(0x0F))
}
