//! Encodes a block of 32 bytes with vectors.
//!
//! Each byte becomes one byte or two, which depend on the byte, the two before it and the one after
//! it. Four loads that begin one byte apart put these four bytes into the same lane of four
//! vectors. Eight bytes become a row of sixteen lanes. One shuffle packs the lanes that are
//! written. The row is stored whole, and the next row overwrites what lies after its end.

ghost use Rattle.std.specs.Prelude.{◌≡◌, List, Bool, ◌+◌, ◌*◌, ◌-◌, ◌<◌, ◌≤◌, ◌++◌, length, take, count_ones, IsTrue};
ghost use Rattle.std.specs.Simd.Lanes.{chunk, mask_l};
ghost use Rattle.cesu8_text.specs.Class.{is_at_least_f0};
ghost use Rattle.cesu8_bytes.specs.Kernels.{AnyIn};
ghost use Rattle.cesu8_bytes.specs.Puts.{WritesAt};
ghost use Rattle.cesu8_encode.specs.EncodedOffsets.{packed, packed_len, encoded_bytes, AreLanes, WritesLanes};

use super::rows::doubling_rows;
use cesu8_bytes::BLOCK;
use cesu8_bytes::flavor::{Flavor, nulls};
use cesu8_bytes::lanes::class::{AtLeastF0, Either, bits, mask};
use cesu8_bytes::lanes::short::any_in_ends;
use cesu8_bytes::writing::offsets::put;
use std::simd::prelude::*;

/// The bytes before a block that are read with it, since they decide what its bytes become.
pub const READ_BEFORE: usize = 2;

/// The bytes after a block that are read with it: a byte may also take bits of the next one.
pub const READ_AFTER: usize = 1;

/// The bytes that are read to encode a block: its window.
pub const BLOCK_READ: usize = READ_BEFORE + BLOCK + READ_AFTER;

/// The bytes of a block that form a row.
pub const ROW: usize = 8;

/// The bytes that are stored for the rows of a block. Its encoding has at most as many.
pub const BLOCK_ENCODED: usize = 2 * BLOCK;

/// Encodes the first `count` bytes of a window's block, and returns the end of what it wrote.
#[inline(always)]
pub fn write_block<F: Flavor>(window: &[u8], count: usize, out: &mut [u8], end: usize) -> usize
    requires window { BLOCK_READ ≤ length window.now }
    requires count { count ≤ BLOCK }
    requires room { end + length (encoded_bytes F.flavor window.now 0 count) ≤ length out.old }
    ensures { WritesAt (encoded_bytes F.flavor window.now 0 count) end out.old out.new result }
{
    if BLOCK_ENCODED <= out.len() - end {
        return write_rows_by_call::<F>(window, count, out, end);
    }
    write_by_array::<F>(window, count, out, end)
}

/// Like `write_block`, if the rows may not fit: they are stored to an array, and copied from there.
#[inline(never)]
fn write_by_array<F: Flavor>(window: &[u8], count: usize, out: &mut [u8], end: usize) -> usize
    requires window { BLOCK_READ ≤ length window.now }
    requires count { count ≤ BLOCK }
    requires room { end + length (encoded_bytes F.flavor window.now 0 count) ≤ length out.old }
    ensures { WritesAt (encoded_bytes F.flavor window.now 0 count) end out.old out.new result }
{
    let mut stored = [0; BLOCK_ENCODED];
    let len = write_rows_by_call::<F>(window, count, &mut stored, 0);
    put(&stored[..len], out, end)
}

/// Like `write_rows`, for a window of one block. It is not inlined, since it has several callers.
#[inline(never)]
fn write_rows_by_call<F: Flavor>(window: &[u8], count: usize, out: &mut [u8], end: usize) -> usize
    requires window { BLOCK_READ ≤ length window.now }
    requires count { count ≤ BLOCK }
    requires room { end + BLOCK_ENCODED ≤ length out.old }
    ensures { WritesAt (encoded_bytes F.flavor window.now 0 count) end out.old out.new result }
{
    write_rows::<F>(window, 0, count, out, end)
}

/// Encodes the first `count` bytes of the block that begins `READ_BEFORE` bytes after `at`, and
/// returns the end of what it wrote. The last row has at least `ROW` bytes, and its vector twice as
/// many. So all rows fit if at least `ROW` bytes are written after the block.
#[inline(always)]
pub fn write_rows<F: Flavor>(
    window: &[u8],
    at: usize,
    count: usize,
    out: &mut [u8],
    end: usize,
) -> usize
    requires window { at + BLOCK_READ ≤ length window.now }
    requires count { count ≤ BLOCK }
    requires room { end + length (encoded_bytes F.flavor window.now at (BLOCK - ROW)) + 2 * ROW
        ≤ length out.old }
    ensures { WritesAt (encoded_bytes F.flavor window.now at count) end out.old out.new result }
{
    let block = encode_block::<F>(window, at);
    store_block(&block, count, out, end)
}

/// Returns true only if neither the block nor the two bytes before change, whatever byte follows.
#[inline(always)]
pub fn is_unchanged<F: Flavor>(window: &[u8], at: usize) -> bool
    requires { at + BLOCK_READ ≤ length window.now }
    ensures { IsTrue result
        → encoded_bytes F.flavor window.now at BLOCK ≡ chunk (at + READ_BEFORE) BLOCK window.now }
{
    let near = &window[at..at + READ_BEFORE + BLOCK];
    !any_in_ends::<Either<F::Null, AtLeastF0>, BLOCK>(near)
}

/// Like `write_rows`, for a whole block of a window without a byte of F0 or more (hexadecimal).
/// Null characters become C0 80, and no neighbor matters, so computing the lanes takes fewer steps.
#[inline(always)]
pub fn write_nulls<F: Flavor>(window: &[u8], at: usize, out: &mut [u8], end: usize) -> usize
    requires window { at + BLOCK_READ ≤ length window.now }
    requires low { ¬ (AnyIn is_at_least_f0 window.now) }
    requires room { end + length (encoded_bytes F.flavor window.now at (BLOCK - ROW)) + 2 * ROW
        ≤ length out.old }
    ensures { WritesAt (encoded_bytes F.flavor window.now at BLOCK) end out.old out.new result }
{
    let bytes = u8x32::from_slice(&window[at + READ_BEFORE..]);
    let block = EncodedBlock {
        seconds: bytes | (nulls::<F>(bytes) & u8x32::splat(0x80)),
        firsts: u8x32::splat(0xC0),
        doubled: bits::<F::Null, BLOCK>(bytes),
    };
    store_block(&block, BLOCK, out, end)
}

/// What is written for the bytes of a block: for each byte its lane of `seconds`, preceded by its
/// lane of `firsts` if its bit of `doubled` is set.
#[derive(Drop)]
struct EncodedBlock {
    seconds: u8x32,
    firsts: u8x32,
    doubled: u64,
}

/// Computes the lanes of the block that begins two bytes after `at`. Of the four bytes `a b c d` of
/// a character, `a` becomes ED and the second byte of the high surrogate, and `b` its third byte.
/// `c` becomes ED and the second byte of the low surrogate, and `d` is unchanged.
#[inline(always)]
fn encode_block<F: Flavor>(window: &[u8], at: usize) -> EncodedBlock
    requires { at + BLOCK_READ ≤ length window.now }
    ensures { AreLanes F.flavor window.now at result.seconds result.firsts result.doubled }
{
    let bytes = u8x32::from_slice(&window[at + 2..]);
    let lead = mask::<AtLeastF0>(bytes);
    let lead_before = mask::<AtLeastF0>(u8x32::from_slice(&window[at + 1..]));
    let lead_two_before = mask::<AtLeastF0>(u8x32::from_slice(&window[at..]));
    let null = nulls::<F>(bytes);

    let next = u8x32::from_slice(&window[at + 3..]);
    // The last four bits of each byte and two bits of the next one.
    let six_bits = ((bytes << u8x32::splat(2)) & u8x32::splat(0x3C))
        | ((next >> u8x32::splat(4)) & u8x32::splat(0x03));
    // The six bits of a lead byte are the plane. The second byte of a high surrogate is A0 plus the
    // plane less one, so 9F is added. For the next byte it is 80, as for any continuation byte.
    let of_high = six_bits.strict_add(u8x32::splat(0x80) | (lead & u8x32::splat(0x1F)));
    let other = bytes | (lead_two_before & u8x32::splat(0x30)) | (null & u8x32::splat(0x80));
    let is_of_high = lead | lead_before;
    // No byte is both lead and null, so a sum joins the tests. `|` would add a third test.
    let doubled = lead.strict_add(null) | lead_two_before;
    EncodedBlock {
        seconds: is_of_high.simd_eq(u8x32::splat(0)).select(other, of_high),
        firsts: null
            .simd_eq(u8x32::splat(0))
            .select(u8x32::splat(0xED), u8x32::splat(0xC0)),
        doubled: doubled.simd_eq(u8x32::splat(0xFF)).to_bitmask(),
    }
}

/// Packs and stores a row, and returns the end of its content.
#[inline(always)]
fn store_row(lanes: u8x16, doubled: usize, out: &mut [u8], at: usize) -> usize
    requires small { doubled < 0x100 }
    requires room { at + 2 * ROW ≤ length out.old }
    ensures bytes { (ts : List Bool) → length ts ≡ ROW → doubled ≡ mask_l ts
        → take result out.new
        ≡ take at out.old ++ packed ts (chunk ROW ROW lanes) (chunk 0 ROW lanes) }
    ensures end { result ≡ at + ROW + count_ones doubled }
    ensures within { result ≤ at + 2 * ROW }
    ensures len { length out.new ≡ length out.old }
{
    let packed = lanes.swizzle_dyn(u8x16::from_array(doubling_rows()[doubled]));
    packed.copy_to_slice(&mut out[at..]);
    at + ROW + doubled.count_ones() as usize
}

// Expands to the row of eight bytes of a block: their lanes of `seconds`, and then their lanes of
// `firsts`, which are numbered from 32 on.
macro_rules! row {
    ($block:ident, $($lane:literal)*) => {
        $block.seconds.shuffle::<16>($block.firsts, [$($lane),*])
    };
}

/// Stores the four rows of a block, and returns the end of the content for its first `count` bytes.
#[inline(always)]
fn store_block(block: &EncodedBlock, count: usize, out: &mut [u8], end: usize) -> usize
    requires count { count ≤ BLOCK }
    requires room { end + packed_len block.now.doubled (BLOCK - ROW) + 2 * ROW ≤ length out.old }
    ensures { WritesLanes block.now.seconds block.now.firsts block.now.doubled
        count end out.old out.new result }
{
    let doubled = block.doubled;
    let row = row!(block, 0 1 2 3 4 5 6 7 32 33 34 35 36 37 38 39);
    let at = store_row(row, (doubled & 0xFF) as usize, out, end);
    let row = row!(block, 8 9 10 11 12 13 14 15 40 41 42 43 44 45 46 47);
    let at = store_row(row, (doubled >> 8 & 0xFF) as usize, out, at);
    let row = row!(block, 16 17 18 19 20 21 22 23 48 49 50 51 52 53 54 55);
    let at = store_row(row, (doubled >> 16 & 0xFF) as usize, out, at);
    let row = row!(block, 24 25 26 27 28 29 30 31 56 57 58 59 60 61 62 63);
    store_row(row, (doubled >> 24 & 0xFF) as usize, out, at);
    end + count + (doubled & ((1 << count) - 1)).count_ones() as usize
}
