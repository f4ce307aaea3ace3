//! Decodes a string at the start of a slice to a caller's buffer, strictly. It is for consecutive
//! strings, most of which are short ASCII.
//!
//! The fast path loads 64 bytes of the input as one vector. If the string's bytes in it are
//! unchanged ASCII, it replaces the first `len` lanes of the buffer's first 64 bytes by them, and
//! stores these 64 bytes. The only branch on the length is whether it is at most 64.

ghost use Rattle.std.specs.Prelude.{◌≡◌, ◌++◌, ◌≤◌, false, IsTrue, length, take, drop};
ghost use Rattle.simd_cesu8.specs.Class.{IsUnchangedUtf8};
ghost use Rattle.simd_cesu8.specs.Reading.{IsStrictReading};
ghost use Rattle.simd_cesu8.specs.Slices.{StandsAtFront, WritesReading};

use crate::codec::{self, EncodingAlone, Flavor, begins_with_unchanged_ascii};
use crate::error::DecodeSliceFault;
use std::simd::prelude::*;

/// The length of a vector, in bytes.
const LANES: usize = 64;

const NUMBERS: [u8; LANES] = [
    0, 1, 2, 3, 4, 5, 6, 7, 8, 9, 10, 11, 12, 13, 14, 15, 16, 17, 18, 19, 20, 21, 22, 23, 24, 25,
    26, 27, 28, 29, 30, 31, 32, 33, 34, 35, 36, 37, 38, 39, 40, 41, 42, 43, 44, 45, 46, 47, 48, 49,
    50, 51, 52, 53, 54, 55, 56, 57, 58, 59, 60, 61, 62, 63,
];

/// Strictly decodes the first `len` bytes, or all bytes if there are fewer, to the buffer.
#[inline(always)]
pub fn decode_strict_front_to_slice<F: Flavor>(
    bytes: &[u8],
    len: usize,
    buf: &mut [u8],
) -> Result<usize, DecodeSliceFault>
    ensures { WritesReading (IsStrictReading F.flavor (take len bytes.now)) result buf.old buf.new }
{
    let len = len.min(bytes.len());
    if copy_unchanged_ascii::<F>(bytes, len, buf) {
        return Ok(len);
    }
    decode_by_call::<F>(&bytes[..len], buf)
}

/// Fast path: copies up to 64 bytes of unchanged ASCII, if input and buffer have at least 64 bytes.
#[inline(always)]
fn copy_unchanged_ascii<F: Flavor>(bytes: &[u8], len: usize, buf: &mut [u8]) -> bool
    ensures unchanged { IsTrue result → IsUnchangedUtf8 F.flavor (take len bytes.now) }
    ensures copied { IsTrue result → StandsAtFront (take len bytes.now) len buf.old buf.new }
    ensures fits { IsTrue result → len ≤ length buf.old }
    ensures other { result ≡ false → buf.new ≡ buf.old }
{
    if len > LANES || bytes.len() < LANES || buf.len() < LANES {
        return false;
    }
    if !begins_with_unchanged_ascii::<F>(bytes, len) {
        return false;
    }
    let lanes = join_lanes(Simd::from_slice(bytes), len as u8, Simd::from_slice(buf));
    lanes.copy_to_slice(buf);
    true
}

/// Returns the first `len` lanes of `first`, and then the remaining lanes of `other`.
#[inline(always)]
fn join_lanes(first: u8x64, len: u8, other: u8x64) -> u8x64
    ensures { result ≡ take len first ++ drop len other }
{
    u8x64::from_array(NUMBERS)
        .simd_lt(u8x64::splat(len))
        .select(first, other)
}

/// Calls `decode_called`. It is split off so that the fast path skips the zeroing of the result
/// slot: an inlined function zeroes the slot at its own start, which is after the fast path.
#[inline(always)]
fn decode_by_call<F: Flavor>(bytes: &[u8], buf: &mut [u8]) -> Result<usize, DecodeSliceFault>
    ensures { WritesReading (IsStrictReading F.flavor bytes.now) result buf.old buf.new }
{
    decode_called::<F>(bytes, buf)
}

/// Decodes strictly to the buffer. It is not inlined, to keep the code of the fast path small.
#[inline(never)]
fn decode_called<F: Flavor>(bytes: &[u8], buf: &mut [u8]) -> Result<usize, DecodeSliceFault>
    ensures { WritesReading (IsStrictReading F.flavor bytes.now) result buf.old buf.new }
{
    codec::decode_to_slice::<F, EncodingAlone>(bytes, buf)
}
